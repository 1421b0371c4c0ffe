//! The requests that new books keep, which are the desk's or of numbers that the old ones used.
ghost use Rattle.std.specs.Prelude.{◌≡◌, true, false, MatchOption};
ghost use Rattle.std.specs.List.{AllByRecursion};
ghost use Rattle.carried_books.specs.Carrying.{is_of_desk};

use message_records::Branch;
use posting_rules::{NumberRuns, RequestRow, branch_of_teller, number_key};

// Tests whether a kept request is of a teller of the desk, or its number was used.
fn is_of_desk(desk: Branch, used: &NumberRuns, row: &RequestRow) -> bool
    ensures { result ≡ is_of_desk desk used.now row.now }
{
    branch_of_teller(row.teller) == desk.get() || used.has(number_key(row.teller, row.number))
}

/// The first of these requests that is neither of a teller of the desk, the branch that brings balances forward, nor of a
/// number that was used; none where each is one of the two.
pub fn first_stray(desk: Branch, used: &NumberRuns, requests: &[RequestRow]) -> Option<RequestRow>
    ensures { MatchOption result
        (AllByRecursion (λ r. is_of_desk desk used.now r ≡ true) requests.now)
        (λ r. is_of_desk desk used.now r ≡ false) }
{
    for row in requests {
        if !is_of_desk(desk, used, row) {
            return Some(*row);
        }
    }
    None
}
