//! The request that a kept row came as, the reply that it got, and when it was posted.
ghost use Rattle.std.specs.Prelude.{◌≡◌, ◌≤◌, pos, true, IfNone, IfSome};
ghost use Rattle.message_records.specs.believed.Outcomes.{code_of};
ghost use Rattle.posting_rules.specs.believed.Kept.{is_kept};
ghost use Rattle.walked_rows.specs.KeptRows.{kept_item};
ghost use Rattle.walked_rows.specs.Came.{CameAs, GotReply, moment_of};
ghost use Rattle.walked_rows.specs.Requests.{IsFrom, IsKeptCode, IsReplyRow, IsRequestRow};

use crate::kept::KeptRequest;
use crate::postings::StoredPosting;
use message_records::{Cents, Outcome, Reply, Request, Whole};

// The number, unless it is out of the range.
fn whole<const LEAST: u64, const MOST: u64>(number: i64) -> Option<Whole<LEAST, MOST>>
    ensures some { IfSome result (λ n. (number ≡ pos n) × (LEAST ≤ n) × (n ≤ MOST)) }
    ensures none { IfNone result (IsFrom LEAST MOST number → ⊥) }
{
    if number < 0 {
        return None;
    }
    Whole::new(number as u64)
}

/// The request that a kept row came as; none where a number of it is out of its field's range.
pub fn request_of(row: &KeptRequest) -> Option<Request>
    ensures some { IfSome result (λ r. CameAs row.now r × IsRequestRow (kept_item row.now)) }
    ensures none { IfNone result (IsRequestRow (kept_item row.now) → ⊥) }
{
    let stored = &row.request;
    Request::new(
        whole(stored.account)?,
        whole(stored.teller)?,
        whole(stored.branch)?,
        whole(stored.number)?,
        Cents::new(stored.delta)?,
        row.reference,
    )
}

// The outcome with this code, of those that are kept.
fn outcome_with(code: i64) -> Option<Outcome>
    ensures some { IfSome result (λ outcome. (code ≡ pos (code_of outcome)) × (is_kept outcome ≡ true)) }
    ensures none { IfNone result (IsKeptCode code → ⊥) }
{
    match code {
        0 => Some(Outcome::Posted),
        12 => Some(Outcome::WrongBranch),
        13 => Some(Outcome::NoAccount),
        14 => Some(Outcome::OverLimit),
        17 => Some(Outcome::BelowFloor),
        _ => None,
    }
}

/// The reply that a kept row's request got; none where its outcome is none that is kept, or its balance is out of the
/// range.
pub fn reply_of(row: &KeptRequest, request: Request) -> Option<Reply>
    ensures some { IfSome result (λ y. GotReply row.now request y × IsReplyRow (kept_item row.now)) }
    ensures none { IfNone result (IsReplyRow (kept_item row.now) → ⊥) }
{
    let outcome = outcome_with(row.request.outcome)?;
    let balance = if outcome == Outcome::Posted {
        Some(Cents::new(row.request.balance)?)
    } else {
        None
    };
    Reply::new(outcome, Some(request), balance)
}

/// The moment of a posting, zero where there is none.
pub fn moment_of(posting: &Option<StoredPosting>) -> u64
    ensures { result ≡ moment_of posting.now }
{
    match posting {
        Some(posting) => posting.moment.get(),
        None => 0,
    }
}
