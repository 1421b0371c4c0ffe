//! Which account a request names (TPC-B 5.3, the 85/15 rule).
ghost use Rattle.std.specs.Prelude.{◌≡◌, ◌≢◌, ◌<◌, ◌≤◌, ◌+◌, ◌*◌, ◌^◌, ◌-◌, Contains, get_or, length};
ghost use Rattle.branch_loader.specs.Plans.{IsPlan};
ghost use Rattle.load_driver.specs.believed.Draw.{draw};
ghost use Rattle.load_driver.specs.believed.Requests.{account_by, count_of, is_home, remote_accounts};
ghost use Rattle.load_driver.specs.OfPlan.{IsAccountFor};

use crate::draws::draw;
use branch_loader::PlanRow;
use message_records::Branch;
use posting_core::{LAST_BRANCH, first_account};

// How many accounts the rows have together.
fn count_of(rows: &[PlanRow]) -> u64
    requires { length rows.now ≤ LAST_BRANCH + 1 }
    ensures { result ≡ count_of rows.now }
{
    rows.iter().map(|row| u64::from(row.1)).sum()
}

// The account at this place, from 0 on, among those of the other branches in their order, without a list of
// them. It is 0 beyond the last, which no draw reaches.
fn remote_account(rows: &[PlanRow], branch: Branch, place: u64) -> u64
    ensures { result ≡ get_or (remote_accounts branch rows.now) place 0 }
{
    let mut left = place;
    for row in rows {
        let (other, accounts, _) = *row;
        let accounts = u64::from(accounts);
        if other.get() != branch.get() {
            if left < accounts {
                return first_account(other) + left;
            }
            left -= accounts;
        }
    }
    0
}

// The account by the words for X, of 0..=99, and for the account itself: one of the teller's branch if X is
// below 85 or the plan has one branch, and else one of the others.
pub(crate) fn account_by(rows: &[PlanRow], home: PlanRow, choice: u64, pick: u64) -> u64
    requires plan { IsPlan rows.now }
    requires home { Contains rows.now home }
    ensures value { result ≡ account_by rows.now home choice pick }
    ensures of_plan { IsAccountFor rows.now home (is_home rows.now (draw choice 100)) result }
{
    let (branch, accounts, _) = home;
    let accounts = u64::from(accounts);
    let x = draw(choice, 100);
    if x < 85 || rows.len() == 1 {
        first_account(branch) + draw(pick, accounts)
    } else {
        let place = draw(pick, count_of(rows) - accounts);
        remote_account(rows, branch, place)
    }
}
