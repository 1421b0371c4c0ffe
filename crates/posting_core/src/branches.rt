//! The rows of branches and of their floors in vectors.
ghost use Rattle.std.specs.Prelude.{◌≡◌, ◌<◌, ◌≤ℤ◌, ◌++◌, ◌∷◌, [], List, pos, All, IfSome, vec_len, vec_capacity};
ghost use Rattle.std.specs.Option.{option_map};
ghost use Rattle.posting_rules.specs.declared.rows.BranchRow.{BranchRow};
ghost use Rattle.posting_rules.specs.Branches.{IsAtMostZero, IsNextIn};
ghost use Rattle.posting_rules.specs.believed.Tables.{branch_key, floor_key, row_at};
ghost use Rattle.posting_rules.specs.believed.LookUps.{lowest_of};
ghost use Rattle.posting_rules.specs.believed.LookUps.{count_of_branch};
ghost use Rattle.posting_core.specs.Appended.{floor_after};

use crate::walking::put;
use message_records::{Branch, Cents};
use posting_rules::{BranchRow, FloorRow};

/// How many accounts a branch is open with.
pub(crate) fn count_at(rows: &[BranchRow], number: u64) -> Option<u32>
    ensures { result ≡ option_map count_of_branch (row_at branch_key rows.now number) }
{
    rows.iter()
        .find(|row| row.branch.get() == number)
        .map(|row| row.accounts)
}

/// The floor of a branch's accounts.
pub(crate) fn floor_at(rows: &[FloorRow], number: u64) -> Option<Cents>
    ensures value { result ≡ option_map lowest_of (row_at floor_key rows.now number) }
    ensures within { All IsAtMostZero rows.now → IfSome result (λ z. z ≤ℤ pos 0) }
{
    rows.iter()
        .find(|row| row.branch.get() == number)
        .map(|row| row.lowest)
}

/// Puts the floor of a branch after the others, for which there is room.
pub(crate) fn put_floor(rows: &mut Vec<FloorRow>, branch: Branch, floor: Option<Cents>)
    requires room { vec_len rows.old < vec_capacity rows.old }
    ensures items { rows.new.items ≡ floor_after branch floor rows.old.items }
{
    if let Some(lowest) = floor {
        put(rows, FloorRow { branch, lowest });
    }
}

// The next row above a number, where one more row is looked at.
fn nearer(next: Option<BranchRow>, row: BranchRow, after: u32) -> Option<BranchRow>
    ensures { (rows : List BranchRow) → IsNextIn rows after next → IsNextIn (rows ++ row ∷ []) after result }
{
    if row.branch.get() <= u64::from(after) {
        return next;
    }
    let Some(found) = &next else {
        return Some(row);
    };
    if row.branch.get() < found.branch.get() {
        return Some(row);
    }
    next
}

/// The row of the branch with the least number above this one, none where there is no such row.
pub(crate) fn next_at(rows: &[BranchRow], after: u32) -> Option<BranchRow>
    ensures { IsNextIn rows.now after result }
{
    let mut next = None;
    for row in rows {
        next = nearer(next, *row, after);
    }
    next
}
