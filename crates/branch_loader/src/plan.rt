//! The plan: which branches, how many accounts each is to have, and their floor.
ghost use Rattle.std.specs.Prelude.{◌≡◌, ◌≤◌, ◌+◌, List, length};
ghost use Rattle.branch_loader.specs.believed.Plans.{Row};
ghost use Rattle.branch_loader.specs.Plans.{IsPlan, floor_within, names, plan_of_list, row_of, row_of_listed};

use crate::fault::PlanFault;
use message_records::{Branch, Cents};
use posting_core::{LAST_BRANCH, MAX_ACCOUNTS};
use std::marker::Model;

/// A row of a plan: a branch, its count of accounts, and their floor, if they have one.
pub type PlanRow = (Branch, u32, Option<Cents>);

// Whether one of the rows names the branch.
fn names(rows: &[PlanRow], branch: u64) -> bool
    ensures { result ≡ names branch rows.now }
{
    rows.iter().any(|row| branch == row.0.get())
}

// The row of a branch, a count and a floor, where they are there and no row before it names the branch.
pub(crate) fn row_of(
    before: &[PlanRow],
    branch: Option<Branch>,
    accounts: Option<u32>,
    floor: Option<Option<Cents>>,
) -> Result<PlanRow, PlanFault>
    requires { length before.now ≤ LAST_BRANCH + 1 }
    ensures { result ≡ row_of before.now branch accounts floor }
{
    let row = before.len() as u64 + 1;
    let Some(branch) = branch else {
        return Err(PlanFault::Branch(row));
    };
    let Some(accounts) = accounts else {
        return Err(PlanFault::Accounts(row));
    };
    let Some(floor) = floor else {
        return Err(PlanFault::Floor(row));
    };
    if names(before, branch.get()) {
        return Err(PlanFault::Twice(row));
    }
    Ok((branch, accounts, floor))
}

// A floor that a branch can have: none, or one that is at most zero.
fn floor_within(floor: Option<Cents>) -> Option<Option<Cents>>
    ensures { result ≡ floor_within floor }
{
    match floor {
        Some(lowest) => {
            if lowest.get() <= 0 {
                Some(Some(lowest))
            } else {
                None
            }
        }
        None => Some(None),
    }
}

// The row of a list, where its numbers are in range and no row before it names the branch.
fn row_of_listed(
    before: &[PlanRow],
    branch: Branch,
    accounts: u32,
    floor: Option<Cents>,
) -> Result<PlanRow, PlanFault>
    requires { length before.now ≤ LAST_BRANCH + 1 }
    ensures { result ≡ row_of_listed before.now (branch, accounts, floor) }
{
    let in_plan = branch.get() <= LAST_BRANCH;
    let can_have = accounts >= 1 && accounts <= MAX_ACCOUNTS;
    row_of(
        before,
        if in_plan { Some(branch) } else { None },
        if can_have { Some(accounts) } else { None },
        floor_within(floor),
    )
}

/// Branches of 1..=`LAST_BRANCH`, each named once, with counts of accounts of 1..=`MAX_ACCOUNTS`, and with
/// floors of their accounts in cents, at most zero, or none, in an order.
#[derive(Drop)]
pub struct Plan {
    rows: Vec<PlanRow>,
}

impl Model for Plan {
    ghost Value = { List Row };

    ghost view = { λ p. p.rows.items };

    ghost invariant = { λ p. IsPlan p.rows.items };
}

impl Plan {
    // The plan of rows that are one.
    pub(crate) fn new(rows: Vec<PlanRow>) -> Plan
        requires { IsPlan rows.items }
        ensures { result ≡ rows.items }
    {
        Plan { rows }
    }

    /// The plan of a list of branches, counts and floors, or the list's first fault: `Branch`, `Accounts`,
    /// `Floor` or `Twice`, with the row, counted from 1. It takes no memory.
    pub fn from_list(rows: Vec<PlanRow>) -> Result<Plan, PlanFault>
        ensures { result ≡ plan_of_list rows.items }
    {
        for i in 0..rows.len() {
            let (branch, accounts, floor) = rows[i];
            row_of_listed(&rows[..i], branch, accounts, floor)?;
        }
        Ok(Plan { rows })
    }

    /// The branches, their counts of accounts and the floors of these, in the plan's order.
    #[must_use]
    pub fn rows(&self) -> &[PlanRow]
        ensures rows { result.now ≡ self.now }
        ensures plan { IsPlan result.now }
    {
        self.rows.as_slice()
    }
}
