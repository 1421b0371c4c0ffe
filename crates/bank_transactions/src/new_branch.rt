//! A branch comes with its ten tellers and its accounts.
ghost use Rattle.std.specs.Prelude.{◌≡◌, ◌≤◌, ◌<◌, ◌+◌, ℕ, IfOk, IfSome, IsTrue, Some, None, false};
ghost use Rattle.sqlite.specs.Held.{state};
ghost use Rattle.sqlite.specs.State.{HasCleanDisk};
ghost use Rattle.posting_rules.specs.believed.Changes.{tables_opened, with_floor};
ghost use Rattle.posting_rules.specs.believed.Changes.{tables_with_branch};
ghost use Rattle.posting_rules.specs.believed.Commands.{opened_with};
ghost use Rattle.posting_rules.specs.believed.Counter.{opening_for};
ghost use Rattle.posting_rules.specs.believed.LookUps.{terms_in};
ghost use Rattle.posting_rules.specs.believed.Tables.{row_at, branch_key, floor_key};
ghost use Rattle.bank_transactions.specs.believed.Additions.{AddsBranch, AddsFloor, AddsOne, AddsRange};
ghost use Rattle.posting_rules.specs.believed.Damage.{IsUndamaged};
ghost use Rattle.bank_transactions.specs.Causes.{IsFirstDamaged};
ghost use Rattle.bank_transactions.specs.Doing.{Acts, Leaves, ReadsBy};
ghost use Rattle.bank_transactions.specs.Running.{Writes};
ghost use Rattle.bank_transactions.specs.believed.Answered.{OpensAll};
ghost use Rattle.posting_rules.specs.believed.AnyTables.{HasRoomToOpen, IsReadyToOpen};
ghost use Rattle.bank_transactions.specs.NewRows.{tables_staffed, with_new, with_new_rows, is_taken, last_of};
ghost use Rattle.bank_transactions.specs.believed.Stored.{AnswersStored};

use crate::floors::floor_at;
use crate::look_ups::branch_at;
use crate::strays::none_floored;
use message_records::{Account, Branch, Cents, Teller};
use posting_rules::{
    BranchRow, FloorRow, LAST_BRANCH, MAX_ACCOUNTS, Opening, TELLERS_PER_BRANCH, first_account,
    first_teller,
};
use sqlite::{Alter, Transaction};
use store_rows::{Member, TableFault, add_branch, add_floor, add_member};

/// The rows that come with a branch.
#[derive(Clone, Copy)]
pub(crate) enum NewRows {
    Tellers,
    Accounts,
}

// Adds a row under a number, with nothing on it.
fn add_new<S: Alter>(
    tx: &mut Transaction<'_, S>,
    kind: NewRows,
    number: u64,
) -> Result<(), TableFault>
    requires above { 1 ≤ number }
    requires below { number ≤ last_of kind }
    ensures writes { Writes S.Store (AddsOne kind number) tx.old tx.new (λ tables. is_taken kind number tables ≡ false)
        (with_new kind number) result }
    ensures leaves { Leaves S.Store tx.old tx.new (with_new kind number) result }
{
    let balance = Cents::zero();
    match kind {
        NewRows::Tellers => {
            let teller = Teller::new(number).unwrap();
            add_member(tx, Member::Teller(teller), balance)
        }
        NewRows::Accounts => {
            let account = Account::new(number).unwrap();
            add_member(tx, Member::Account(account), balance)
        }
    }
}

// Adds so many of them from this number on.
fn add_rows<S: Alter>(
    tx: &mut Transaction<'_, S>,
    kind: NewRows,
    first: u64,
    count: u64,
) -> Result<(), TableFault>
    requires above { 1 ≤ first }
    requires below { first + count ≤ last_of kind + 1 }
    ensures writes { Writes S.Store (AddsRange kind first count) tx.old tx.new
        (λ tables. (n : ℕ) → n < count → is_taken kind (first + n) (with_new_rows kind first n tables)
        ≡ false)
        (with_new_rows kind first count) result }
    ensures leaves { Leaves S.Store tx.old tx.new (with_new_rows kind first count) result }
{
    for place in 0..count {
        add_new(tx, kind, first + place)?;
    }
    Ok(())
}

// Adds the floor of a branch, where it is to have one.
fn add_its_floor<S: Alter>(
    tx: &mut Transaction<'_, S>,
    branch: Branch,
    floor: Option<Cents>,
) -> Result<(), TableFault>
    ensures writes { Writes S.Store (AddsFloor branch floor) tx.old tx.new
        (λ tables. IfSome floor (λ _. row_at floor_key tables.floors branch ≡ None)) (with_floor branch floor)
        result }
    ensures leaves { Leaves S.Store tx.old tx.new (with_floor branch floor) result }
{
    let Some(lowest) = floor else {
        return Ok(());
    };
    add_floor(tx, FloorRow { branch, lowest })
}

// Adds a branch with its tellers and its accounts.
fn add_branch_with_rows<S: Alter>(
    tx: &mut Transaction<'_, S>,
    branch: Branch,
    count: u32,
) -> Result<(), TableFault>
    requires branch { branch ≤ LAST_BRANCH }
    requires few { count ≤ MAX_ACCOUNTS }
    ensures writes { Writes S.Store (AddsBranch branch (opened_with count None)) tx.old tx.new
        (λ tables. HasRoomToOpen branch (opened_with count None) tables
        × (row_at branch_key tables.branches branch ≡ None))
        (λ tables. tables_staffed tables branch count) result }
    ensures leaves { Leaves S.Store tx.old tx.new (λ tables. tables_staffed tables branch count) result }
{
    let row = BranchRow {
        branch,
        accounts: count,
        balance: Cents::zero(),
    };
    add_branch(tx, row)?;
    let teller = first_teller(branch);
    add_rows(tx, NewRows::Tellers, teller, TELLERS_PER_BRANCH)?;
    let account = first_account(branch);
    add_rows(tx, NewRows::Accounts, account, u64::from(count))
}

// Adds a branch with all that belongs to it.
fn add_whole_branch<S: Alter>(
    tx: &mut Transaction<'_, S>,
    branch: Branch,
    count: u32,
    floor: Option<Cents>,
) -> Result<(), TableFault>
    requires branch { branch ≤ LAST_BRANCH }
    requires few { count ≤ MAX_ACCOUNTS }
    ensures writes { Writes S.Store (AddsBranch branch (opened_with count floor)) tx.old tx.new
        (λ tables. HasRoomToOpen branch (opened_with count floor) tables
        × (row_at branch_key tables.branches branch ≡ None))
        (λ tables. tables_opened tables branch (opened_with count floor)) result }
    ensures leaves { Leaves S.Store tx.old tx.new (λ tables. tables_opened tables branch (opened_with count floor)) result }
{
    add_branch_with_rows(tx, branch, count)?;
    add_its_floor(tx, branch, floor)
}

// What opening a branch again comes to, by what it was opened with.
fn opened_again(row: BranchRow, first: Option<Cents>, count: u32, floor: &Option<Cents>) -> Opening
    ensures { result ≡ opening_for (Some (opened_with row.accounts first)) (opened_with count floor.now) }
{
    if row.accounts == count && first == *floor {
        Opening::Already
    } else {
        Opening::Differs
    }
}

// What opening the branch comes to, by what it was opened with, if it was. One that wasn't has no floor yet.
fn opening_of<S: Alter>(
    tx: &mut Transaction<'_, S>,
    branch: Branch,
    count: u32,
    floor: &Option<Cents>,
) -> Result<Opening, TableFault>
    ensures says { ReadsBy (IsFirstDamaged S.Store) S.Store tx.old tx.new IsUndamaged
        (λ tables. opening_for (terms_in tables branch) (opened_with count floor.now)) result }
    ensures above { 1 ≤ branch }
    ensures stored { IfOk result (λ opening. HasCleanDisk (state S.Store tx.new.conn.now)
        → AnswersStored (state S.Store tx.old.conn.now).now branch (opened_with count floor.now) opening) }
{
    let Some(row) = branch_at(tx, branch.get())? else {
        none_floored(tx, branch)?;
        return Ok(Opening::Opened);
    };
    let first = floor_at(tx, branch.get())?;
    Ok(opened_again(row, first, count, floor))
}

/// Looks the branch up, and adds it where it isn't open.
pub(crate) fn open_inside<S: Alter>(
    tx: &mut Transaction<'_, S>,
    branch: Branch,
    count: u32,
    floor: Option<Cents>,
) -> Result<Opening, TableFault>
    requires branch { branch ≤ LAST_BRANCH }
    requires few { count ≤ MAX_ACCOUNTS }
    ensures acts { Acts S.Store (AddsBranch branch (opened_with count floor)) tx.old tx.new
        (IsReadyToOpen branch (opened_with count floor))
        (λ tables. tables_with_branch tables branch (opened_with count floor))
        (λ tables. opening_for (terms_in tables branch) (opened_with count floor)) result }
    ensures stored { IfOk result (λ opening. HasCleanDisk (state S.Store tx.new.conn.now)
        → IsTrue (state S.Store tx.old.conn.now).in_transaction
        → OpensAll (state S.Store tx.old.conn.now).now (state S.Store tx.new.conn.now).now branch
        (opened_with count floor) opening) }
{
    match opening_of(tx, branch, count, &floor)? {
        Opening::Opened => {
            add_whole_branch(tx, branch, count, floor)?;
            Ok(Opening::Opened)
        }
        opening => Ok(opening),
    }
}
