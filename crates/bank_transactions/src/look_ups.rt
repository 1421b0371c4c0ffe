//! What is looked up in the tables. Rows that belong together are read together, and reported as damage where
//! they differ.
ghost use Rattle.std.specs.Bool.{Decides};
ghost use Rattle.std.specs.Prelude.{◌≡◌, ◌≤◌, IfOk, IfSome, OnOk};
ghost use Rattle.posting_rules.specs.believed.Numbering.{branch_of_account, place_of_account};
ghost use Rattle.posting_rules.specs.believed.LookUps.{teller_balances_in, account_balance_in, kept_in, reference_in};
ghost use Rattle.posting_rules.specs.believed.Tables.{row_at, branch_key};
ghost use Rattle.sqlite.specs.Held.{state};
ghost use Rattle.sqlite.specs.State.{HasCleanDisk};
ghost use Rattle.store_rows.specs.Lying.{CountLies, FindsLying};
ghost use Rattle.store_rows.specs.believed.Readings.{read_branch};
ghost use Rattle.store_rows.specs.believed.Rules.{branch_under, row_under, OfRows};
ghost use Rattle.store_rows.specs.believed.Stored.{FindsStored};
ghost use Rattle.bank_transactions.specs.Doing.{Reads};
ghost use Rattle.bank_transactions.specs.Filling.{IsRowOf};
ghost use Rattle.bank_transactions.specs.Memory.{Remembers};
ghost use Rattle.bank_transactions.specs.believed.Stored.{HoldsDecided, HoldsKept, HoldsReference, IsStoredBalance};
ghost use Rattle.bank_transactions.specs.believed.Stored.{IsStoredTeller};

use crate::Memory;
use crate::known::known_branch_row;
use message_records::{Account, Branch, Cents, Number, Reference, Teller};
use posting_rules::{
    BranchRow, Kept, MAX_DECIDED, Ordinal, Rule, branch_of_account, branch_of_teller,
    place_of_account,
};
use sqlite::{Alter, Transaction};
use store_rows::{Member, TableFault, balance_of, find_reference, find_request, read_meta};

// Whether the row is that of the branch, if there is one.
fn is_its(row: &Option<BranchRow>, branch: Branch) -> bool
    ensures { Decides result (IfSome row.now (λ r. r.branch ≡ branch)) }
{
    match row {
        Some(row) => row.branch.get() == branch.get(),
        None => true,
    }
}

// The row of a branch, if it has one. A table that no bank made may show another branch's.
fn branch_row<S: Alter>(
    tx: &mut Transaction<'_, S>,
    memory: &mut Memory,
    branch: Branch,
) -> Result<Option<BranchRow>, TableFault>
    requires { ∥ Remembers S.Store tx.old.conn.now memory.old ∥₁ }
    ensures says { Reads S.Store tx.old tx.new (λ tables. row_at branch_key tables.branches branch) result }
    ensures stored { HasCleanDisk (state S.Store tx.new.conn.now)
        → OfRows (λ rows. FindsStored (row_under rows.branches branch) read_branch result)
        (state S.Store tx.old.conn.now).now }
    ensures own { IfOk result (λ row. IfSome row (λ r. r.branch ≡ branch)) }
    ensures remembers { OnOk result (∥ Remembers S.Store tx.new.conn.now memory.new ∥₁) }
{
    let row = known_branch_row(tx, memory, branch)?;
    if !is_its(&row, branch) {
        return Err(TableFault::Damaged(Rule::Value));
    }
    Ok(row)
}

/// The branch under a number, none where it isn't open. The tables are asked where it isn't remembered.
pub(crate) fn known_branch<S: Alter>(
    tx: &mut Transaction<'_, S>,
    memory: &mut Memory,
    number: u64,
) -> Result<Option<BranchRow>, TableFault>
    requires { ∥ Remembers S.Store tx.old.conn.now memory.old ∥₁ }
    ensures says { Reads S.Store tx.old tx.new (λ tables. row_at branch_key tables.branches number) result }
    ensures stored { HasCleanDisk (state S.Store tx.new.conn.now)
        → OfRows (λ rows. FindsStored (branch_under rows number) read_branch result)
        (state S.Store tx.old.conn.now).now }
    ensures own { IfOk result (λ row. IfSome row (IsRowOf number)) }
    ensures remembers { OnOk result (∥ Remembers S.Store tx.new.conn.now memory.new ∥₁) }
{
    match Branch::new(number) {
        Some(branch) => branch_row(tx, memory, branch),
        None => Ok(None),
    }
}

/// The branch under a number, none where it isn't open.
pub fn branch_at<S: Alter>(
    tx: &mut Transaction<'_, S>,
    number: u64,
) -> Result<Option<BranchRow>, TableFault>
    ensures says { Reads S.Store tx.old tx.new (λ tables. row_at branch_key tables.branches number) result }
    ensures stored { HasCleanDisk (state S.Store tx.new.conn.now)
        → OfRows (λ rows. FindsStored (branch_under rows number) read_branch result)
        (state S.Store tx.old.conn.now).now }
    ensures own { IfOk result (λ row. IfSome row (IsRowOf number)) }
{
    known_branch(tx, &mut Memory::new(), number)
}

/// The balances of a teller and of its branch, none where the teller isn't open.
pub fn teller_balances<S: Alter>(
    tx: &mut Transaction<'_, S>,
    teller: Teller,
) -> Result<Option<(Cents, Cents)>, TableFault>
    ensures says { Reads S.Store tx.old tx.new (λ tables. teller_balances_in tables teller) result }
    ensures stored { IfOk result (λ balances. HasCleanDisk (state S.Store tx.new.conn.now)
        → IsStoredTeller (state S.Store tx.old.conn.now).now teller balances) }
{
    let balance = balance_of(tx, Member::Teller(teller))?;
    let branch = branch_at(tx, branch_of_teller(teller))?;
    match (balance, branch) {
        (Some(balance), Some(branch)) => Ok(Some((balance, branch.balance))),
        (None, None) => Ok(None),
        _ => Err(TableFault::Damaged(Rule::Teller)),
    }
}

/// The balance of an account, none where it isn't open.
pub fn open_balance<S: Alter>(
    tx: &mut Transaction<'_, S>,
    account: Account,
) -> Result<Option<Cents>, TableFault>
    ensures says { Reads S.Store tx.old tx.new (λ tables. account_balance_in tables account) result }
    ensures stored { IfOk result (λ balance. HasCleanDisk (state S.Store tx.new.conn.now)
        → IsStoredBalance (state S.Store tx.old.conn.now).now account balance) }
{
    let balance = balance_of(tx, Member::Account(account))?;
    let branch = branch_at(tx, branch_of_account(account))?;
    let is_open = match branch {
        Some(branch) => place_of_account(account) <= u64::from(branch.accounts),
        None => false,
    };
    if balance.is_some() != is_open {
        return Err(TableFault::Damaged(Rule::Account));
    }
    Ok(balance)
}

// The reference of the decided request with this ordinal, none where it has none.
fn reference_at<S: Alter>(
    tx: &mut Transaction<'_, S>,
    ordinal: Ordinal,
) -> Result<Option<Reference>, TableFault>
    ensures says { Reads S.Store tx.old tx.new (λ tables. reference_in tables.references ordinal) result }
    ensures stored { IfOk result (λ reference. HasCleanDisk (state S.Store tx.new.conn.now)
        → OfRows (λ rows. HoldsReference rows ordinal reference) (state S.Store tx.old.conn.now).now) }
{
    let Some(row) = find_reference(tx, ordinal)? else {
        return Ok(None);
    };
    Ok(Some(row.reference))
}

/// The request that is kept under a teller and a number, with its reference.
pub fn kept_request<S: Alter>(
    tx: &mut Transaction<'_, S>,
    teller: Teller,
    number: Number,
) -> Result<Option<Kept>, TableFault>
    ensures says { Reads S.Store tx.old tx.new
        (λ tables. kept_in tables.requests tables.references teller number) result }
    ensures stored { IfOk result (λ kept. HasCleanDisk (state S.Store tx.new.conn.now)
        → OfRows (λ rows. HoldsKept rows teller number kept) (state S.Store tx.old.conn.now).now) }
{
    let Some(row) = find_request(tx, teller, number)? else {
        return Ok(None);
    };
    let reference = reference_at(tx, row.ordinal)?;
    Ok(Some(row.decision.kept_with(reference)))
}

/// How many requests are decided.
pub fn decided<S: Alter>(tx: &mut Transaction<'_, S>) -> Result<u64, TableFault>
    ensures within { IfOk result (λ decided. decided ≤ MAX_DECIDED) }
    ensures says { Reads S.Store tx.old tx.new (λ tables. tables.decided) result }
    ensures stored { IfOk result (λ decided. HasCleanDisk (state S.Store tx.new.conn.now)
        → OfRows (λ rows. HoldsDecided rows decided) (state S.Store tx.old.conn.now).now) }
    // Whatever rows the file holds.
    ensures lies { FindsLying S.Store tx.old tx.new CountLies result }
{
    let Some(meta) = read_meta(tx)? else {
        return Err(TableFault::Damaged(Rule::Meta));
    };
    if meta.decided < 0 || meta.decided as u64 > MAX_DECIDED {
        return Err(TableFault::Damaged(Rule::Meta));
    }
    Ok(meta.decided as u64)
}
