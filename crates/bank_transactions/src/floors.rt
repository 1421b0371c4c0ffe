//! The floors of branches, each looked up beside what it binds.
ghost use Rattle.std.specs.Prelude.{◌≡◌, ◌≤ℤ◌, pos, IfOk, IfSome, OnOk};
ghost use Rattle.posting_rules.specs.believed.LookUps.{account_balance_in, floor_in};
ghost use Rattle.posting_rules.specs.believed.Numbering.{branch_of_account};
ghost use Rattle.sqlite.specs.Held.{state};
ghost use Rattle.sqlite.specs.State.{HasCleanDisk};
ghost use Rattle.bank_transactions.specs.Doing.{Reads};
ghost use Rattle.bank_transactions.specs.Floors.{falls_below};
ghost use Rattle.bank_transactions.specs.Memory.{Remembers};
ghost use Rattle.store_rows.specs.believed.Rules.{OfRows};
ghost use Rattle.bank_transactions.specs.believed.Stored.{HoldsAccount, IsStoredFloor};

use crate::Memory;
use crate::known::known_floor_row;
use crate::look_ups::open_balance;
use message_records::{Account, Branch, Cents};
use posting_rules::{Rule, branch_of_account};
use sqlite::{Alter, Transaction};
use store_rows::TableFault;

/// The floor of a branch's accounts, none where they have none. The tables are asked where it isn't remembered.
pub(crate) fn known_floor<S: Alter>(
    tx: &mut Transaction<'_, S>,
    memory: &mut Memory,
    number: u64,
) -> Result<Option<Cents>, TableFault>
    requires { ∥ Remembers S.Store tx.old.conn.now memory.old ∥₁ }
    ensures within { IfOk result (λ floor. IfSome floor (λ z. z ≤ℤ pos 0)) }
    ensures says { Reads S.Store tx.old tx.new (λ tables. floor_in tables number) result }
    ensures stored { IfOk result (λ floor. HasCleanDisk (state S.Store tx.new.conn.now)
        → IsStoredFloor (state S.Store tx.old.conn.now).now number floor) }
    ensures remembers { OnOk result (∥ Remembers S.Store tx.new.conn.now memory.new ∥₁) }
{
    let Some(branch) = Branch::new(number) else {
        return Ok(None);
    };
    let Some(row) = known_floor_row(tx, memory, branch)? else {
        return Ok(None);
    };
    Ok(Some(row.lowest))
}

/// The floor of a branch's accounts, none where they have none.
pub(crate) fn floor_at<S: Alter>(
    tx: &mut Transaction<'_, S>,
    number: u64,
) -> Result<Option<Cents>, TableFault>
    ensures within { IfOk result (λ floor. IfSome floor (λ z. z ≤ℤ pos 0)) }
    ensures says { Reads S.Store tx.old tx.new (λ tables. floor_in tables number) result }
    ensures stored { IfOk result (λ floor. HasCleanDisk (state S.Store tx.new.conn.now)
        → IsStoredFloor (state S.Store tx.old.conn.now).now number floor) }
{
    known_floor(tx, &mut Memory::new(), number)
}

/// Whether there is a balance and a floor, and the balance is below the floor.
pub(crate) fn is_below(balance: &Option<Cents>, floor: &Option<Cents>) -> bool
    ensures { result ≡ falls_below balance.now floor.now }
{
    match (balance, floor) {
        (Some(balance), Some(floor)) => balance.get() < floor.get(),
        _ => false,
    }
}

/// The balance of an account, none where it isn't open, and the floor of its branch, none where it has none.
pub(crate) fn balance_and_floor<S: Alter>(
    tx: &mut Transaction<'_, S>,
    account: Account,
) -> Result<(Option<Cents>, Option<Cents>), TableFault>
    ensures says { Reads S.Store tx.old tx.new
        (λ tables. (account_balance_in tables account, floor_in tables (branch_of_account account))) result }
    ensures stored { IfOk result (λ both. HasCleanDisk (state S.Store tx.new.conn.now)
        → OfRows (λ rows. HoldsAccount rows account both.0) (state S.Store tx.old.conn.now).now
        × IsStoredFloor (state S.Store tx.old.conn.now).now (branch_of_account account) both.1) }
{
    let balance = open_balance(tx, account)?;
    let floor = floor_at(tx, branch_of_account(account))?;
    if is_below(&balance, &floor) {
        return Err(TableFault::Damaged(Rule::Balance));
    }
    Ok((balance, floor))
}
