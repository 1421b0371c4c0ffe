//! The rows that have a balance. Those of accounts and of tellers have nothing else beside their key, and are
//! read and added here; a branch's has a count too, and only its balance is written here.
ghost use Rattle.store_rows.specs.Calls.{AddsRow, LooksUp, SetsNumber};
ghost use Rattle.store_rows.specs.Holders.{entry_under, holder_of, holder_table};
ghost use Rattle.store_rows.specs.Holders.{holder_update, is_there, member_entry, member_insert};
ghost use Rattle.store_rows.specs.Holders.{with_balance, with_row};
ghost use Rattle.store_rows.specs.Lying.{BalanceLies, FindsLying, SetsBalance, SetsLying, holder_key};
ghost use Rattle.store_rows.specs.believed.Readings.{read_balance};
ghost use Rattle.store_rows.specs.believed.SeveralRows.{given, under};

use crate::fault::TableFault;
use crate::found::found;
use crate::statements::{put_balance, row_under, write_balance};
use crate::texts::{
    ADD_ACCOUNT, ADD_TELLER, GET_ACCOUNT, GET_TELLER, SET_ACCOUNT, SET_BRANCH, SET_TELLER,
};
use message_records::{Account, Branch, Cents, Teller};
use sqlite::{Alter, Error, Transaction};

/// Whose balance it is (TPC-B 1.2).
#[derive(Clone, Copy)]
pub enum Holder {
    Account(Account),
    Teller(Teller),
    Branch(Branch),
}

/// What belongs to a branch, and has a balance and nothing else.
#[derive(Clone, Copy)]
pub enum Member {
    Account(Account),
    Teller(Teller),
}

/// The balance of an account or a teller, if it has a row.
pub fn balance_of<S: Alter>(
    tx: &mut Transaction<'_, S>,
    member: Member,
) -> Result<Option<Cents>, TableFault>
    ensures looks_up { LooksUp S.Store tx.old tx.new (entry_under member) read_balance result }
    // Whatever rows the file holds.
    ensures lies { FindsLying S.Store tx.old tx.new (BalanceLies member) result }
{
    match member {
        Member::Account(account) => found(row_under(tx, GET_ACCOUNT, account.get())),
        Member::Teller(teller) => found(row_under(tx, GET_TELLER, teller.get())),
    }
}

/// Writes a balance, and reports whether its holder has a row.
pub fn set_balance<S: Alter>(
    tx: &mut Transaction<'_, S>,
    holder: Holder,
    balance: Cents,
) -> Result<bool, Error>
    ensures sets { SetsNumber S.Store tx.old tx.new (holder_table holder) (holder_update holder)
        (under (holder_key holder) balance) (is_there holder) (with_balance holder balance) result }
    // Whatever rows the file holds.
    ensures lies { SetsLying S.Store tx.old tx.new (holder_table holder) (holder_key holder)
        (SetsBalance holder balance) result }
{
    match holder {
        Holder::Account(account) => write_balance(tx, SET_ACCOUNT, account.get(), balance),
        Holder::Teller(teller) => write_balance(tx, SET_TELLER, teller.get(), balance),
        Holder::Branch(branch) => write_balance(tx, SET_BRANCH, branch.get(), balance),
    }
}

/// Adds an account or a teller. `Damaged(Rule::Key)` is a number that is taken.
pub fn add_member<S: Alter>(
    tx: &mut Transaction<'_, S>,
    member: Member,
    balance: Cents,
) -> Result<(), TableFault>
    ensures { AddsRow S.Store tx.old tx.new (member_insert member) (given (member_entry member balance))
        (holder_table (holder_of member)) (is_there (holder_of member))
        (with_row member balance) result }
{
    match member {
        Member::Account(account) => put_balance(tx, ADD_ACCOUNT, account.get(), balance),
        Member::Teller(teller) => put_balance(tx, ADD_TELLER, teller.get(), balance),
    }
}
