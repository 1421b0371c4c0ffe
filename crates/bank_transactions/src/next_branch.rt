//! The open branches of the tables, one after another.
ghost use Rattle.std.specs.Prelude.{◌≡◌, OnOk, IfOk, IfSome, None, false};
ghost use Rattle.sqlite.specs.State.{HasCleanDisk, Survives};
ghost use Rattle.sqlite.specs.Held.{state};
ghost use Rattle.posting_rules.specs.Branches.{IsLineAbove, line_of};
ghost use Rattle.posting_rules.specs.Sound.{AreSound};
ghost use Rattle.store_rows.specs.Columns.{branch_above};
ghost use Rattle.bank_transactions.specs.Doing.{Consults, Reads};
ghost use Rattle.bank_transactions.specs.Stored.{IsStoredNext, IsStoredRow};
ghost use Rattle.bank_transactions.specs.NextBranch.{line_above};
ghost use Rattle.bank_transactions.specs.Undone.{UndoesFaults};

use crate::floors::floor_at;
use crate::transactions::{begin, finish};
use posting_rules::{BranchLine, BranchRow, Rule};
use sqlite::{Alter, Connection, Transaction};
use store_rows::{TableFault, next_branch};

// The row of the open branch with the least number above this one, none where no such branch is open.
fn row_after<S: Alter>(
    tx: &mut Transaction<'_, S>,
    after: u32,
) -> Result<Option<BranchRow>, TableFault>
    ensures says { Reads S.Store tx.old tx.new (λ tables. branch_above tables after) result }
    ensures within { IfOk result (λ next. IfSome next (λ row. IsLineAbove after (line_of None row))) }
    ensures stored { IfOk result (λ next. HasCleanDisk (state S.Store tx.new.conn.now)
        → IsStoredRow (state S.Store tx.old.conn.now).now after next) }
{
    let Some(row) = next_branch(tx, after)? else {
        return Ok(None);
    };
    if row.branch.get() <= u64::from(after) {
        return Err(TableFault::Damaged(Rule::Value));
    }
    Ok(Some(row))
}

// The open branch with the least number above this one, with its floor, none where no such branch is open.
fn branch_after<S: Alter>(
    tx: &mut Transaction<'_, S>,
    after: u32,
) -> Result<Option<BranchLine>, TableFault>
    ensures says { Reads S.Store tx.old tx.new (λ tables. line_above tables after) result }
    ensures within { IfOk result (λ next. IfSome next (λ line. IsLineAbove after line)) }
    ensures stored { IfOk result (λ next. HasCleanDisk (state S.Store tx.new.conn.now)
        → IsStoredNext (state S.Store tx.old.conn.now).now after next) }
{
    let Some(row) = row_after(tx, after)? else {
        return Ok(None);
    };
    let floor = floor_at(tx, row.branch.get())?;
    Ok(Some(BranchLine {
        branch: row.branch,
        accounts: row.accounts,
        balance: row.balance,
        floor,
    }))
}

/// Looks up the open branch with the least number above this one, none where no such branch is open. One
/// transaction, which changes nothing.
///
/// # Errors
///
/// `TableFault::Sqlite` where a call of `sqlite` failed, and `TableFault::Damaged` with the rule that the
/// stored rows break.
pub fn read_next_branch<S: Alter>(
    conn: &mut Connection<S>,
    after: u32,
) -> Result<Option<BranchLine>, TableFault>
    requires { conn.old.in_transaction ≡ false }
    ensures says { Consults S.Store conn.old conn.new AreSound (λ tables. line_above tables after) result }
    ensures within { IfOk result (λ next. IfSome next (λ line. IsLineAbove after line)) }
    // Whatever rows the file holds.
    ensures stored { IfOk result (λ next. HasCleanDisk (state S.Store conn.new)
        → IsStoredNext (state S.Store conn.old).now after next) }
    ensures still { OnOk result (HasCleanDisk (state S.Store conn.new)
        → (state S.Store conn.new).now ≡ (state S.Store conn.old).now) }
    // A crash leaves what it could leave before, or what the file held.
    ensures left { Survives (state S.Store conn.old) (state S.Store conn.new)
        (λ left. left ≡ (state S.Store conn.old).now.trees) }
    ensures undone { UndoesFaults S.Store conn.old conn.new result }
{
    let mut tx = begin(conn);
    let next = branch_after(&mut tx, after);
    finish(tx, next)
}
