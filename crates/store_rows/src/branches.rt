//! The table of branches.
ghost use Rattle.std.specs.Prelude.{find, is_some, pos, IfOk, IfSome};
ghost use Rattle.sql_meanings.specs.Entries.{is_above};
ghost use Rattle.posting_rules.specs.believed.Damage.{IsSoundBranch};
ghost use Rattle.posting_rules.specs.believed.Tables.{row_at, branch_key};
ghost use Rattle.posting_rules.specs.believed.Changes.{with_branch};
ghost use Rattle.store_rows.specs.Calls.{AddsRow, LooksUp};
ghost use Rattle.store_rows.specs.Lying.{BranchLies, FindsLying};
ghost use Rattle.store_rows.specs.believed.Readings.{read_branch};
ghost use Rattle.store_rows.specs.believed.Rules.{row_under};
ghost use Rattle.store_rows.specs.believed.BankTables.{branch as table};
ghost use Rattle.store_rows.specs.believed.SeveralRows.{given};
ghost use Rattle.store_rows.specs.believed.View.{branch_entry};
ghost use Rattle.store_rows.specs.declared.texts.TheConstants.{ADD_BRANCH as text};

use crate::columns::{accounts_at, cents_at, whole_at};
use crate::fault::TableFault;
use crate::found::{FromRow, found};
use crate::statements::{put_in, row_under};
use crate::texts::{ADD_BRANCH, GET_BRANCH, NEXT_BRANCH};
use message_records::{Branch, MAX_BALANCE};
use posting_rules::{BranchRow, LAST_BRANCH, Rule};
use sqlite::{Alter, Row, Transaction, params};

impl FromRow for BranchRow {
    ghost use Rattle.store_rows.specs.believed.Readings.{branch_of};

    ghost read = { branch_of };

    fn from_row(row: &Row) -> Result<Self, TableFault> {
        Ok(BranchRow {
            branch: whole_at(row, 0, Rule::Value, LAST_BRANCH)?,
            accounts: accounts_at(row, 1)?,
            balance: cents_at(row, 2, Rule::Balance, MAX_BALANCE)?,
        })
    }
}

/// A branch, if it has a row.
pub fn find_branch<S: Alter>(
    tx: &mut Transaction<'_, S>,
    branch: Branch,
) -> Result<Option<BranchRow>, TableFault>
    ensures looks_up { LooksUp S.Store tx.old tx.new (λ rows. row_under rows.branches branch) read_branch result }
    // Whatever rows the file holds.
    ensures lies { FindsLying S.Store tx.old tx.new (BranchLies branch) result }
{
    found(row_under(tx, GET_BRANCH, branch.get()))
}

/// The branch with the least number above one, if there is such a row.
pub fn next_branch<S: Alter>(
    tx: &mut Transaction<'_, S>,
    after: u32,
) -> Result<Option<BranchRow>, TableFault>
    ensures looks_up { LooksUp S.Store tx.old tx.new (λ rows. find (is_above (pos after)) rows.branches) read_branch
        result }
    ensures within { IfOk result (λ found. IfSome found IsSoundBranch) }
{
    found(row_under(tx, NEXT_BRANCH, u64::from(after)))
}

/// Adds a branch. `Damaged(Rule::Key)` is a number that is taken.
pub fn add_branch<S: Alter>(tx: &mut Transaction<'_, S>, row: BranchRow) -> Result<(), TableFault>
    ensures { AddsRow S.Store tx.old tx.new text.now (given (branch_entry row)) table
        (λ tables. is_some (row_at branch_key tables.branches row.branch)) (with_branch row) result }
{
    let key = row.branch.get() as i64;
    let accounts = i64::from(row.accounts);
    let balance = row.balance.get();
    put_in(tx, ADD_BRANCH, params![key, accounts, balance])
}
