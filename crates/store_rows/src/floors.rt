//! The table of floors: the lowest balance that the accounts of a branch may have.
ghost use Rattle.std.specs.Prelude.{◌≤ℤ◌, Some, is_some, pos, IfOk, IfSome};
ghost use Rattle.posting_rules.specs.believed.Tables.{row_at, floor_key};
ghost use Rattle.posting_rules.specs.believed.Changes.{with_floor};
ghost use Rattle.store_rows.specs.Calls.{AddsRow, LooksUp};
ghost use Rattle.store_rows.specs.Lying.{FindsLying, FloorLies};
ghost use Rattle.store_rows.specs.believed.Readings.{read_floor};
ghost use Rattle.store_rows.specs.believed.Rules.{row_under};
ghost use Rattle.store_rows.specs.believed.BankTables.{floor as table};
ghost use Rattle.store_rows.specs.believed.SeveralRows.{given};
ghost use Rattle.store_rows.specs.believed.View.{floor_entry};
ghost use Rattle.store_rows.specs.declared.texts.TheConstants.{ADD_FLOOR as text};

use crate::columns::{lowest_at, whole_at};
use crate::fault::TableFault;
use crate::found::{FromRow, found};
use crate::statements::{put_balance, row_under};
use crate::texts::{ADD_FLOOR, GET_FLOOR};
use message_records::Branch;
use posting_rules::{FloorRow, LAST_BRANCH, Rule};
use sqlite::{Alter, Row, Transaction};

impl FromRow for FloorRow {
    ghost use Rattle.store_rows.specs.believed.Readings.{floor_of};

    ghost read = { floor_of };

    fn from_row(row: &Row) -> Result<Self, TableFault> {
        Ok(FloorRow {
            branch: whole_at(row, 0, Rule::Value, LAST_BRANCH)?,
            lowest: lowest_at(row, 1)?,
        })
    }
}

/// The floor of a branch, if it has a row.
pub fn find_floor<S: Alter>(
    tx: &mut Transaction<'_, S>,
    branch: Branch,
) -> Result<Option<FloorRow>, TableFault>
    ensures looks_up { LooksUp S.Store tx.old tx.new (λ rows. row_under rows.floors branch) read_floor result }
    ensures within { IfOk result (λ found. IfSome found (λ row. row.lowest ≤ℤ pos 0)) }
    // Whatever rows the file holds.
    ensures lies { FindsLying S.Store tx.old tx.new (FloorLies branch) result }
{
    found(row_under(tx, GET_FLOOR, branch.get()))
}

/// Adds a floor. `Damaged(Rule::Key)` is a branch that has one.
pub fn add_floor<S: Alter>(tx: &mut Transaction<'_, S>, row: FloorRow) -> Result<(), TableFault>
    ensures { AddsRow S.Store tx.old tx.new text.now (given (floor_entry row)) table
        (λ tables. is_some (row_at floor_key tables.floors row.branch)) (with_floor row.branch (Some row.lowest)) result }
{
    put_balance(tx, ADD_FLOOR, row.branch.get(), row.lowest)
}
