//! The table of references: what a decided request is referred to by.
ghost use Rattle.std.specs.Prelude.{Some, is_some, IfOk};
ghost use Rattle.sqlite.specs.Held.{state};
ghost use Rattle.sqlite.specs.State.{HasCleanDisk};
ghost use Rattle.posting_rules.specs.believed.Tables.{row_at, reference_key};
ghost use Rattle.posting_rules.specs.believed.Changes.{with_reference};
ghost use Rattle.store_rows.specs.Calls.{AddsRow, LooksUp};
ghost use Rattle.store_rows.specs.Lying.{PutsLying};
ghost use Rattle.store_rows.specs.believed.Readings.{read_reference};
ghost use Rattle.store_rows.specs.believed.Rules.{row_under};
ghost use Rattle.store_rows.specs.believed.BankTables.{reference as table};
ghost use Rattle.store_rows.specs.believed.SeveralRows.{given};
ghost use Rattle.store_rows.specs.believed.View.{reference_entry};
ghost use Rattle.store_rows.specs.declared.texts.TheConstants.{ADD_REFERENCE as statement};

use crate::columns::{reference_at, whole_at};
use crate::fault::TableFault;
use crate::found::{FromRow, found};
use crate::statements::{put_in, row_under};
use crate::texts::{ADD_REFERENCE, GET_REFERENCE};
use posting_rules::{MAX_DECIDED, Ordinal, ReferenceRow, Rule};
use sqlite::types::ValueRef;
use sqlite::{Alter, Row, Transaction};

impl FromRow for ReferenceRow {
    ghost use Rattle.store_rows.specs.believed.Readings.{reference_of};

    ghost read = { reference_of };

    fn from_row(row: &Row) -> Result<Self, TableFault> {
        Ok(ReferenceRow {
            ordinal: whole_at(row, 0, Rule::Value, MAX_DECIDED)?,
            reference: reference_at(row, 1)?,
        })
    }
}

/// The reference of a decided request, if it has a row.
pub fn find_reference<S: Alter>(
    tx: &mut Transaction<'_, S>,
    ordinal: Ordinal,
) -> Result<Option<ReferenceRow>, TableFault>
    ensures says { LooksUp S.Store tx.old tx.new (λ rows. row_under rows.references ordinal) read_reference result }
{
    found(row_under(tx, GET_REFERENCE, ordinal.get()))
}

/// Adds a reference. `Damaged(Rule::Key)` is an ordinal that has one.
pub fn add_reference<S: Alter>(
    tx: &mut Transaction<'_, S>,
    row: ReferenceRow,
) -> Result<(), TableFault>
    ensures adds { AddsRow S.Store tx.old tx.new statement.now (given (reference_entry row)) table
        (λ tables. is_some (row_at reference_key tables.references row.ordinal))
        (with_reference row.ordinal (Some row.reference)) result }
    // Whatever rows the file holds.
    ensures lies { PutsLying S.Store tx.old tx.new table result }
{
    let key = row.ordinal.get() as i64;
    let text = row.reference.text();
    put_in(
        tx,
        ADD_REFERENCE,
        &[ValueRef::Int(key), ValueRef::Text(text)],
    )
}
