//! The row of the bank, where it is the only row of `meta`.
ghost use Rattle.std.specs.Prelude.{List, IfErr, IfOk};
ghost use Rattle.sqlite.specs.Held.{state};
ghost use Rattle.sqlite.specs.Order.{column};
ghost use Rattle.sqlite.specs.State.{HasCleanDisk};
ghost use Rattle.sqlite.specs.Term.{Term};
ghost use Rattle.sql_meanings.specs.believed.Entries.{Entry};
ghost use Rattle.store_rows.specs.believed.Failures.{HasFailed};
ghost use Rattle.walked_rows.specs.Leaving.{OnlyReads};
ghost use Rattle.walked_rows.specs.OnlyMeta.{TakesNumber, TakesOnly, TakesRow, TellsOnly, meta_with};
ghost use Rattle.walked_rows.specs.Rows.{HasStoredRows};

use crate::statements::rows_shown;
use sqlite::types::ValueRef;
use sqlite::{Alter, Connection, Error, Row, params};
use store_rows::{METAS_FROM, StoredMeta};

// The number in a column, if it is one.
fn number_in(row: &Row, at: usize) -> Option<i64>
    ensures { TakesNumber (column row.now at) result }
{
    match row.get_ref(at) {
        Ok(ValueRef::Int(value)) => Some(value),
        _ => None,
    }
}

// What a row of `meta` holds, if it is that of the bank.
fn bank_row(row: &Row) -> Option<StoredMeta>
    ensures { TakesRow row.now result }
{
    let id = number_in(row, 0)?;
    let version = number_in(row, 1)?;
    let decided = number_in(row, 2)?;
    if id != 1 {
        return None;
    }
    Some(StoredMeta { version, decided })
}

// What the row of the bank holds, if it is the only one that was found.
fn only_row(found: &[Row]) -> Option<StoredMeta>
    ensures { TakesOnly found.now result }
{
    match found {
        [row] => bank_row(row),
        _ => None,
    }
}

/// What the row of the bank holds, if it is the only row of `meta`, whatever CHECK that has.
///
/// # Errors
///
/// A call of `sqlite` failed with this error.
pub fn only_meta<S: Alter>(conn: &mut Connection<S>) -> Result<Option<StoredMeta>, Error>
    ensures answers { IfOk result (λ found. HasCleanDisk (state S.Store conn.new)
        → (checks : List Term) (rows : List Entry)
        → HasStoredRows (state S.Store conn.old).now (meta_with checks) rows → TellsOnly rows found) }
    ensures failed { HasCleanDisk (state S.Store conn.new)
        → IfErr result (HasFailed (state S.Store conn.old) (state S.Store conn.new)) }
    ensures reads { OnlyReads S.Store conn.old conn.new result }
{
    let found = rows_shown(conn, METAS_FROM, params![i64::MIN])?;
    Ok(only_row(&found))
}
