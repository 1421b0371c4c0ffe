//! The rows of a table that are beside those that were read ahead of another one.
ghost use Rattle.std.specs.Prelude.{◌≡◌, ◌<ℤ◌, ◌++◌, ◌∷◌, List, Ok, pos, map, take, option_map, IfErr, IfOk, IfSome};
ghost use Rattle.std.specs.Prelude.{MatchResult};
ghost use Rattle.sqlite.specs.State.{HasCleanDisk};
ghost use Rattle.sqlite.specs.Held.{state};
ghost use Rattle.sqlite.specs.Order.{Row as StoredColumns};
ghost use Rattle.sql_meanings.specs.believed.Entries.{Entry, Rise};
ghost use Rattle.sql_meanings.specs.StatementAnswers.{IsStoreError};
ghost use Rattle.sql_meanings.specs.believed.Tables.{width_of};
ghost use Rattle.store_rows.specs.believed.SeveralRows.{given};
ghost use Rattle.walked_rows.specs.Causes.{HasItsCause, IsOfRows};
ghost use Rattle.walked_rows.specs.Leaving.{OnlyReads};
ghost use Rattle.walked_rows.specs.Pairs.{BreaksUnder, row_under};
ghost use Rattle.walked_rows.specs.StepOutcomes.{BreaksBy};
ghost use Rattle.store_rows.specs.View.{HoldsRows};
ghost use Rattle.walked_rows.specs.Rows.{IsWide, rows_after, rows_from};

use crate::ahead::{AHEAD, gather};
use crate::numbers::number_at;
use crate::stored_row::StoredRow;
use arrayvec::ArrayVec;
use posting_rules::Rule;
use sqlite::{Alter, Connection, Row};
use store_rows::TableFault;

// The key of the first of the rows that were found.
fn first_key(found: &[Row]) -> Result<i64, TableFault>
    ensures answers { (e : Entry) → (more : List StoredColumns) → found.now ≡ given e ∷ more → result ≡ Ok e.key }
    ensures cause { IfErr result IsOfRows }
{
    match found.first() {
        Some(row) => number_at(row, 0),
        None => Err(TableFault::Damaged(Rule::Value)),
    }
}

// Puts the rows that were found in place of those in `rows`, up to one that can't be read, if it isn't under
// the key itself, and returns the key from which on the others follow.
fn gather_beside<O: StoredRow>(
    found: &[Row],
    from: i64,
    rows: &mut ArrayVec<O, AHEAD>,
) -> Result<Option<i64>, TableFault>
    ensures answers { (all : List Entry) → Rise all → IsWide (width_of O.StoredRow.kind.table) all
        → found.now ≡ map given (take AHEAD (rows_from from all))
        → MatchResult result
        (λ rest. rows_from from all ≡ map O.StoredRow.kind.entry rows.new.items ++ rows_after rest all)
        (BreaksUnder (λ _. ⊥) (BreaksBy O.StoredRow.kind.reading) from all) }
    ensures beyond { IfOk result (λ rest. IfSome rest (λ k. from <ℤ k)) }
    ensures cause { IfErr result IsOfRows }
{
    match gather(found, from, rows) {
        Ok(rest) => Ok(rest),
        Err(TableFault::Sqlite(e)) => Err(TableFault::Sqlite(e)),
        Err(TableFault::Damaged(rule)) => {
            let key = first_key(found)?;
            if key <= from {
                return Err(TableFault::Damaged(rule));
            }
            rows.clear();
            Ok(Some(key))
        }
    }
}

/// Puts the rows of a table with the least keys from one on in place of those in `rows`, up to one that can't
/// be read, if it isn't under the key itself, and returns the key from which on the others follow.
pub(crate) fn read_beside<S: Alter, O: StoredRow>(
    conn: &mut Connection<S>,
    from: i64,
    rows: &mut ArrayVec<O, AHEAD>,
) -> Result<Option<i64>, TableFault>
    ensures answers { HasCleanDisk (state S.Store conn.new) → (all : List Entry)
        → HoldsRows (state S.Store conn.old).now O.StoredRow.kind.table all
        → MatchResult result
        (λ rest. rows_from from all ≡ map O.StoredRow.kind.entry rows.new.items ++ rows_after rest all)
        (BreaksUnder (IsStoreError (state S.Store conn.old) (state S.Store conn.new))
        (BreaksBy O.StoredRow.kind.reading) from all) }
    ensures beyond { IfOk result (λ rest. IfSome rest (λ k. from <ℤ k)) }
    ensures reads { OnlyReads S.Store conn.old conn.new result }
    ensures cause { HasCleanDisk (state S.Store conn.new)
        → IfErr result (HasItsCause S.Store conn.old conn.new) }
{
    match O::seek(conn, None, from) {
        Ok(found) => gather_beside(&found, from, rows),
        Err(e) => Err(TableFault::Sqlite(e)),
    }
}

/// The row under a key.
pub(crate) fn row_with<O: StoredRow>(rows: &[O], key: u64) -> Option<O>
    ensures { option_map O.StoredRow.kind.entry result ≡ row_under (map O.StoredRow.kind.entry rows.now)
        (pos key) }
{
    for row in rows {
        if row.key() == key {
            return Some(*row);
        }
    }
    None
}
