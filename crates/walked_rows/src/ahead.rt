//! Rows that are read ahead.
ghost use Rattle.std.specs.Prelude.{◌≡◌, [], ◌++◌, List, map, filter, take, None, IfErr, IfOk, MatchResult};
ghost use Rattle.sqlite.specs.State.{HasCleanDisk};
ghost use Rattle.sqlite.specs.Held.{state};
ghost use Rattle.sql_meanings.specs.believed.Entries.{Entry, Rise};
ghost use Rattle.sql_meanings.specs.StatementAnswers.{IsStoreError};
ghost use Rattle.sql_meanings.specs.believed.Tables.{width_of};
ghost use Rattle.store_rows.specs.believed.SeveralRows.{given};
ghost use Rattle.walked_rows.specs.Causes.{HasItsCause, IsOfRows};
ghost use Rattle.walked_rows.specs.Leaving.{OnlyReads};
ghost use Rattle.walked_rows.specs.StepOutcomes.{BreaksBy, BreaksFirst, ReadsNext};
ghost use Rattle.walked_rows.specs.Rising.{RisesFrom};
ghost use Rattle.store_rows.specs.View.{HoldsRows};
ghost use Rattle.walked_rows.specs.Rows.{IsWide, entry_key, rows_after, rows_from};

use crate::stored_row::StoredRow;
use arrayvec::ArrayVec;
use message_records::Account;
use posting_rules::Rule;
use sqlite::{Alter, Connection, Row};
use store_rows::TableFault;

/// How many rows are read ahead at most.
pub const AHEAD: usize = 64;

// The row that is read, whose key is a number or above it.
fn read_next<R: StoredRow>(row: &Row, next: i64) -> Result<R, TableFault>
    ensures { ReadsNext R.StoredRow.kind next row.now result }
{
    let read = R::of(row)?;
    let key = read.key() as i64;
    if key < next {
        return Err(TableFault::Damaged(Rule::Value));
    }
    Ok(read)
}

/// Puts the rows that were found in place of those in `rows`, up to one that can't be read, if it isn't the
/// first, and returns the key from which on the others follow.
pub(crate) fn gather<R: StoredRow>(
    found: &[Row],
    from: i64,
    rows: &mut ArrayVec<R, AHEAD>,
) -> Result<Option<i64>, TableFault>
    ensures answers { (all : List Entry) → Rise all → IsWide (width_of R.StoredRow.kind.table) all
        → found.now ≡ map given (take AHEAD (rows_from from all))
        → MatchResult result
        (λ rest. rows_from from all ≡ map R.StoredRow.kind.entry rows.new.items ++ rows_after rest all)
        (BreaksFirst (λ _. ⊥) (BreaksBy R.StoredRow.kind.reading) (rows_from from all)) }
    ensures ended { IfOk result (λ rest. rows.new.items ≡ [] → rest ≡ None) }
    ensures rises { IfOk result
        (λ rest. RisesFrom from (map (λ r. entry_key (R.StoredRow.kind.entry r)) rows.new.items) rest) }
    ensures cause { IfErr result IsOfRows }
{
    rows.clear();
    let mut next = from;
    for row in found {
        if rows.is_full() {
            return Ok(Some(next));
        }
        match read_next::<R>(row, next) {
            Ok(read) => {
                next = read.key() as i64 + 1;
                rows.push(read);
            }
            Err(fault) => {
                if rows.is_empty() {
                    return Err(fault);
                }
                return Ok(Some(next));
            }
        }
    }
    Ok(if rows.is_empty() { None } else { Some(next) })
}

/// Puts the rows of a table with the least keys from one on, those of an account if one is named, in place of
/// those in `rows`, up to one that can't be read, if it isn't the first, and returns the key from which on
/// the others follow.
pub(crate) fn read_ahead<S: Alter, R: StoredRow>(
    conn: &mut Connection<S>,
    of: Option<Account>,
    from: i64,
    rows: &mut ArrayVec<R, AHEAD>,
) -> Result<Option<i64>, TableFault>
    ensures answers { HasCleanDisk (state S.Store conn.new) → (all : List Entry)
        → HoldsRows (state S.Store conn.old).now R.StoredRow.kind.table all
        → let given = filter (R.StoredRow.kind.is_given of) all in MatchResult result
        (λ rest. rows_from from given ≡ map R.StoredRow.kind.entry rows.new.items ++ rows_after rest given)
        (BreaksFirst (IsStoreError (state S.Store conn.old) (state S.Store conn.new))
        (BreaksBy R.StoredRow.kind.reading) (rows_from from given)) }
    ensures ended { IfOk result (λ rest. rows.new.items ≡ [] → rest ≡ None) }
    ensures rises { IfOk result
        (λ rest. RisesFrom from (map (λ r. entry_key (R.StoredRow.kind.entry r)) rows.new.items) rest) }
    ensures reads { OnlyReads S.Store conn.old conn.new result }
    ensures cause { HasCleanDisk (state S.Store conn.new)
        → IfErr result (HasItsCause S.Store conn.old conn.new) }
{
    match R::seek(conn, of, from) {
        Ok(found) => gather(&found, from, rows),
        Err(e) => Err(TableFault::Sqlite(e)),
    }
}
