//! The reference under an ordinal, if there is one.
ghost use Rattle.std.specs.Prelude.{◌≡◌, ◌≤◌, List, pos, option_map, IfErr, IfOk, MatchResult};
ghost use Rattle.sqlite.specs.State.{HasCleanDisk};
ghost use Rattle.sqlite.specs.Held.{state};
ghost use Rattle.sqlite.specs.Order.{column};
ghost use Rattle.sqlite.specs.declared.types.Value.TheVariants.{Text};
ghost use Rattle.sql_meanings.specs.believed.Entries.{Entry};
ghost use Rattle.sql_meanings.specs.StatementAnswers.{IsStoreError};
ghost use Rattle.posting_rules.specs.declared.limits.TheConstants.{MAX_DECIDED};
ghost use Rattle.store_rows.specs.TableAnswers.{Gives};
ghost use Rattle.store_rows.specs.believed.BankTables.{reference as reference_table};
ghost use Rattle.store_rows.specs.believed.Readings.{reference};
ghost use Rattle.walked_rows.specs.Causes.{HasItsCause};
ghost use Rattle.walked_rows.specs.Leaving.{OnlyReads};
ghost use Rattle.walked_rows.specs.Pairs.{BreaksUnder, row_under};
ghost use Rattle.walked_rows.specs.References.{BreaksReference, KeepsAtDamage, ReadsFirst, text_entry};
ghost use Rattle.store_rows.specs.View.{HoldsRows};

use crate::statements::rows_shown;
use message_records::Reference;
use posting_rules::Rule;
use sqlite::types::ValueRef;
use sqlite::{Alter, Connection, Row, params};
use store_rows::{REFERENCE_UNDER, TableFault};

/// The reference in a column.
pub(crate) fn reference_at(row: &Row, at: usize) -> Result<Reference, TableFault>
    ensures reads { Gives (reference (column row.now at)) result }
    ensures is { IfOk result (λ text. column row.now at ≡ Text text) }
{
    match row.get_ref(at) {
        Ok(ValueRef::Text(text)) => {
            Reference::new(text).ok_or(TableFault::Damaged(Rule::Reference))
        }
        _ => Err(TableFault::Damaged(Rule::Value)),
    }
}

// The reference of the first of the rows that were found, if there is one.
fn first_reference(found: &[Row]) -> Result<Option<Reference>, TableFault>
    ensures { ReadsFirst found.now result }
{
    match found.first() {
        Some(row) => Ok(Some(reference_at(row, 0)?)),
        None => Ok(None),
    }
}

/// The reference under an ordinal, outside a transaction.
pub(crate) fn reference_under<S: Alter>(
    conn: &mut Connection<S>,
    ordinal: u64,
) -> Result<Option<Reference>, TableFault>
    requires { ordinal ≤ MAX_DECIDED }
    ensures answers { HasCleanDisk (state S.Store conn.new) → (all : List Entry)
        → HoldsRows (state S.Store conn.old).now reference_table all
        → MatchResult result
        (λ found. option_map (text_entry ordinal) found ≡ row_under all (pos ordinal))
        (BreaksUnder (IsStoreError (state S.Store conn.old) (state S.Store conn.new))
        BreaksReference (pos ordinal) all) }
    ensures reads { OnlyReads S.Store conn.old conn.new result }
    ensures cause { HasCleanDisk (state S.Store conn.new)
        → IfErr result (HasItsCause S.Store conn.old conn.new) }
    ensures damage { HasCleanDisk (state S.Store conn.new)
        → IfErr result (KeepsAtDamage (state S.Store conn.old) (state S.Store conn.new)) }
{
    let key = ordinal as i64;
    match rows_shown(conn, REFERENCE_UNDER, params![key]) {
        Ok(found) => first_reference(&found),
        Err(e) => Err(TableFault::Sqlite(e)),
    }
}
