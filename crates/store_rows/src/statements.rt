//! The statements on one table, whichever it is: a row under a key, a number of a row, a row more.
ghost use Rattle.std.specs.Prelude.{◌≤◌, pos, [], ◌∷◌};
ghost use Rattle.sqlite.specs.Listing.{understood};
ghost use Rattle.sqlite.specs.State.{QueriesRowInside};
ghost use Rattle.sqlite.specs.Values.{bound};
ghost use Rattle.sqlite.specs.declared.types.Value.TheVariants.{Int};
ghost use Rattle.sqlite_rules.specs.Lists.{Has};
ghost use Rattle.sql_meanings.specs.Calls.{Says};
ghost use Rattle.sql_meanings.specs.StatementAnswers.{OnlyShows};
ghost use Rattle.store_rows.specs.Failures.{Asks};
ghost use Rattle.store_rows.specs.believed.Failures.{changes, queries};
ghost use Rattle.store_rows.specs.Statements.{PutsRow, RunsUnder};

use crate::fault::{TableFault, added};
use message_records::Cents;
use posting_rules::LAST_KEY;
use sqlite::types::ValueRef;
use sqlite::{Alter, Error, Row, Transaction, params};

/// The greatest key of a row: no key of a number is greater, no ordinal, and no number of a branch, a teller or an account.
pub(crate) const MAX_KEY: u64 = LAST_KEY;

// The row that a text shows under a key.
pub(crate) fn row_under<S: Alter>(
    tx: &mut Transaction<'_, S>,
    text: &str,
    key: u64,
) -> Result<Row, Error>
    requires key { key ≤ MAX_KEY }
    requires ours { Has queries text.now }
    ensures { Says S.Store tx.old tx.new
        (λ old new. QueriesRowInside text.now (Int (pos key) ∷ []) old new result)
        (λ old new. OnlyShows text.now 1 (understood old.now.schema text.now) → Asks old new result) }
{
    let key = key as i64;
    tx.query_row(text, params![key])
}

// The row that a text shows under two keys.
pub(crate) fn row_under_two<S: Alter>(
    tx: &mut Transaction<'_, S>,
    text: &str,
    first: u64,
    second: u64,
) -> Result<Row, Error>
    requires first { first ≤ MAX_KEY }
    requires second { second ≤ MAX_KEY }
    requires ours { Has queries text.now }
    ensures { Says S.Store tx.old tx.new
        (λ old new. QueriesRowInside text.now (Int (pos first) ∷ Int (pos second) ∷ []) old new result)
        (λ old new. OnlyShows text.now 2 (understood old.now.schema text.now) → Asks old new result) }
{
    let first = first as i64;
    let second = second as i64;
    tx.query_row(text, params![first, second])
}

// Writes a number into the row under a key, and reports whether there is one.
pub(crate) fn write_under<S: Alter>(
    tx: &mut Transaction<'_, S>,
    text: &str,
    key: u64,
    number: i64,
) -> Result<bool, Error>
    requires key { key ≤ MAX_KEY }
    requires ours { Has changes text.now }
    ensures { RunsUnder S.Store tx.old tx.new text.now key number result }
{
    let key = key as i64;
    let count = tx.execute(text, params![key, number])?;
    Ok(count == 1)
}

// Writes a balance into the row under a key, and reports whether there is one.
pub(crate) fn write_balance<S: Alter>(
    tx: &mut Transaction<'_, S>,
    text: &str,
    key: u64,
    balance: Cents,
) -> Result<bool, Error>
    requires key { key ≤ MAX_KEY }
    requires ours { Has changes text.now }
    ensures { RunsUnder S.Store tx.old tx.new text.now key balance result }
{
    write_under(tx, text, key, balance.get())
}

// Puts a row in.
pub(crate) fn put_in<S: Alter>(
    tx: &mut Transaction<'_, S>,
    text: &str,
    values: &[ValueRef<'_>],
) -> Result<(), TableFault>
    ensures { PutsRow S.Store tx.old tx.new text.now (bound values.now) result }
{
    let answer = tx.execute(text, values);
    added(answer)
}

// Puts a row of a key and a balance in.
pub(crate) fn put_balance<S: Alter>(
    tx: &mut Transaction<'_, S>,
    text: &str,
    key: u64,
    balance: Cents,
) -> Result<(), TableFault>
    requires { key ≤ MAX_KEY }
    ensures { PutsRow S.Store tx.old tx.new text.now (Int (pos key) ∷ Int balance ∷ []) result }
{
    let key = key as i64;
    let balance = balance.get();
    put_in(tx, text, params![key, balance])
}
