//! The table of the numbers that closed books decided, and of the seal.
ghost use Rattle.std.specs.Prelude.{◌≤◌, IfOk, IfSome, find, is_some, pos};
ghost use Rattle.posting_rules.specs.Changes.{with_closing};
ghost use Rattle.posting_rules.specs.believed.Damage.{IsSoundClosing};
ghost use Rattle.posting_rules.specs.believed.Tables.{closing_key, row_at};
ghost use Rattle.posting_rules.specs.declared.limits.TheConstants.{LAST_KEY as MOST};
ghost use Rattle.sql_meanings.specs.Entries.{is_above};
ghost use Rattle.store_rows.specs.Calls.{AddsRow, LooksUp};
ghost use Rattle.store_rows.specs.Lying.{FindsLying, NextLies, PutsLying, SealLies};
ghost use Rattle.store_rows.specs.believed.BankTables.{closing as table};
ghost use Rattle.store_rows.specs.believed.Readings.{read_closing};
ghost use Rattle.store_rows.specs.believed.Rules.{row_under};
ghost use Rattle.store_rows.specs.believed.SeveralRows.{given};
ghost use Rattle.store_rows.specs.believed.View.{closing_entry};
ghost use Rattle.store_rows.specs.declared.texts.TheConstants.{ADD_CLOSING as text};

use crate::columns::key_at;
use crate::fault::TableFault;
use crate::found::{FromRow, found};
use crate::statements::{put_in, row_under};
use crate::texts::{ADD_CLOSING, GET_CLOSING, NEXT_CLOSING};
use posting_rules::{ClosingRow, Rule};
use sqlite::{Alter, Row, Transaction, params};

/// The key of the seal.
const SEAL: u64 = 0;

impl FromRow for ClosingRow {
    ghost use Rattle.store_rows.specs.believed.Readings.{closing_of};

    ghost read = { closing_of };

    fn from_row(row: &Row) -> Result<Self, TableFault> {
        let last = key_at(row, 0)?;
        let first = key_at(row, 1)?;
        ClosingRow::of_keys(first, last).ok_or(TableFault::Damaged(Rule::Closing))
    }
}

/// The seal, if there is one.
pub fn find_seal<S: Alter>(tx: &mut Transaction<'_, S>) -> Result<Option<ClosingRow>, TableFault>
    ensures looks_up { LooksUp S.Store tx.old tx.new (λ rows. row_under rows.closings 0) read_closing result }
    // Whatever rows the file holds.
    ensures lies { FindsLying S.Store tx.old tx.new SealLies result }
{
    found(row_under(tx, GET_CLOSING, SEAL))
}

/// The closed numbers with the least last key above one, if there is such a row.
pub fn next_closing<S: Alter>(
    tx: &mut Transaction<'_, S>,
    after: u64,
) -> Result<Option<ClosingRow>, TableFault>
    requires { after ≤ MOST }
    ensures looks_up { LooksUp S.Store tx.old tx.new (λ rows. find (is_above (pos after)) rows.closings) read_closing result }
    ensures within { IfOk result (λ found. IfSome found (λ row. row.last ≤ MOST)) }
    // Whatever rows the file holds.
    ensures lies { FindsLying S.Store tx.old tx.new (NextLies after) result }
{
    found(row_under(tx, NEXT_CLOSING, after))
}

/// Closes numbers of one teller, or seals the books. `Damaged(Rule::Key)`: others are closed up to the same last one, or the
/// books are sealed.
pub fn add_closing<S: Alter>(
    tx: &mut Transaction<'_, S>,
    row: &ClosingRow,
) -> Result<(), TableFault>
    requires { IsSoundClosing row.now }
    ensures adds { AddsRow S.Store tx.old tx.new text.now (given (closing_entry row.now)) table
        (λ tables. is_some (row_at closing_key tables.closings row.now.last)) (with_closing row.now) result }
    // Whatever rows the file holds.
    ensures lies { PutsLying S.Store tx.old tx.new table result }
{
    let last = row.last as i64;
    let first = row.first as i64;
    put_in(tx, ADD_CLOSING, params![last, first])
}
