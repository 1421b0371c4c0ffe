//! The table of the bank as a whole: one row.
ghost use Rattle.std.specs.Prelude.{◌≡◌, ◌≤◌, ◌∷◌, [], pos, true, option_map, IfOk, IfErr, OnOk};
ghost use Rattle.posting_rules.specs.believed.Changes.{with_decided};
ghost use Rattle.sql_meanings.specs.Calls.{Inside, Says};
ghost use Rattle.sql_meanings.specs.believed.Sparing.{SparesAllBut};
ghost use Rattle.sql_meanings.specs.StatementAnswers.{TellsRow};
ghost use Rattle.store_rows.specs.Calls.{OfMeta, SetsNumber};
ghost use Rattle.sqlite.specs.Held.{state};
ghost use Rattle.sqlite.specs.State.{HasCleanDisk, QueriesRowInside};
ghost use Rattle.sqlite.specs.Effect.{IsDatabase};
ghost use Rattle.sqlite.specs.declared.types.Value.TheVariants.{Int};
ghost use Rattle.store_rows.specs.believed.Columns.{meta_in};
ghost use Rattle.store_rows.specs.Columns.{meta_shown};
ghost use Rattle.store_rows.specs.Failures.{Asks, Changes, Looks};
ghost use Rattle.store_rows.specs.Lying.{FindsLying, MetaLies, SetsCount, SetsDecided, SetsItsVersion, SetsLying};
ghost use Rattle.store_rows.specs.Migration.{SetsVersion};
ghost use Rattle.store_rows.specs.TableAnswers.{FindsMeta};
ghost use Rattle.store_rows.specs.declared.texts.TheConstants.{SET_META, SET_VERSION};
ghost use Rattle.store_rows.specs.believed.BankTables.{meta as table};
ghost use Rattle.store_rows.specs.Statements.{TellsOther};
ghost use Rattle.store_rows.specs.Shown.{ShowsFirst};
ghost use Rattle.store_rows.specs.believed.SeveralRows.{under};
ghost use Rattle.store_rows.specs.declared.metas.TheConstants.{META_ID as id};
ghost use Rattle.store_rows.specs.declared.texts.TheConstants.{GET_META as text};

use crate::columns::integer_at;
use crate::fault::TableFault;
use crate::found::{FromRow, found};
use crate::statements::{row_under, write_under};
use crate::texts::{GET_META, SET_META, SET_VERSION};
use posting_rules::MAX_DECIDED;
use sqlite::{Alter, Error, Row, Transaction};

/// The id of the row of the bank, which is the only one.
pub(crate) const META_ID: u64 = 1;

/// The version of the tables.
pub const VERSION: i64 = 4;

/// What the row of the bank holds, whatever the numbers: another product may have written them.
#[derive(Clone, Copy)]
pub struct StoredMeta {
    /// Of the form of the tables.
    pub version: i64,
    /// How many requests are decided.
    pub decided: i64,
}

impl FromRow for StoredMeta {
    ghost use Rattle.store_rows.specs.Columns.{meta_of};

    ghost read = { meta_of };

    fn from_row(row: &Row) -> Result<Self, TableFault> {
        Ok(StoredMeta {
            version: integer_at(row, 0)?,
            decided: integer_at(row, 1)?,
        })
    }
}

// The row of the bank.
fn meta_row<S: Alter>(tx: &mut Transaction<'_, S>) -> Result<Row, Error>
    ensures says { Says S.Store tx.old tx.new
        (OfMeta (λ old new rows. TellsRow old new (option_map meta_shown (meta_in rows)) result))
        (λ old new. Asks old new result
        × IfOk result (ShowsFirst text.now (Int (pos id) ∷ []) old.now)) }
    ensures asks { HasCleanDisk (state S.Store tx.new.conn.now) → QueriesRowInside text.now (Int (pos id) ∷ [])
        (state S.Store tx.old.conn.now) (state S.Store tx.new.conn.now) result }
{
    row_under(tx, GET_META, META_ID)
}

/// What meta holds of the bank, if it has a row under the bank's id, whatever other rows it has.
pub fn read_meta<S: Alter>(tx: &mut Transaction<'_, S>) -> Result<Option<StoredMeta>, TableFault>
    ensures says { Says S.Store tx.old tx.new
        (OfMeta (λ old new rows. FindsMeta old new (meta_in rows) result))
        (λ old new. Looks old new result) }
    ensures other { HasCleanDisk (state S.Store tx.new.conn.now)
        → IfErr result (TellsOther (state S.Store tx.old.conn.now).now) }
    // Whatever rows the file holds.
    ensures lies { FindsLying S.Store tx.old tx.new MetaLies result }
{
    found(meta_row(tx))
}

/// Writes how many requests are decided, and reports whether meta has its row.
pub fn set_decided<S: Alter>(tx: &mut Transaction<'_, S>, decided: u64) -> Result<bool, Error>
    requires { decided ≤ MAX_DECIDED }
    ensures sets { SetsNumber S.Store tx.old tx.new table SET_META.now (under id (pos decided)) (λ _. true)
        (with_decided decided) result }
    // Whatever rows the file holds.
    ensures lies { SetsLying S.Store tx.old tx.new table id (SetsDecided decided) result }
    ensures counts { SetsCount S.Store tx.old tx.new decided result }
{
    write_under(tx, SET_META, META_ID, decided as i64)
}

/// Writes the version of the tables, and reports whether meta has its row.
pub fn set_version<S: Alter>(tx: &mut Transaction<'_, S>, version: i64) -> Result<bool, Error>
    ensures sets { Says S.Store tx.old tx.new
        (Inside (λ old new. SetsVersion version old new result))
        (Inside (λ old new. Changes SET_VERSION.now (under id version) old new result
        × OnOk result (SparesAllBut (table.name ∷ []) old.now new.now × ∥ IsDatabase new.now ∥₁))) }
    // Whatever rows the file holds.
    ensures lies { SetsLying S.Store tx.old tx.new table id (SetsItsVersion version) result }
{
    write_under(tx, SET_VERSION, META_ID, version)
}
