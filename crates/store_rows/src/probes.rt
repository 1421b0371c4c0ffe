//! A probe for each table: a reading statement that names all its columns, reported as accepted or refused.
ghost use Rattle.std.specs.Prelude.{◌≡◌, if◌then◌else◌, false, Ok, Err};
ghost use Rattle.sqlite.specs.State.{HasCleanDisk, Survives};
ghost use Rattle.sqlite.specs.Listing.{understood};
ghost use Rattle.sqlite.specs.Held.{state};
ghost use Rattle.sql_meanings.specs.StatementAnswers.{is_text_refused, OnlyShows, TellsUnderstood};
ghost use Rattle.store_rows.specs.Calls.{Probes};
ghost use Rattle.store_rows.specs.Probes.{probe_of};

use crate::texts::{
    PROBE_ACCOUNT, PROBE_BRANCH, PROBE_CLOSING, PROBE_FLOOR, PROBE_HISTORY, PROBE_META,
    PROBE_REFERENCE, PROBE_REQUEST, PROBE_TELLER,
};
use posting_rules::BankTable;
use sqlite::{Alter, Connection, Error};

/// The tables of a bank after `meta`, in their order.
pub const AFTER_META: &[BankTable] = &[
    BankTable::Branch,
    BankTable::Teller,
    BankTable::Account,
    BankTable::History,
    BankTable::Request,
    BankTable::Floor,
    BankTable::Reference,
    BankTable::Closing,
];

// What an error says of a text: that it isn't understood, or not even that.
fn refused(e: Error) -> Result<bool, Error>
    ensures { result ≡ if is_text_refused e then Ok false else Err e }
{
    match e {
        Error::SqlInputError(_) => Ok(false),
        _ => Err(e),
    }
}

// Whether the text is a statement under the schema.
fn is_understood<S: Alter>(conn: &mut Connection<S>, text: &str) -> Result<bool, Error>
    ensures answers { HasCleanDisk (state S.Store conn.new)
        → OnlyShows text.now 0 (understood conn.old.schema text.now)
        → TellsUnderstood (state S.Store conn.old) (state S.Store conn.new) text.now result }
    ensures mode { conn.old.in_transaction ≡ false → conn.new.in_transaction ≡ false }
    ensures survives { Survives (state S.Store conn.old) (state S.Store conn.new) (λ _. ⊥) }
{
    match conn.prepare(text) {
        Ok(_) => Ok(true),
        Err(e) => refused(e),
    }
}

// The text that reads all columns of the table.
fn probe_text(table: BankTable) -> &'static str
    ensures { result.now ≡ (probe_of table).0 }
{
    match table {
        BankTable::Meta => PROBE_META,
        BankTable::Branch => PROBE_BRANCH,
        BankTable::Teller => PROBE_TELLER,
        BankTable::Account => PROBE_ACCOUNT,
        BankTable::History => PROBE_HISTORY,
        BankTable::Request => PROBE_REQUEST,
        BankTable::Floor => PROBE_FLOOR,
        BankTable::Reference => PROBE_REFERENCE,
        BankTable::Closing => PROBE_CLOSING,
    }
}

/// Whether the probe of the table is understood; every other error is reported.
pub fn probe_table<S: Alter>(conn: &mut Connection<S>, table: BankTable) -> Result<bool, Error>
    ensures { Probes S.Store conn.old conn.new (probe_of table) result }
{
    is_understood(conn, probe_text(table))
}
