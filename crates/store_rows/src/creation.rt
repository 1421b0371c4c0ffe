//! The tables of a bank come to be, in one transaction, beside whatever the file has.
ghost use Rattle.std.specs.Prelude.{◌≡◌, ◌<◌, IsTrue, IfErr, IfSome, OnOk, OnErr, false, drop, slice_get, length};
ghost use Rattle.sqlite.specs.Table.{Table};
ghost use Rattle.sqlite.specs.State.{HasCleanDisk, Survives};
ghost use Rattle.sqlite.specs.Held.{state};
ghost use Rattle.sql_meanings.specs.Calls.{Says, Inside};
ghost use Rattle.sql_meanings.specs.Making.{CreatesOnly, KeepsTables};
ghost use Rattle.sql_meanings.specs.StatementAnswers.{WriteKept, WritesKept, MakesTold};
ghost use Rattle.sqlite_rules.specs.Lists.{Has};
ghost use Rattle.store_rows.specs.believed.Failures.{HasFailed, changes};
ghost use Rattle.store_rows.specs.Failures.{HasFailedAtLast};
ghost use Rattle.store_rows.specs.believed.View.{Shows};
ghost use Rattle.store_rows.specs.Creation.{AreEmpty, all_texts, new_tables, MakesAll, StartsBank};
ghost use Rattle.store_rows.specs.Creation.{CreatesBank, CreationFails, HasNewBank, IsAlone};

use crate::metas::{META_ID, VERSION};
use crate::texts::{ADD_META, MAKE_TABLES};
use sqlite::{Alter, Connection, Error, Transaction, params};

// Makes the table that the text defines.
fn make_table<S: Alter>(tx: &mut Transaction<'_, S>, text: &str) -> Result<usize, Error>
    requires { Has changes text.now }
    ensures { Says S.Store tx.old tx.new
        (Inside (λ old new. (table : Table) → CreatesOnly text.now table
        → MakesTold old new text.now table result))
        (Inside (λ old new. WriteKept old new result × IfErr result (HasFailed old new))) }
{
    tx.execute(text, &[])
}

// The text that makes the table at a place.
fn make_text(at: usize) -> &'static str
    requires { at < length all_texts }
    ensures { IfSome (slice_get all_texts at) (λ it. result.now ≡ it.0) }
{
    MAKE_TABLES[at]
}

/// Makes the tables from this place in their order on.
pub(crate) fn make_tables<S: Alter>(tx: &mut Transaction<'_, S>, first: usize) -> Result<(), Error>
    requires { first < length all_texts }
    ensures says { Says S.Store tx.old tx.new
        (Inside (λ old new. MakesAll (drop first all_texts) old new result))
        (Inside (λ old new. WritesKept old new result)) }
    ensures failed { HasCleanDisk (state S.Store tx.new.conn.now) → IsTrue tx.old.conn.now.in_transaction
        → IfErr result (HasFailedAtLast S.Store tx.old.conn.now tx.new.conn.now) }
{
    for at in first..MAKE_TABLES.len() {
        make_table(tx, make_text(at))?;
    }
    Ok(())
}

// The first row of meta: the version, and nothing decided.
fn add_meta<S: Alter>(tx: &mut Transaction<'_, S>) -> Result<usize, Error>
    ensures { Says S.Store tx.old tx.new
        (Inside (λ old new. AreEmpty all_texts old.now → StartsBank old new result))
        (Inside (λ old new. WriteKept old new result)) }
{
    let id = META_ID as i64;
    tx.execute(ADD_META, params![id, VERSION, 0i64])
}

/// Makes the tables of a bank and the first row of meta, inside a transaction.
pub fn create_tables<S: Alter>(tx: &mut Transaction<'_, S>) -> Result<(), Error>
    ensures { Says S.Store tx.old tx.new
        (Inside (λ old new. CreatesBank old new result))
        (Inside (λ old new. WritesKept old new result)) }
{
    make_tables(tx, 0)?;
    add_meta(tx)?;
    Ok(())
}

/// Makes the tables of a bank and the first row of meta, in a transaction of their own.
pub fn create<S: Alter>(conn: &mut Connection<S>) -> Result<(), Error>
    requires { conn.old.in_transaction ≡ false }
    ensures ok { HasCleanDisk (state S.Store conn.new)
        → OnOk result (Shows (state S.Store conn.new).now new_tables
        × Shows (state S.Store conn.new).committed new_tables
        × KeepsTables (state S.Store conn.old).now (state S.Store conn.new).now
        × IsAlone (state S.Store conn.old).now (state S.Store conn.new).now) }
    ensures err { HasCleanDisk (state S.Store conn.new) → IsTrue (state S.Store conn.new).is_open
        → OnErr result ((state S.Store conn.new).committed ≡ (state S.Store conn.old).committed) }
    ensures cause { HasCleanDisk (state S.Store conn.new)
        → IfErr result (CreationFails (state S.Store conn.old) (state S.Store conn.new)) }
    ensures survives { Survives (state S.Store conn.old) (state S.Store conn.new)
        (HasNewBank (state S.Store conn.old).now) }
    ensures mode { conn.new.in_transaction ≡ false }
{
    let mut tx = conn.transaction();
    create_tables(&mut tx)?;
    tx.commit()
}
