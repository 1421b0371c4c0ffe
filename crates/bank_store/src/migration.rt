//! Carrying a bank of an earlier version over to this version.
ghost use Rattle.std.specs.Prelude.{◌≡◌, ◌+◌, IfErr, IfOk, IfSome, IsTrue, Err, false, drop, take};
ghost use Rattle.sqlite.specs.State.{HasCleanDisk, Survives};
ghost use Rattle.sqlite.specs.Held.{state};
ghost use Rattle.sql_meanings.specs.Calls.{Inside, Says};
ghost use Rattle.sql_meanings.specs.StatementAnswers.{WritesKept};
ghost use Rattle.store_rows.specs.Migration.{IsEarlier};
ghost use Rattle.store_rows.specs.Probes.{all_tables};
ghost use Rattle.bank_store.specs.Connections.{IsGivenBack, IsReadOnly};
ghost use Rattle.bank_store.specs.Migration.{ChangesTables, HasCarriedOver, HasMoved, IsFrom, IsFromEarlier};
ghost use Rattle.bank_store.specs.Migration.{IsMigrated, KnowsAnswer, LeavesBank, Migrates, Misplaces, MovesBank};
ghost use Rattle.bank_store.specs.Migration.{MovesFound, SeeksEarlier, TellsNoEarlier, state_of};
ghost use Rattle.bank_store.specs.Seen.{alloc_of};
ghost use Rattle.bank_store.specs.StoreFaults.{IsOpenCall, KnowsCause, LooksIn};

use crate::adoption::{check_count, check_only, find_bank, settled_meta};
use crate::bank::Bank;
use crate::presence::{Presence, check_tables, count_tables};
use crate::refused::{Refused, unmoved};
use bank_transactions::{begin, note_settled};
use posting_rules::{OpenFault, Rule};
use sqlite::{Alter, Connection, Transaction};
use std::alloc::Global;
use store_rows::{
    AFTER_META, BankTable, EARLIEST, VERSION, commit, make_lacking, probe_table, set_version,
};

/// What was done so that a file has a bank of this version.
#[derive(Clone, Copy, Debug, PartialEq, Eq)]
pub enum Migrated {
    /// It had one of this earlier version, which was carried over.
    Moved(i64),
    /// It had one of this version, and nothing was done.
    Already,
}

// The version, if it is an earlier one.
fn earlier(version: i64) -> Option<u64>
    ensures some { IfSome result (IsFrom version) }
    ensures none { result ≡ None → TellsNoEarlier (OpenFault.Version version) }
{
    if version < EARLIEST || version >= VERSION {
        return None;
    }
    Some(version as u64)
}

// Makes the tables that the version lacks, and writes this version.
fn change_tables<S: Alter>(tx: &mut Transaction<'_, S>, from: u64) -> Result<(), OpenFault>
    requires { IsEarlier from }
    ensures says { Says S.Store tx.old tx.new
        (Inside (λ old new. ChangesTables from old.now new.now result))
        (Inside (λ old new. WritesKept old new result)) }
    ensures cause { IsTrue tx.old.conn.now.in_transaction
        → IfErr result (KnowsCause S.Store tx.old.conn.now tx.new.conn.now) }
{
    match make_lacking(tx, from) {
        Ok(()) => {}
        Err(e) => return Err(unmoved(&e)),
    }
    match set_version(tx, VERSION) {
        Ok(true) => Ok(()),
        Ok(false) => Err(OpenFault::Damaged(Rule::Meta)),
        Err(_) => Err(OpenFault::Store),
    }
}

// Changes the tables in one transaction.
fn move_bank<S: Alter>(conn: &mut Connection<S>, from: u64) -> Result<(), OpenFault>
    requires mode { conn.old.in_transaction ≡ false }
    requires earlier { IsEarlier from }
    ensures { MovesBank from S.Store conn.old conn.new result }
{
    let mut tx = begin(conn);
    change_tables(&mut tx, from)?;
    match commit(tx) {
        Ok(()) => Ok(()),
        Err(_) => Err(OpenFault::Store),
    }
}

// Changes the tables. Where they can't be changed the store is asked for a table once more, so that it is known to
// be open and to have undone the transaction.
fn move_settled<S: Alter>(conn: &mut Connection<S>, from: u64) -> Result<(), OpenFault>
    requires mode { conn.old.in_transaction ≡ false }
    requires earlier { IsEarlier from }
    ensures moves { MovesBank from S.Store conn.old conn.new result }
    ensures same { HasCleanDisk (state S.Store conn.new)
        → IfErr result (λ fault. IsReadOnly {X = Unit {0}} (state S.Store conn.old) (state S.Store conn.new)
        (Err fault)) }
{
    note_settled(conn);
    let Err(fault) = move_bank(conn, from) else {
        return Ok(());
    };
    let Ok(_) = probe_table(conn, BankTable::Meta) else {
        return Err(OpenFault::Store);
    };
    Err(fault)
}

// The tables after `meta` of a bank of that version.
fn after_meta(from: u64) -> &'static [BankTable]
    requires { IsEarlier from }
    ensures { result.now ≡ take (4 + from) (drop 1 all_tables) }
{
    &AFTER_META[..4 + from as usize]
}

// Looks for the tables of a bank of that version and for what defines them, and then for its count of requests.
fn find_earlier<S: Alter>(conn: &mut Connection<S>, from: u64) -> Result<(), OpenFault>
    requires mode { conn.old.in_transaction ≡ false }
    requires earlier { IsEarlier from }
    ensures answers { HasCleanDisk (state S.Store conn.new)
        → SeeksEarlier from (state S.Store conn.old) (state S.Store conn.new) result }
    ensures looks { LooksIn S.Store conn.old conn.new result }
{
    let Presence::Whole = count_tables(conn, BankTable::Meta, after_meta(from))? else {
        return Err(OpenFault::Foreign);
    };
    check_tables(conn, after_meta(from))?;
    match settled_meta(conn)? {
        None => Err(OpenFault::Damaged(Rule::Meta)),
        Some(meta) => check_count(&meta),
    }
}

// Moves the bank that a file of that version has.
fn move_found<S: Alter>(conn: &mut Connection<S>, from: u64) -> Result<(), OpenFault>
    requires mode { conn.old.in_transaction ≡ false }
    requires earlier { IsEarlier from }
    ensures answers { HasCleanDisk (state S.Store conn.new)
        → MovesFound from (state S.Store conn.old) (state S.Store conn.new) result }
    ensures call { IsOpenCall S.Store conn.old conn.new (HasMoved from (state S.Store conn.old).now) result }
{
    find_earlier(conn, from)?;
    check_only(conn, from as i64)?;
    move_settled(conn, from)
}

// Looks for a bank of this version, and moves one of an earlier version.
fn find_or_move<S: Alter>(conn: &mut Connection<S>) -> Result<Migrated, OpenFault>
    requires { conn.old.in_transaction ≡ false }
    ensures answers { HasCleanDisk (state S.Store conn.new)
        → Migrates (state S.Store conn.old) (state S.Store conn.new) result }
    ensures from { IfOk result IsFromEarlier }
    ensures call { IsOpenCall S.Store conn.old conn.new (HasCarriedOver (state S.Store conn.old)) result }
{
    match find_bank(conn) {
        Ok(()) => Ok(Migrated::Already),
        Err(OpenFault::Version(version)) => match earlier(version) {
            None => Err(OpenFault::Version(version)),
            Some(from) => {
                move_found(conn, from)?;
                Ok(Migrated::Moved(version))
            }
        },
        Err(fault) => Err(fault),
    }
}

/// Makes sure that the connection's file has a bank of this version: takes up one of this version, as `adopt`
/// does, and carries one of an earlier version over to it, in one transaction. All its rows stay, so it shows what
/// it showed, and the tables that its version lacked are empty. A crash in the call leaves the bank as it was or
/// carried over.
///
/// The connection has to be outside a transaction, as a new one is.
///
/// # Errors
///
/// The connection comes back with each, outside a transaction. Each but the last says what the file has, and that
/// it is as it was.
///
/// - [`OpenFault::Version`]: `meta` is there and has a version that is neither this one nor an earlier one.
/// - [`OpenFault::Blank`]: none of a bank's tables is there.
/// - [`OpenFault::Foreign`]: some of the tables of its version are there, and some aren't; or one that the version
///   lacked can't be made, as where something else has its name.
/// - [`OpenFault::OtherTable`]: this table of its version is defined otherwise than that version made it.
/// - [`OpenFault::Damaged`]: the row of `meta` is missing, is out of its range, has a value of another type or
///   isn't the only one.
/// - [`OpenFault::Store`]: a call of `sqlite` failed. Nothing has changed, as long as the store is open.
pub fn migrate<S: Alter>(
    alloc: Global,
    mut conn: Connection<S>,
) -> Result<(Bank<S>, Migrated), Refused<S>>
    requires { conn.in_transaction ≡ false }
    ensures migrated { IfOk result (IsMigrated S.Store conn) }
    ensures alloc { IfOk result (λ done. alloc_of done.0 ≡ alloc) }
    ensures misplaced { IfErr result (λ refused. HasCleanDisk (state S.Store refused.conn)
        → Misplaces (state S.Store conn) refused.fault) }
    ensures cause { IfErr result (λ refused. KnowsCause S.Store conn refused.conn refused.fault) }
    ensures back { IfErr result (IsGivenBack S.Store conn) }
    ensures known { KnowsAnswer S.Store conn result }
    ensures remains { IfErr result (LeavesBank S.Store conn) }
    ensures survives { Survives (state S.Store conn) (state_of S.Store result)
        (HasCarriedOver (state S.Store conn)) }
{
    match find_or_move(&mut conn) {
        Ok(migrated) => Ok((Bank::over(alloc, conn), migrated)),
        Err(fault) => Err(Refused { fault, conn }),
    }
}
