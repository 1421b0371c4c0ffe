//! Taking up the bank that a file has.
ghost use Rattle.std.specs.Prelude.{◌≡◌, List, IfOk, IfErr, false};
ghost use Rattle.sqlite.specs.State.{HasCleanDisk, Survives};
ghost use Rattle.sqlite.specs.Held.{state};
ghost use Rattle.posting_rules.specs.believed.Commands.{Command};
ghost use Rattle.posting_rules.specs.believed.Counter.{ShowsLog, StandsAt, LeavesOnly};
ghost use Rattle.posting_rules.specs.believed.Tables.{AreTablesOf as Show};
ghost use Rattle.bank_store.specs.Connections.{conn_seen, state_in, IsGivenBack, IsReadOnly, IsUndoneIfOpen};
ghost use Rattle.bank_store.specs.FoundBank.{HasNoOtherVersion, IsTakenUp, LooksAtVersion, Misses};
ghost use Rattle.bank_store.specs.FoundBank.{ReadsMeta, SeeksBank, SeeksTables};
ghost use Rattle.bank_store.specs.MetaRow.{ChecksCount, ChecksMeta, ChecksOnly};
ghost use Rattle.bank_store.specs.Seen.{alloc_of};
ghost use Rattle.bank_store.specs.StoreFaults.{KnowsCause, LooksIn};

use crate::bank::Bank;
use crate::presence::{Presence, check_tables, count_tables, tables_there};
use crate::refused::{Refused, unread};
use bank_transactions::{begin, note_settled};
use posting_rules::{MAX_DECIDED, OpenFault, Rule};
use sqlite::{Alter, Connection};
use std::alloc::Global;
use store_rows::{AFTER_META, BankTable, StoredMeta, VERSION, probe_table, read_meta};
use walked_rows::only_meta;

// The row of the bank, if there is one, whatever its numbers. Nothing is written, so the transaction is
// dropped.
fn stored_meta<S: Alter>(conn: &mut Connection<S>) -> Result<Option<StoredMeta>, OpenFault>
    requires { conn.old.in_transaction ≡ false }
    ensures reads { ReadsMeta S.Store conn.old conn.new result }
    ensures undone { HasCleanDisk (state S.Store conn.new)
        → IsUndoneIfOpen (state S.Store conn.old) (state S.Store conn.new) }
    ensures looks { LooksIn S.Store conn.old conn.new result }
{
    let mut tx = begin(conn);
    match read_meta(&mut tx) {
        Ok(meta) => Ok(meta),
        Err(fault) => Err(unread(&fault)),
    }
}

/// The row of the bank, if there is one. The store is asked for a table once more, so that it is known to be open
/// and to have undone the transaction.
pub(crate) fn settled_meta<S: Alter>(
    conn: &mut Connection<S>,
) -> Result<Option<StoredMeta>, OpenFault>
    requires { conn.old.in_transaction ≡ false }
    ensures reads { ReadsMeta S.Store conn.old conn.new result }
    ensures same { HasCleanDisk (state S.Store conn.new)
        → IsReadOnly (state S.Store conn.old) (state S.Store conn.new) result }
    ensures looks { LooksIn S.Store conn.old conn.new result }
{
    note_settled(conn);
    let meta = stored_meta(conn);
    match probe_table(conn, BankTable::Meta) {
        Ok(_) => meta,
        Err(_) => Err(OpenFault::Store),
    }
}

/// Whether the count of requests is within 0..=`MAX_DECIDED`.
pub(crate) fn check_count(meta: &StoredMeta) -> Result<(), OpenFault>
    ensures { ChecksCount meta.now.decided result }
{
    if meta.decided < 0 || meta.decided as u64 > MAX_DECIDED {
        return Err(OpenFault::Damaged(Rule::Meta));
    }
    Ok(())
}

// Whether the row is of our version, and its count is within its range.
fn check_meta(meta: &StoredMeta) -> Result<(), OpenFault>
    ensures { ChecksMeta (Some meta.now) result }
{
    if meta.version != VERSION {
        return Err(OpenFault::Version(meta.version));
    }
    check_count(meta)
}

/// Whether the row of the bank is the only row of `meta`, whatever CHECK that has, and is of this version, with a
/// count within its range.
pub(crate) fn check_only<S: Alter>(conn: &mut Connection<S>, version: i64) -> Result<(), OpenFault>
    requires { conn.old.in_transaction ≡ false }
    ensures answers { HasCleanDisk (state S.Store conn.new)
        → ChecksOnly version (state S.Store conn.old) (state S.Store conn.new) result }
    ensures looks { LooksIn S.Store conn.old conn.new result }
{
    note_settled(conn);
    let Ok(only) = only_meta(conn) else {
        return Err(OpenFault::Store);
    };
    let Some(meta) = only else {
        return Err(OpenFault::Damaged(Rule::Meta));
    };
    if meta.version != version {
        return Err(OpenFault::Damaged(Rule::Meta));
    }
    check_count(&meta)
}

// Looks for the tables of a bank, and for what defines them, and then for the row of `meta`.
fn find_tables<S: Alter>(conn: &mut Connection<S>) -> Result<(), OpenFault>
    requires mode { conn.old.in_transaction ≡ false }
    requires ours { HasCleanDisk (state S.Store conn.old) → HasNoOtherVersion (state S.Store conn.old) }
    ensures answers { HasCleanDisk (state S.Store conn.new)
        → SeeksTables (state S.Store conn.old) (state S.Store conn.new) result }
    ensures looks { LooksIn S.Store conn.old conn.new result }
{
    match tables_there(conn)? {
        Presence::Absent => Err(OpenFault::Blank),
        Presence::Partial => Err(OpenFault::Foreign),
        Presence::Whole => {
            check_tables(conn, AFTER_META)?;
            match settled_meta(conn)? {
                None => Err(OpenFault::Damaged(Rule::Meta)),
                Some(meta) => check_meta(&meta),
            }
        }
    }
}

// Refuses a bank of another version before its other tables are looked for, as these may be others. What else
// `meta` may have against it is said once they are there.
fn refuse_other_version<S: Alter>(conn: &mut Connection<S>) -> Result<(), OpenFault>
    requires { conn.old.in_transaction ≡ false }
    ensures answers { HasCleanDisk (state S.Store conn.new)
        → LooksAtVersion (state S.Store conn.old) (state S.Store conn.new) result }
    ensures looks { LooksIn S.Store conn.old conn.new result }
{
    let Presence::Whole = count_tables(conn, BankTable::Meta, &[])? else {
        return Ok(());
    };
    match settled_meta(conn) {
        Ok(Some(meta)) if meta.version != VERSION => Err(OpenFault::Version(meta.version)),
        Err(OpenFault::Store) => Err(OpenFault::Store),
        _ => Ok(()),
    }
}

/// Looks for a bank of this version.
pub(crate) fn find_bank<S: Alter>(conn: &mut Connection<S>) -> Result<(), OpenFault>
    requires { conn.old.in_transaction ≡ false }
    ensures answers { HasCleanDisk (state S.Store conn.new)
        → SeeksBank (state S.Store conn.old) (state S.Store conn.new) result }
    ensures looks { LooksIn S.Store conn.old conn.new result }
{
    refuse_other_version(conn)?;
    find_tables(conn)?;
    check_only(conn, VERSION)
}

/// Takes up the bank that the connection's file has. It reads the row of `meta`, whose version comes first,
/// looks for the other tables of a bank and compares what defines them, and changes nothing. Other rows are checked by
/// the calls that meet them.
///
/// The connection has to be outside a transaction, as a new one is.
///
/// # Errors
///
/// The connection comes back with each, outside a transaction. The first five say what the file has, and that
/// it is as it was.
///
/// - [`OpenFault::Version`]: `meta` is there and has another version, whatever other tables there are.
/// - [`OpenFault::Blank`]: none of a bank's tables is there.
/// - [`OpenFault::Foreign`]: some of them are there, and some aren't.
/// - [`OpenFault::OtherTable`]: this one is defined otherwise than [`create`](crate::create) makes it. An index more
///   changes no definition.
/// - [`OpenFault::Damaged`]: the row of `meta` is missing, is out of its range, has a value of another type or
///   isn't the only one.
/// - [`OpenFault::Store`]: a call of `sqlite` failed. Nothing has changed, as long as the store is open. It
///   is the only fault if the file has a bank of this version.
pub fn adopt<S: Alter>(alloc: Global, mut conn: Connection<S>) -> Result<Bank<S>, Refused<S>>
    requires { conn.in_transaction ≡ false }
    ensures found { IfOk result (IsTakenUp S.Store conn) }
    ensures alloc { IfOk result (λ bank. alloc_of bank ≡ alloc) }
    ensures missed { IfErr result (λ refused. HasCleanDisk (state S.Store refused.conn)
        → Misses (state S.Store conn) refused.fault) }
    ensures cause { IfErr result (λ refused. KnowsCause S.Store conn refused.conn refused.fault) }
    ensures back { IfErr result (IsGivenBack S.Store conn) }
    ensures known { IfErr result (λ refused. HasCleanDisk (state S.Store refused.conn) → (log : List Command)
        → ShowsLog (conn_seen S.Store conn) log → refused.fault ≡ OpenFault.Store) }
    ensures remains { IfErr result (λ refused. HasCleanDisk (state S.Store refused.conn)
        → (log : List Command)
        → StandsAt (conn_seen S.Store conn) log
        → LeavesOnly (conn_seen S.Store refused.conn) (λ tables. Show tables log)) }
    ensures survives { Survives (state S.Store conn) (state_in S.Store result) (λ _. ⊥) }
{
    match find_bank(&mut conn) {
        Ok(()) => Ok(Bank::over(alloc, conn)),
        Err(fault) => Err(Refused { fault, conn }),
    }
}
