//! A new bank in a file: its tables, empty but for the row of `meta`.
ghost use Rattle.std.specs.Prelude.{◌≡◌, IfOk, IfErr, OnOk, false};
ghost use Rattle.sqlite.specs.State.{HasCleanDisk, Survives};
ghost use Rattle.sqlite.specs.Held.{state};
ghost use Rattle.store_rows.specs.Creation.{HasNewBank, IsEmpty};
ghost use Rattle.store_rows.specs.Probes.{all_probes};
ghost use Rattle.bank_store.specs.Connections.{state_in, IsGivenBack};
ghost use Rattle.bank_store.specs.NewBank.{IsNewBank, IsRefusedOnTheWay, IsTaken, LeavesAll, MakesBank};
ghost use Rattle.bank_store.specs.OpenFaults.{IsUnmade};
ghost use Rattle.bank_store.specs.Seen.{alloc_of};
ghost use Rattle.bank_store.specs.StoreFaults.{KnowsWhyUnmade};
ghost use Rattle.bank_store.specs.TablePresence.{IsPresent};
ghost use Rattle.bank_store.specs.declared.presence.Presence.TheVariants.{Absent};

use crate::bank::Bank;
use crate::presence::{Presence, tables_there};
use crate::refused::{Refused, unmade};
use bank_transactions::{begin, note_settled};
use posting_rules::OpenFault;
use sqlite::{Alter, Connection};
use std::alloc::Global;
use store_rows::{BankTable, commit, create_tables, probe_table};

// Makes the tables of a bank and the first row of meta, in one transaction.
fn make_tables<S: Alter>(conn: &mut Connection<S>) -> Result<(), OpenFault>
    requires { conn.old.in_transaction ≡ false }
    ensures { MakesBank S.Store conn.old conn.new IsRefusedOnTheWay result }
{
    let mut tx = begin(conn);
    match create_tables(&mut tx) {
        Ok(()) => {}
        Err(e) => return Err(unmade(&e)),
    }
    match commit(tx) {
        Ok(()) => Ok(()),
        Err(_) => Err(OpenFault::Store),
    }
}

// Makes the tables. Where they can't be made the store is asked for a table once more, so that it is known to be
// open and to have undone the transaction.
fn make_settled<S: Alter>(conn: &mut Connection<S>) -> Result<(), OpenFault>
    requires { conn.old.in_transaction ≡ false }
    ensures makes { MakesBank S.Store conn.old conn.new IsRefusedOnTheWay result }
    ensures same { HasCleanDisk (state S.Store conn.new)
        → IfErr result (LeavesAll (state S.Store conn.old) (state S.Store conn.new)) }
{
    note_settled(conn);
    let Err(fault) = make_tables(conn) else {
        return Ok(());
    };
    let Ok(_) = probe_table(conn, BankTable::Meta) else {
        return Err(OpenFault::Store);
    };
    Err(fault)
}

// Makes the tables where none of them is there.
fn make_bank<S: Alter>(conn: &mut Connection<S>) -> Result<(), OpenFault>
    requires { conn.old.in_transaction ≡ false }
    ensures blank { HasCleanDisk (state S.Store conn.new)
        → OnOk result (IsPresent (state S.Store conn.old).now all_probes Absent) }
    ensures makes { MakesBank S.Store conn.old conn.new IsTaken result }
    ensures same { HasCleanDisk (state S.Store conn.new)
        → IfErr result (LeavesAll (state S.Store conn.old) (state S.Store conn.new)) }
{
    match tables_there(conn)? {
        Presence::Absent => make_settled(conn),
        _ => Err(OpenFault::NotBlank),
    }
}

/// Makes a bank with no branch, in one transaction, beside whatever other tables the file has. These keep
/// their rows. A crash in the call leaves the file as it was or with the new bank.
///
/// The connection has to be outside a transaction, as a new one is.
///
/// # Errors
///
/// The connection comes back with each, outside a transaction.
///
/// - [`OpenFault::NotBlank`]: one of a bank's tables is there, or a statement that makes one is refused.
///   Nothing has changed.
/// - [`OpenFault::Store`]: a call of `sqlite` failed. Nothing has changed, as long as the store is open.
pub fn create<S: Alter>(alloc: Global, mut conn: Connection<S>) -> Result<Bank<S>, Refused<S>>
    requires { conn.in_transaction ≡ false }
    ensures made { IfOk result (IsNewBank S.Store conn) }
    ensures alloc { IfOk result (λ bank. alloc_of bank ≡ alloc) }
    ensures fault { IfErr result (λ refused. IsUnmade refused.fault) }
    ensures refused { IfErr result (λ refused. HasCleanDisk (state S.Store refused.conn)
        → refused.fault ≡ OpenFault.NotBlank → IsTaken (state S.Store conn)) }
    ensures cause { IfErr result (λ refused. KnowsWhyUnmade S.Store conn refused.conn refused.fault) }
    ensures empty { IfErr result (λ refused. HasCleanDisk (state S.Store refused.conn)
        → IsEmpty (state S.Store conn).now → refused.fault ≡ OpenFault.Store) }
    ensures back { IfErr result (IsGivenBack S.Store conn) }
    ensures survives { Survives (state S.Store conn) (state_in S.Store result)
        (HasNewBank (state S.Store conn).now) }
{
    match make_bank(&mut conn) {
        Ok(()) => Ok(Bank::over(alloc, conn)),
        Err(fault) => Err(Refused { fault, conn }),
    }
}
