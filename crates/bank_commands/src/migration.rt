//! The command that carries a bank of an older version over to this one.
ghost use Rattle.std.specs.Prelude.{◌≡◌, IsErrOf, OnErr, false};
ghost use Rattle.posting_core.specs.EndCalls.{HasWriteFailed};
ghost use Rattle.command_line.specs.Lines.{PrintsLine};
ghost use Rattle.bank_commands.specs.Commands.{Migrates, migration_line};

use crate::commands::done;
use crate::ended::{Ended, refuse};
use bank_store::{Migrated, migrate};
use command_line::{CommandFault, print_already, print_migrated};
use posting_core::Sink;
use sqlite::{Alter, Connection};
use sqlite_trees::store::Store;
use std::alloc::Global;
use store_rows::VERSION;

/// Carries the bank that is found over to this version, and prints which version it had. A bank of this version
/// stays as it is.
pub fn migrate_over<S: Alter + Drop, W: Sink>(
    alloc: Global,
    conn: Connection<S>,
    output: &mut W,
) -> Ended<S>
    requires { conn.in_transaction ≡ false }
    ensures migrates { Migrates S.Store conn result.conn (W.contents output.old) (W.contents output.new)
        result.end }
    ensures unprinted { IsErrOf result.end CommandFault.Write
        → HasWriteFailed (W.calls output.old) (W.calls output.new) }
    ensures idle { result.conn.in_transaction ≡ false }
{
    let (bank, migrated) = match migrate(alloc, conn) {
        Ok(done) => done,
        Err(refused) => return refuse(refused),
    };
    let end = done(print_answer(migrated, output));
    Ended {
        end,
        conn: bank.release(),
    }
}

// Prints which version the bank had.
fn print_answer<W: Sink>(migrated: Migrated, output: &mut W) -> Result<(), CommandFault>
    ensures prints { PrintsLine (migration_line migrated) (W.contents output.old) (W.contents output.new)
        (W.calls output.old) (W.calls output.new) result }
    ensures fault { OnErr result (IsErrOf result CommandFault.Write) }
    ensures failed { OnErr result (HasWriteFailed (W.calls output.old) (W.calls output.new)) }
{
    match migrated {
        Migrated::Moved(from) => print_migrated(from, VERSION, output),
        Migrated::Already => print_already(VERSION, output),
    }
}
