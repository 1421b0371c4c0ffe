//! The command that makes a bank over a connection, and the works that open branches of one, post to it and seal it.
ghost use Rattle.std.specs.Prelude.{◌≡◌, ◌≤◌, Result, IsErrOf, false};
ghost use Rattle.posting_core.specs.EndCalls.{HasWriteFailed};
ghost use Rattle.bank_store.specs.OpenBankSparing.{SparesWhileOpen};
ghost use Rattle.bank_store.specs.believed.Seen.{connection_of};
ghost use Rattle.load_driver.specs.declared.drive.TheConstants.{MAX_DRIVEN};
ghost use Rattle.command_line.specs.Working.{done_after, ended_by_load, known_source};
ghost use Rattle.bank_commands.specs.Commands.{DrivesBank, Inits, Loads, Posts, PrintsSeal, Seals, ended_by};

use crate::ended::{Ended, refuse};
use bank_store::{Bank, Closing, create};
use branch_loader::Loaded;
use command_line::{
    CommandFault, Plans, Status, drive_into, load_into, print_created, print_sealed,
};
use load_driver::MAX_DRIVEN;
use posting_core::{Clock, Count, Fault, Sink, Source, StreamFault, post_stream};
use sqlite::{Alter, Connection};
use sqlite_trees::store::Store;
use std::alloc::Global;

/// Makes a bank, and prints `created`.
pub fn init_over<S: Alter + Drop, W: Sink>(
    alloc: Global,
    conn: Connection<S>,
    output: &mut W,
) -> Ended<S>
    requires { conn.in_transaction ≡ false }
    ensures inits { Inits S.Store conn result.conn (W.contents output.old) (W.contents output.new) result.end }
    ensures unprinted { IsErrOf result.end CommandFault.Write
        → HasWriteFailed (W.calls output.old) (W.calls output.new) }
    ensures idle { result.conn.in_transaction ≡ false }
{
    let bank = match create(alloc, conn) {
        Ok(bank) => bank,
        Err(refused) => return refuse(refused),
    };
    let end = done(print_created(output));
    Ended {
        end,
        conn: bank.release(),
    }
}

/// Opens the branches of the plan of a name in the bank that was found, and prints how many got each answer.
pub fn load_found<S: Alter + Drop, P: Plans, W: Sink>(
    alloc: Global,
    bank: &mut Bank<S>,
    plans: &P,
    plan: &str,
    output: &mut W,
) -> Result<Status, CommandFault>
    ensures loads { Loads S.Store (P.is_named plans.now plan.now) (known_source P.Plan.remaining P.Plan.calls)
        (W.contents output.old) (W.contents output.new) bank.old bank.new result }
    ensures unprinted { IsErrOf result CommandFault.Write
        → HasWriteFailed (W.calls output.old) (W.calls output.new) }
    ensures spares { SparesWhileOpen S.Store (connection_of bank.old) (connection_of bank.new) }
{
    loaded(load_into(alloc, plans, plan, bank, output))
}

/// Posts the records of the input to the bank that was found, and writes their replies.
pub fn post_found<S: Alter + Drop, R: Source, W: Sink, K: Clock>(
    bank: &mut Bank<S>,
    input: &mut R,
    output: &mut W,
    clock: &mut K,
) -> Result<Status, CommandFault>
    ensures posts { Posts S.Store (R.remaining input.old) (R.remaining input.new) (R.calls input.old)
        (R.calls input.new) (R.beside input.old) (R.beside input.new) (W.contents output.old) (W.contents output.new)
        (W.calls output.old) (W.calls output.new) (K.readings clock.old) (K.readings clock.new)
        bank.old bank.new result }
    ensures unprinted { IsErrOf result CommandFault.Write
        → HasWriteFailed (W.calls output.old) (W.calls output.new) }
    ensures spares { SparesWhileOpen S.Store (connection_of bank.old) (connection_of bank.new) }
{
    posted(post_stream(input, output, clock, bank))
}

/// Posts the first `count` records of a seed over the open branches of the bank that was found, and prints how many
/// were posted.
pub(crate) fn drive_found<S: Alter + Drop, W: Sink, K: Clock>(
    alloc: Global,
    bank: &mut Bank<S>,
    seed: u64,
    count: u64,
    output: &mut W,
    clock: &mut K,
) -> Result<Status, CommandFault>
    requires some { 1 ≤ count }
    requires few { count ≤ MAX_DRIVEN }
    ensures drives { DrivesBank S.Store (W.contents output.old) (W.contents output.new) (K.readings clock.old)
        (K.readings clock.new) seed count bank.old bank.new result }
    ensures unprinted { IsErrOf result CommandFault.Write
        → HasWriteFailed (W.calls output.old) (W.calls output.new) }
    ensures spares { SparesWhileOpen S.Store (connection_of bank.old) (connection_of bank.new) }
{
    done(drive_into(alloc, bank, seed, count, output, clock))
}

/// Seals the books of the bank that was found, and prints `sealed`, or `already sealed`.
pub(crate) fn seal_found<S: Alter + Drop, W: Sink>(
    bank: &mut Bank<S>,
    output: &mut W,
) -> Result<Status, CommandFault>
    ensures seals { Seals S.Store (W.contents output.old) (W.contents output.new) bank.old bank.new result }
    ensures unprinted { IsErrOf result CommandFault.Write
        → HasWriteFailed (W.calls output.old) (W.calls output.new) }
    ensures spares { SparesWhileOpen S.Store (connection_of bank.old) (connection_of bank.new) }
{
    print_seal(bank.seal(), output)
}

// Prints what a seal came to.
fn print_seal<W: Sink>(
    answer: Result<Closing, Fault>,
    output: &mut W,
) -> Result<Status, CommandFault>
    ensures prints { PrintsSeal answer (W.contents output.old) (W.contents output.new) result }
    ensures unprinted { IsErrOf result CommandFault.Write
        → HasWriteFailed (W.calls output.old) (W.calls output.new) }
{
    match answer {
        Ok(closing) => done(print_sealed(closing, output)),
        Err(fault) => Err(CommandFault::from(fault)),
    }
}

/// How the program ends after a work that has no status of its own.
pub(crate) fn done(end: Result<(), CommandFault>) -> Result<Status, CommandFault>
    ensures { result ≡ done_after end }
{
    match end {
        Ok(()) => Ok(Status::Done),
        Err(fault) => Err(fault),
    }
}

// How it ends after a plan was loaded.
fn loaded(end: Result<Loaded, CommandFault>) -> Result<Status, CommandFault>
    ensures { result ≡ ended_by_load end }
{
    match end {
        Ok(loaded) => Ok(Status::from(loaded)),
        Err(fault) => Err(fault),
    }
}

// How it ends after a stream of records.
fn posted(end: Result<Count, StreamFault>) -> Result<Status, CommandFault>
    ensures { result ≡ ended_by end }
{
    match end {
        Ok(_) => Ok(Status::Done),
        Err(fault) => Err(CommandFault::from(fault)),
    }
}
