//! The works that replay a bank, and that write what its requests and its branches come to.
ghost use Rattle.std.specs.Prelude.{◌≡◌, IsErrOf};
ghost use Rattle.posting_core.specs.EndCalls.{HasWriteFailed};
ghost use Rattle.bank_store.specs.OpenBankSparing.{SparesWhileOpen};
ghost use Rattle.bank_store.specs.believed.Seen.{connection_of};
ghost use Rattle.bank_commands.specs.Replaying.{DigestsFound, Exports, PrintsDigest, PrintsReplay, ReplaysFound};
ghost use Rattle.bank_commands.specs.Replaying.{WritesPlanOf, ended_by_writing, ended_with};

use bank_replays::{Digest, Replay, ReplayFault, Watch, digest, export, replay, write_plan};
use bank_store::Bank;
use command_line::{CommandFault, Status, print_agreeing, print_differing, print_digest};
use posting_core::{Fault, Sink};
use sqlite::Alter;
use sqlite_trees::store::Store;
use std::alloc::Global;

/// Replays the bank that was found, and prints the digests of its requests, its plan and its closed numbers, or the first
/// difference.
/// `watch` is told how far it is.
pub fn replay_found<S: Alter + Drop, W: Sink, P: Watch + Drop>(
    alloc: Global,
    bank: &mut Bank<S>,
    output: &mut W,
    watch: P,
) -> Result<Status, CommandFault>
    ensures replays { ReplaysFound S.Store (W.contents output.old) (W.contents output.new)
        (W.calls output.old) (W.calls output.new) bank.old bank.new result }
    ensures unprinted { IsErrOf result CommandFault.Write
        → HasWriteFailed (W.calls output.old) (W.calls output.new) }
    ensures spares { SparesWhileOpen S.Store (connection_of bank.old) (connection_of bank.new) }
{
    print_replay(alloc, replay(bank, watch), output)
}

/// Prints the digest of the first so many requests of the bank that was found.
pub(crate) fn digest_found<S: Alter + Drop, W: Sink>(
    alloc: Global,
    bank: &mut Bank<S>,
    requests: u64,
    output: &mut W,
) -> Result<Status, CommandFault>
    ensures digests { DigestsFound S.Store requests (W.contents output.old) (W.contents output.new)
        (W.calls output.old) (W.calls output.new) bank.old bank.new result }
    ensures unprinted { IsErrOf result CommandFault.Write
        → HasWriteFailed (W.calls output.old) (W.calls output.new) }
    ensures spares { SparesWhileOpen S.Store (connection_of bank.old) (connection_of bank.new) }
{
    print_first(alloc, requests, digest(bank, requests), output)
}

/// Writes the requests after the first so many of the bank that was found as records.
pub(crate) fn export_found<S: Alter + Drop, W: Sink>(
    bank: &mut Bank<S>,
    after: u64,
    output: &mut W,
) -> Result<Status, CommandFault>
    ensures exports { Exports S.Store after (W.contents output.old) (W.contents output.new)
        (W.calls output.old) (W.calls output.new) bank.old bank.new result }
    ensures unprinted { IsErrOf result CommandFault.Write
        → HasWriteFailed (W.calls output.old) (W.calls output.new) }
    ensures spares { SparesWhileOpen S.Store (connection_of bank.old) (connection_of bank.new) }
{
    written(export(bank, after, output))
}

/// Writes the open branches of the bank that was found as a plan.
pub(crate) fn plan_found<S: Alter + Drop, W: Sink>(
    bank: &mut Bank<S>,
    output: &mut W,
) -> Result<Status, CommandFault>
    ensures plans { WritesPlanOf S.Store (W.contents output.old) (W.contents output.new)
        (W.calls output.old) (W.calls output.new) bank.old bank.new result }
    ensures unprinted { IsErrOf result CommandFault.Write
        → HasWriteFailed (W.calls output.old) (W.calls output.new) }
    ensures spares { SparesWhileOpen S.Store (connection_of bank.old) (connection_of bank.new) }
{
    written(write_plan(bank, output))
}

// Prints what a replay found.
fn print_replay<W: Sink>(
    alloc: Global,
    answer: Result<Replay, Fault>,
    output: &mut W,
) -> Result<Status, CommandFault>
    ensures { PrintsReplay answer (W.contents output.old) (W.contents output.new)
        (W.calls output.old) (W.calls output.new) result }
{
    let found = match answer {
        Ok(found) => found,
        Err(fault) => return Err(CommandFault::from(fault)),
    };
    match found {
        Replay::Agrees(agreed) => {
            let digest = agreed.digest;
            let printed = print_agreeing(
                alloc,
                digest.requests,
                &digest.sha256,
                &agreed.plan,
                &agreed.closings,
                output,
            );
            ended(Status::Done, printed)
        }
        Replay::Differs(difference) => {
            ended(Status::Differs, print_differing(alloc, difference, output))
        }
    }
}

// Prints the digest of the first requests.
fn print_first<W: Sink>(
    alloc: Global,
    requests: u64,
    answer: Result<Option<Digest>, Fault>,
    output: &mut W,
) -> Result<Status, CommandFault>
    ensures { PrintsDigest requests answer (W.contents output.old) (W.contents output.new)
        (W.calls output.old) (W.calls output.new) result }
{
    let found = match answer {
        Ok(found) => found,
        Err(fault) => return Err(CommandFault::from(fault)),
    };
    match found {
        Some(digest) => {
            let printed = print_digest(alloc, digest.requests, &digest.sha256, output);
            ended(Status::Done, printed)
        }
        None => Err(CommandFault::NoRequest(requests)),
    }
}

// How the program ends with this status, once its lines are printed.
fn ended(status: Status, printed: Result<(), CommandFault>) -> Result<Status, CommandFault>
    ensures { result ≡ ended_with status printed }
{
    match printed {
        Ok(()) => Ok(status),
        Err(fault) => Err(fault),
    }
}

// How it ends after records or a plan.
fn written(end: Result<(), ReplayFault>) -> Result<Status, CommandFault>
    ensures { result ≡ ended_by_writing end }
{
    match end {
        Ok(()) => Ok(Status::Done),
        Err(ReplayFault::Write) => Err(CommandFault::Write),
        Err(ReplayFault::Bank(fault)) => Err(CommandFault::from(fault)),
    }
}
