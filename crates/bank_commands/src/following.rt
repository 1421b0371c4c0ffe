//! The works that write the log of a bank, and that take a bank along the log of another one.
ghost use Rattle.std.specs.Prelude.{◌≡◌, IsErrOf};
ghost use Rattle.posting_core.specs.EndCalls.{HasWriteFailed};
ghost use Rattle.bank_store.specs.OpenBankSparing.{SparesWhileOpen};
ghost use Rattle.bank_store.specs.believed.Seen.{connection_of};
ghost use Rattle.command_line.specs.Working.{known_source};
ghost use Rattle.bank_commands.specs.Following.{Follows, FollowsCounting, Logs, ended_by_log};

use crate::commands::done;
use bank_replays::{ReplayFault, Watch, count_requests, write_log};
use bank_store::Bank;
use branch_loader::FollowWatch;
use command_line::{CommandFault, Plans, Status, follow_into};
use posting_core::{Sink, Source};
use sqlite::Alter;
use sqlite_trees::store::Store;
use std::alloc::Global;

/// Writes the requests after the first so many of the bank that was found as entries of a log.
pub(crate) fn log_found<S: Alter + Drop, W: Sink>(
    bank: &mut Bank<S>,
    after: u64,
    output: &mut W,
) -> Result<Status, CommandFault>
    ensures logs { Logs S.Store after (W.contents output.old) (W.contents output.new)
        (W.calls output.old) (W.calls output.new) bank.old bank.new result }
    ensures unprinted { IsErrOf result CommandFault.Write
        → HasWriteFailed (W.calls output.old) (W.calls output.new) }
    ensures spares { SparesWhileOpen S.Store (connection_of bank.old) (connection_of bank.new) }
{
    logged(after, write_log(bank, after, output))
}

/// Takes the bank that was found along the log of another one, whose entries are the input, by the plan of a name.
/// `watch` is told how far it is.
pub(crate) fn follow_found<
    S: Alter + Drop,
    P: Plans,
    R: Source,
    W: Sink,
    V: Watch + FollowWatch + Drop,
>(
    alloc: Global,
    bank: &mut Bank<S>,
    plans: &P,
    plan: &str,
    input: &mut R,
    output: &mut W,
    mut watch: V,
) -> Result<Status, CommandFault>
    ensures follows { Follows S.Store (P.is_named plans.now plan.now) (known_source P.Plan.remaining P.Plan.calls)
        (R.remaining input.old) (R.remaining input.new) (R.calls input.old) (R.calls input.new)
        (W.contents output.old) (W.contents output.new) bank.old bank.new result }
    ensures unprinted { IsErrOf result CommandFault.Write
        → HasWriteFailed (W.calls output.old) (W.calls output.new) }
    ensures spares { SparesWhileOpen S.Store (connection_of bank.old) (connection_of bank.new) }
{
    let end = follow_counting(alloc, bank, plans, plan, input, output, &mut watch);
    watch.ended();
    done(end)
}

// Counts its requests, and does so.
fn follow_counting<S: Alter + Drop, P: Plans, R: Source, W: Sink, V: FollowWatch>(
    alloc: Global,
    bank: &mut Bank<S>,
    plans: &P,
    plan: &str,
    input: &mut R,
    output: &mut W,
    watch: &mut V,
) -> Result<(), CommandFault>
    ensures follows { FollowsCounting S.Store (P.is_named plans.now plan.now)
        (known_source P.Plan.remaining P.Plan.calls) (R.remaining input.old) (R.remaining input.new)
        (R.calls input.old) (R.calls input.new) (W.contents output.old) (W.contents output.new)
        bank.old bank.new result }
    ensures unprinted { IsErrOf result CommandFault.Write
        → HasWriteFailed (W.calls output.old) (W.calls output.new) }
    ensures spares { SparesWhileOpen S.Store (connection_of bank.old) (connection_of bank.new) }
{
    let requests = count_requests(bank)?;
    follow_into(alloc, plans, plan, requests, input, bank, output, watch)
}

// How the program ends after the entries that come after so many.
fn logged(after: u64, end: Result<u64, ReplayFault>) -> Result<Status, CommandFault>
    ensures { result ≡ ended_by_log after end }
{
    match end {
        Ok(requests) => {
            if requests < after {
                Err(CommandFault::NoRequest(after))
            } else {
                Ok(Status::Done)
            }
        }
        Err(ReplayFault::Write) => Err(CommandFault::Write),
        Err(ReplayFault::Bank(fault)) => Err(CommandFault::from(fault)),
    }
}
