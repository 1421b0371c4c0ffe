//! A task over a connection: the one place where each work with a bank is named.
ghost use Rattle.std.specs.Prelude.{◌≡◌, IsErrOf, false};
ghost use Rattle.posting_core.specs.EndCalls.{HasWriteFailed};
ghost use Rattle.counter_http.specs.Connections.{known_ends};
ghost use Rattle.bank_store.specs.OpenBankSparing.{SparesWhileOpen};
ghost use Rattle.bank_store.specs.believed.Seen.{connection_of};
ghost use Rattle.command_line.specs.CommandLine.{IsTaskInRange, IsWorkInRange};
ghost use Rattle.command_line.specs.Working.{known_source};
ghost use Rattle.bank_commands.specs.Doing.{DoesOver, WorkLeaves, Works};

use crate::commands::{drive_found, init_over, load_found, post_found, seal_found};
use crate::ended::{Ended, find};
use crate::following::{follow_found, log_found};
use crate::migration::migrate_over;
use crate::replaying::{digest_found, export_found, plan_found, replay_found};
use crate::reports::{audit_found, statement_found, statements_found};
use crate::serving::serve_found;
use crate::sharing::share_over;
use bank_replays::Watch;
use bank_store::Bank;
use branch_loader::FollowWatch;
use command_line::{CommandFault, Network, Plans, Sharing, Status, Task, Work};
use posting_core::{Clock, Sink, Source};
use sqlite::{Alter, Connection};
use sqlite_trees::store::Store;
use std::alloc::Global;

/// Does the task over a connection, and hands that back. It reaches plans by their names, the network, and who watches a
/// replay or a log that is followed, and no file.
pub fn command_over<
    S: Alter + Drop,
    P: Plans,
    N: Network,
    V: Watch + FollowWatch + Drop,
    R: Source,
    W: Sink,
    K: Clock,
>(
    alloc: Global,
    conn: Connection<S>,
    task: &Task<'_>,
    plans: &P,
    network: &N,
    watch: V,
    input: &mut R,
    output: &mut W,
    clock: &mut K,
) -> Ended<S>
    requires mode { conn.in_transaction ≡ false }
    requires range { IsTaskInRange task.now }
    ensures does { DoesOver S.Store (P.is_named plans.now) (known_source P.Plan.remaining P.Plan.calls)
        (N.is_bound network.now) (known_ends N.Clients.Reader.remaining N.Clients.Reader.calls N.Clients.Reader.beside
        N.Clients.Writer.contents N.Clients.Writer.calls) N.Clients.calls (N.is_shared network.now) N.Log.known
        task.now conn result.conn (known_ends R.remaining R.calls R.beside W.contents W.calls (input.old, output.old))
        (known_ends R.remaining R.calls R.beside W.contents W.calls (input.new, output.new))
        (K.readings clock.old) (K.readings clock.new)
        result.end }
    ensures unprinted { IsErrOf result.end CommandFault.Write
        → HasWriteFailed (W.calls output.old) (W.calls output.new) }
    ensures idle { result.conn.in_transaction ≡ false }
{
    match task {
        Task::Init => init_over(alloc, conn, output),
        Task::Migrate => migrate_over(alloc, conn, output),
        Task::Share {
            address,
            connections,
            member,
            name,
            stands_by,
        } => {
            let sharing = Sharing {
                member: *member,
                name: *name,
                stands_by: *stands_by,
            };
            let most = connections.unwrap_or(u64::MAX);
            share_over(
                alloc, conn, network, &sharing, *address, most, output, clock, watch,
            )
        }
        Task::With(work) => work_over(
            alloc, conn, work, plans, network, watch, input, output, clock,
        ),
    }
}

// Works with the bank that is found.
fn work_over<
    S: Alter + Drop,
    P: Plans,
    N: Network,
    V: Watch + FollowWatch + Drop,
    R: Source,
    W: Sink,
    K: Clock,
>(
    alloc: Global,
    conn: Connection<S>,
    work: &Work<'_>,
    plans: &P,
    network: &N,
    watch: V,
    input: &mut R,
    output: &mut W,
    clock: &mut K,
) -> Ended<S>
    requires mode { conn.in_transaction ≡ false }
    requires range { IsWorkInRange work.now }
    ensures does { DoesOver S.Store (P.is_named plans.now) (known_source P.Plan.remaining P.Plan.calls)
        (N.is_bound network.now) (known_ends N.Clients.Reader.remaining N.Clients.Reader.calls N.Clients.Reader.beside
        N.Clients.Writer.contents N.Clients.Writer.calls) N.Clients.calls (N.is_shared network.now) N.Log.known
        (Task.With work.now) conn result.conn (known_ends R.remaining R.calls R.beside W.contents W.calls (input.old, output.old))
        (known_ends R.remaining R.calls R.beside W.contents W.calls (input.new, output.new))
        (K.readings clock.old) (K.readings clock.new)
        result.end }
    ensures unprinted { IsErrOf result.end CommandFault.Write
        → HasWriteFailed (W.calls output.old) (W.calls output.new) }
    ensures idle { result.conn.in_transaction ≡ false }
{
    let mut bank = match find(alloc, conn) {
        Ok(bank) => bank,
        Err(ended) => return ended,
    };
    let end = work_found(
        alloc, &mut bank, work, plans, network, watch, input, output, clock,
    );
    Ended {
        end,
        conn: bank.release(),
    }
}

// Works with a bank.
fn work_found<
    S: Alter + Drop,
    P: Plans,
    N: Network,
    V: Watch + FollowWatch + Drop,
    R: Source,
    W: Sink,
    K: Clock,
>(
    alloc: Global,
    bank: &mut Bank<S>,
    work: &Work<'_>,
    plans: &P,
    network: &N,
    watch: V,
    input: &mut R,
    output: &mut W,
    clock: &mut K,
) -> Result<Status, CommandFault>
    requires { IsWorkInRange work.now }
    ensures does { Works S.Store (P.is_named plans.now) (known_source P.Plan.remaining P.Plan.calls)
        (N.is_bound network.now) (known_ends N.Clients.Reader.remaining N.Clients.Reader.calls N.Clients.Reader.beside
        N.Clients.Writer.contents N.Clients.Writer.calls) N.Clients.calls (N.is_shared network.now) N.Log.known
        work.now (known_ends R.remaining R.calls R.beside W.contents W.calls (input.old, output.old))
        (known_ends R.remaining R.calls R.beside W.contents W.calls (input.new, output.new))
        (K.readings clock.old) (K.readings clock.new)
        bank.old bank.new result }
    ensures leaves { WorkLeaves work.now (known_ends R.remaining R.calls R.beside W.contents W.calls (input.old, output.old))
        (known_ends R.remaining R.calls R.beside W.contents W.calls (input.new, output.new))
        (K.readings clock.old) (K.readings clock.new) }
    ensures unprinted { IsErrOf result CommandFault.Write
        → HasWriteFailed (W.calls output.old) (W.calls output.new) }
    ensures spares { SparesWhileOpen S.Store (connection_of bank.old) (connection_of bank.new) }
{
    match *work {
        Work::Load { plan } => load_found(alloc, bank, plans, plan, output),
        Work::Post => post_found(bank, input, output, clock),
        Work::Drive { seed, count } => drive_found(alloc, bank, seed, count, output, clock),
        Work::Audit => audit_found(bank, output),
        Work::Statement { account, query } => statement_found(bank, account, query, output),
        Work::Statements { query } => statements_found(bank, query, output),
        Work::Replay => replay_found(alloc, bank, output, watch),
        Work::Digest { requests } => digest_found(alloc, bank, requests, output),
        Work::Export { after } => export_found(bank, after, output),
        Work::Log { after } => log_found(bank, after, output),
        Work::Plan => plan_found(bank, output),
        Work::Seal => seal_found(bank, output),
        Work::Follow { plan } => follow_found(alloc, bank, plans, plan, input, output, watch),
        Work::Serve {
            address,
            connections,
        } => {
            let most = connections.unwrap_or(u64::MAX);
            serve_found(alloc, bank, network, address, most, output, clock)
        }
    }
}
