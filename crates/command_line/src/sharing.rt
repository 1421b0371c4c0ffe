//! What `serve` does with a bank whose log other machines share.
ghost use Rattle.std.specs.Prelude.{◌≡◌, [], IfErr, IfOk, IfSome, OnOk};
ghost use Rattle.std.specs.Result.{IsErrOf};
ghost use Rattle.counter_http.specs.Connections.{known_ends};
ghost use Rattle.posting_core.specs.believed.EndCalls.{EndsWith};
ghost use Rattle.posting_core.specs.EndCalls.{HasWriteFailed, IsFlush};
ghost use Rattle.command_line.specs.Sharing.{JoinsFirst, ServesJoined, ServesShared};
ghost use Rattle.command_line.specs.Working.{done_after};
ghost use Rattle.shared_log.specs.Replicated.{counter_of, is_stopped, log_of};

use crate::serving::{Network, listen};
use crate::{CommandFault, print_joined};
use branch_loader::{FollowWatch, Plan};
use posting_core::{Clock, Followed, Sink};
use shared_log::{Replicated, SharedLog, Turn};
use std::alloc::Global;

/// A log that machines share, and how one of them joins the others.
#[derive(Clone, Copy)]
pub struct Sharing<'a> {
    /// A member of the quorum that keeps it, as a host and a port.
    pub member: &'a str,
    /// The log's name there.
    pub name: &'a str,
    /// It follows the log until it is its turn to serve.
    pub stands_by: bool,
}

// Whose turn it is, a network tells.
#[derive(Drop)]
struct NetworkTurn<'n, N> {
    network: &'n N,
    stands_by: bool,
}

impl<N: Network> Turn for NetworkTurn<'_, N> {
    fn is_here(&mut self) -> bool {
        !self.stands_by || self.network.is_turn()
    }
}

/// Takes a bank to the end of the log that a quorum keeps under a name, prints how far each went, binds the address and
/// serves so many clients: each is answered once the quorum has its entry. Hands the bank back.
pub fn listen_shared<N: Network, C: Followed + Drop, W: Sink, K: Clock, T: FollowWatch>(
    alloc: Global,
    network: &N,
    sharing: &Sharing<'_>,
    address: &str,
    connections: u64,
    bank: C,
    output: &mut W,
    clock: &mut K,
    watch: &mut T,
) -> (C, Result<(), CommandFault>)
    ensures serves { ServesShared C.seen C.spares C.reason (N.is_shared network.now sharing.now.member.now sharing.now.name.now)
        N.Log.known (N.is_bound network.now address.now)
        (known_ends N.Clients.Reader.remaining N.Clients.Reader.calls N.Clients.Reader.beside N.Clients.Writer.contents
        N.Clients.Writer.calls) N.Clients.calls (K.readings clock.old) (K.readings clock.new)
        (W.contents output.old) (W.contents output.new) connections (λ end. done_after result.1 ≡ end)
        bank result.0 }
    ensures unprinted { IsErrOf result.1 CommandFault.Write
        → HasWriteFailed (W.calls output.old) (W.calls output.new) }
    ensures spares { C.spares bank result.0 }
{
    let Some(log) = network.share(sharing.member, sharing.name) else {
        return (bank, Err(CommandFault::NoQuorum));
    };
    let stands_by = sharing.stands_by;
    let mut machine = Replicated::new(bank, log);
    let end = listen_joined(
        alloc,
        network,
        address,
        connections,
        &mut machine,
        output,
        clock,
        watch,
        &mut NetworkTurn { network, stands_by },
    );
    let (bank, _log) = machine.into_parts();
    (bank, end)
}

// The same by a machine that hasn't joined yet.
fn listen_joined<
    N: Network,
    C: Followed + Drop,
    L: SharedLog + Drop,
    W: Sink,
    K: Clock,
    T: FollowWatch,
    U: Turn,
>(
    alloc: Global,
    network: &N,
    address: &str,
    connections: u64,
    machine: &mut Replicated<C, L>,
    output: &mut W,
    clock: &mut K,
    watch: &mut T,
    turn: &mut U,
) -> Result<(), CommandFault>
    requires fresh { IfSome (L.known (log_of machine.old)) (λ entries. entries ≡ []) }
    requires stopped { is_stopped machine.old }
    ensures serves { ServesJoined C.seen C.spares C.reason L.known (N.is_bound network.now address.now)
        (known_ends N.Clients.Reader.remaining N.Clients.Reader.calls N.Clients.Reader.beside N.Clients.Writer.contents
        N.Clients.Writer.calls) N.Clients.calls (K.readings clock.old) (K.readings clock.new)
        (W.contents output.old) (W.contents output.new) connections (λ end. done_after result ≡ end)
        machine.old machine.new }
    ensures unprinted { IsErrOf result CommandFault.Write
        → HasWriteFailed (W.calls output.old) (W.calls output.new) }
    ensures spares { C.spares (counter_of machine.old) (counter_of machine.new) }
{
    join_others(alloc, machine, output, watch, turn)?;
    listen(alloc, network, address, connections, machine, output, clock)
}

// Joins the machines that share the log, and prints how far each went. No branch is opened on the way.
fn join_others<C: Followed + Drop, L: SharedLog + Drop, W: Sink, T: FollowWatch, U: Turn>(
    alloc: Global,
    machine: &mut Replicated<C, L>,
    output: &mut W,
    watch: &mut T,
    turn: &mut U,
) -> Result<(), CommandFault>
    requires fresh { IfSome (L.known (log_of machine.old)) (λ entries. entries ≡ []) }
    requires stopped { is_stopped machine.old }
    ensures joins { JoinsFirst C.seen C.spares L.known (W.contents output.old) (W.contents output.new) machine.old
        machine.new result }
    ensures flushed { OnOk result (EndsWith IsFlush (W.calls output.old) (W.calls output.new)) }
    ensures unprinted { IsErrOf result CommandFault.Write
        → HasWriteFailed (W.calls output.old) (W.calls output.new) }
    ensures spares { C.spares (counter_of machine.old) (counter_of machine.new) }
{
    let plan = empty_plan(alloc)?;
    let joined = machine.join(alloc, &plan, watch, turn)?;
    print_joined(joined, output)
}

// The plan of no branch.
fn empty_plan(alloc: Global) -> Result<Plan, CommandFault>
    ensures none { IfOk result (λ plan. plan ≡ []) }
    ensures fault { IfErr result (λ fault. fault ≡ CommandFault.Memory) }
{
    match Plan::from_list(Vec::new(alloc)) {
        Ok(plan) => Ok(plan),
        Err(_) => Err(CommandFault::Memory),
    }
}
