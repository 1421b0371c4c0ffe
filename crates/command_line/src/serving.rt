//! What `serve` does with a bank.
ghost use Rattle.std.specs.Prelude.{⊤, ◌≡◌, ℕ, List, [], IfErr, IfOk, IfSome};
ghost use Rattle.std.specs.Result.{IsErrOf};
ghost use Rattle.counter_http.specs.Connections.{known_ends};
ghost use Rattle.command_line.specs.Working.{ServesAt, ServesOver, done_after};
ghost use Rattle.posting_core.specs.EndCalls.{HasWriteFailed};

use crate::{CommandFault, ListeningLine, print_listening};
use counter_http::{Clients, serve_together};
use posting_core::{Clock, Followed, Sink};
use shared_log::SharedLog;
use std::alloc::Global;
use std::io;
use std::net::SocketAddr;

/// What gives the clients that come to an address, and the log that machines share. It opens no file. A type of its own may
/// also know which clients are which address's.
pub trait Network {
    type Clients: Clients + Drop;

    type Log: SharedLog + Drop;

    /// The clients are those that come to this address, where it is known.
    ghost is_bound: { Self → List ℕ → Self.Clients → Type 0 } = { λ _ _ _. ⊤ };

    /// The clients that come to the address, and where it is bound: where it leaves the port open, with the one it got.
    ///
    /// # Errors
    ///
    /// Those of the system.
    fn bind(&self, address: &str) -> io::Result<(Self::Clients, SocketAddr)>
        ensures { IfOk result (λ it. is_bound self.now address.now it.0) };

    /// The log is the one under this name that this member of a quorum tells of, where it is known.
    ghost is_shared: { Self → List ℕ → List ℕ → Self.Log → Type 0 } = { λ _ _ _ _. ⊤ };

    /// The log under a name, by a member at a host and a port, of which nothing is known yet; none where nobody answers
    /// there, or memory is refused.
    fn share(&self, member: &str, name: &str) -> Option<Self::Log>
        ensures shared { IfSome result (is_shared self.now member.now name.now) }
        ensures fresh { IfSome result (λ log. IfSome (Self.Log.known log) (λ entries. entries ≡ [])) };

    /// Whether a machine that stands by is to serve from now on. It waits a while before it says no.
    fn is_turn(&self) -> bool;
}

/// Binds the address, prints where it listens, and serves so many clients by a bank.
pub fn listen<N: Network, C: Followed, W: Sink, K: Clock>(
    alloc: Global,
    network: &N,
    address: &str,
    connections: u64,
    bank: &mut C,
    output: &mut W,
    clock: &mut K,
) -> Result<(), CommandFault>
    ensures serves { ServesOver C.seen C.reason (N.is_bound network.now address.now)
        (known_ends N.Clients.Reader.remaining N.Clients.Reader.calls N.Clients.Reader.beside N.Clients.Writer.contents
        N.Clients.Writer.calls) N.Clients.calls (K.readings clock.old) (K.readings clock.new)
        (W.contents output.old) (W.contents output.new) connections (λ end. done_after result ≡ end)
        bank.old bank.new }
    ensures unprinted { IsErrOf result CommandFault.Write
        → HasWriteFailed (W.calls output.old) (W.calls output.new) }
    ensures spares { C.spares bank.old bank.new }
{
    let (mut clients, line) = bind(network, address)?;
    serve_at(alloc, &mut clients, &line, connections, bank, output, clock)
}

// The clients that come to the address, and the line that says where it is bound.
fn bind<N: Network>(network: &N, address: &str) -> Result<(N::Clients, ListeningLine), CommandFault>
    ensures bound { IfOk result (λ it. N.is_bound network.now address.now it.0) }
    ensures fault { IfErr result (λ fault. fault ≡ CommandFault.Network) }
{
    let Ok((clients, bound)) = network.bind(address) else {
        return Err(CommandFault::Network);
    };
    match ListeningLine::new(bound) {
        Some(line) => Ok((clients, line)),
        None => Err(CommandFault::Network),
    }
}

// Prints where clients come to, and serves so many of them by a bank.
fn serve_at<D: Clients, C: Followed, W: Sink, K: Clock>(
    alloc: Global,
    clients: &mut D,
    line: &ListeningLine,
    connections: u64,
    bank: &mut C,
    output: &mut W,
    clock: &mut K,
) -> Result<(), CommandFault>
    ensures serves { ServesAt C.seen C.reason
        (known_ends D.Reader.remaining D.Reader.calls D.Reader.beside D.Writer.contents D.Writer.calls)
        (D.calls clients.old) (D.calls clients.new) line.now (K.readings clock.old) (K.readings clock.new)
        (W.contents output.old) (W.contents output.new) connections (λ end. done_after result ≡ end)
        bank.old bank.new }
    ensures unprinted { IsErrOf result CommandFault.Write
        → HasWriteFailed (W.calls output.old) (W.calls output.new) }
    ensures spares { C.spares bank.old bank.new }
{
    print_listening(line, output)?;
    serve_together(alloc, clients, connections, clock, bank)?;
    Ok(())
}
