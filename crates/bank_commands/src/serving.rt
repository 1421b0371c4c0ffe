//! The work that serves the counter over HTTP.
ghost use Rattle.std.specs.Prelude.{IsErrOf};
ghost use Rattle.counter_http.specs.Connections.{known_ends};
ghost use Rattle.posting_core.specs.EndCalls.{HasWriteFailed};
ghost use Rattle.bank_store.specs.OpenBankSparing.{SparesWhileOpen};
ghost use Rattle.bank_store.specs.believed.Seen.{connection_of};
ghost use Rattle.bank_commands.specs.Commands.{Serves};

use crate::commands::done;
use bank_store::Bank;
use command_line::{CommandFault, Network, Status, listen};
use posting_core::{Clock, Sink};
use sqlite::Alter;
use sqlite_trees::store::Store;
use std::alloc::Global;

/// Binds the address, prints where it listens, and serves so many clients by the bank that was found, many at once.
pub fn serve_found<S: Alter + Drop, N: Network, W: Sink, K: Clock>(
    alloc: Global,
    bank: &mut Bank<S>,
    network: &N,
    address: &str,
    connections: u64,
    output: &mut W,
    clock: &mut K,
) -> Result<Status, CommandFault>
    ensures serves { Serves S.Store (N.is_bound network.now address.now)
        (known_ends N.Clients.Reader.remaining N.Clients.Reader.calls N.Clients.Reader.beside N.Clients.Writer.contents
        N.Clients.Writer.calls) N.Clients.calls (W.contents output.old) (W.contents output.new)
        (K.readings clock.old) (K.readings clock.new) connections bank.old bank.new result }
    ensures unprinted { IsErrOf result CommandFault.Write
        → HasWriteFailed (W.calls output.old) (W.calls output.new) }
    ensures spares { SparesWhileOpen S.Store (connection_of bank.old) (connection_of bank.new) }
{
    done(listen(alloc, network, address, connections, bank, output, clock))
}
