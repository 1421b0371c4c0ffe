//! The command that serves the counter over HTTP, each posting once a quorum has its entry.
ghost use Rattle.std.specs.Prelude.{◌≡◌, IsErrOf, false};
ghost use Rattle.counter_http.specs.Connections.{known_ends};
ghost use Rattle.posting_core.specs.EndCalls.{HasWriteFailed};
ghost use Rattle.bank_commands.specs.Sharing.{SharesOver};

use crate::commands::done;
use crate::ended::{Ended, find};
use bank_replays::Watch;
use branch_loader::FollowWatch;
use command_line::{CommandFault, Network, Sharing, listen_shared};
use posting_core::{Clock, Sink};
use sqlite::{Alter, Connection};
use sqlite_trees::store::Store;
use std::alloc::Global;

/// Takes the bank that is found to the end of the log that a quorum keeps under a name, binds the address, and serves so
/// many clients by it: each is answered once the quorum has its entry.
pub fn share_over<S: Alter + Drop, N: Network, W: Sink, K: Clock, V: Watch + FollowWatch + Drop>(
    alloc: Global,
    conn: Connection<S>,
    network: &N,
    sharing: &Sharing<'_>,
    address: &str,
    connections: u64,
    output: &mut W,
    clock: &mut K,
    mut watch: V,
) -> Ended<S>
    requires { conn.in_transaction ≡ false }
    ensures serves { SharesOver S.Store conn result.conn (N.is_shared network.now sharing.now.member.now sharing.now.name.now) N.Log.known
        (N.is_bound network.now address.now)
        (known_ends N.Clients.Reader.remaining N.Clients.Reader.calls N.Clients.Reader.beside N.Clients.Writer.contents
        N.Clients.Writer.calls) N.Clients.calls (W.contents output.old) (W.contents output.new)
        (K.readings clock.old) (K.readings clock.new) connections result.end }
    ensures unprinted { IsErrOf result.end CommandFault.Write
        → HasWriteFailed (W.calls output.old) (W.calls output.new) }
    ensures idle { result.conn.in_transaction ≡ false }
{
    let bank = match find(alloc, conn) {
        Ok(bank) => bank,
        Err(ended) => return ended,
    };
    let (bank, served) = listen_shared(
        alloc,
        network,
        sharing,
        address,
        connections,
        bank,
        output,
        clock,
        &mut watch,
    );
    watch.ended();
    let end = done(served);
    Ended {
        end,
        conn: bank.release(),
    }
}
