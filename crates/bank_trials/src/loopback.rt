//! Clients of a bank that is served on a port of loopback.
ghost use Rattle.std.specs.Prelude.{◌≡◌, false};

use bank_commands::{Ended, find, serve_found};
use command_line::Network;
use counter_http::{ServeWatch, TcpClients};
use posting_core::{ENTRY_BYTES, StoredClock};
use shared_log::{LogFault, SharedLog};
use sqlite::{Alter, Connection};
use std::alloc::{Alloc, Global};
use std::cell::Cell;
use std::io;
use std::net::{Shutdown, SocketAddr, TcpListener, TcpStream};

/// A network on which each client has sent its message, once a listener is bound.
#[derive(Drop)]
pub struct Clients<'a> {
    rt: &'a HostRuntime,
    messages: Vec<String>,
    streams: Cell<Option<Vec<TcpStream>>>,
}

impl<'a> Clients<'a> {
    /// Clients with these messages.
    pub fn new(rt: &'a HostRuntime, messages: Vec<String>) -> Self {
        Clients {
            rt,
            messages,
            streams: Cell::new(None),
        }
    }

    /// Their connections, in the order of their messages, once they have sent them.
    pub fn streams(&self) -> Option<Vec<TcpStream>> {
        self.streams.take()
    }
}

impl<'a> Alloc for Clients<'a> {
    type A = Global;

    fn alloc(&self) -> Global {
        self.rt.alloc()
    }
}

impl<'a> Network for Clients<'a> {
    type Clients = TcpClients<'a, HostRuntime, Unseen>;

    type Log = NoLog;

    fn bind(&self, address: &str) -> io::Result<(Self::Clients, SocketAddr)> {
        let listener = TcpListener::bind(self.rt, address)?;
        let bound = listener.local_addr()?;
        let streams = send_all(self.rt, bound, self.messages.as_slice())?;
        self.streams.set(Some(streams));
        Ok((
            TcpClients::new(self.rt.alloc(), listener, self.rt, Unseen)?,
            bound,
        ))
    }

    fn share(&self, _member: &str, _name: &str) -> Option<NoLog> {
        None
    }

    fn is_turn(&self) -> bool {
        true
    }
}

/// No machines share a log here.
#[derive(Drop)]
pub struct NoLog;

impl SharedLog for NoLog {
    fn count(&self) -> u64 {
        0
    }

    fn append(&mut self, _entries: &[[u8; ENTRY_BYTES]]) -> Result<(), LogFault> {
        Err(LogFault::Unanswered)
    }

    fn read(&mut self) -> Result<Vec<[u8; ENTRY_BYTES]>, LogFault> {
        Err(LogFault::Unanswered)
    }
}

// Nobody watches.
#[derive(Drop)]
pub struct Unseen;

impl ServeWatch for Unseen {
    fn served(&mut self, _connected: usize, _postings: u64) {}

    fn lacking(&mut self, _error: &io::Error) {}

    fn ended(&mut self) {}
}

fn send_all(
    rt: &HostRuntime,
    address: SocketAddr,
    messages: &[String],
) -> io::Result<Vec<TcpStream>> {
    let mut streams = Vec::new(rt.alloc());
    for message in messages {
        streams.push(send(rt, address, message.as_str())?)?;
    }
    Ok(streams)
}

// A client sends its message, and ends its side.
fn send(rt: &HostRuntime, address: SocketAddr, message: &str) -> io::Result<TcpStream> {
    let stream = TcpStream::connect(rt, address)?;
    io::copy(&mut message.as_bytes(), &mut &stream)?;
    stream.shutdown(Shutdown::Write)?;
    Ok(stream)
}

/// What has come to a client.
pub fn taken(rt: &HostRuntime, mut stream: &TcpStream) -> io::Result<Vec<u8>> {
    let mut taken: Vec<u8> = Vec::new(rt.alloc());
    io::copy(&mut stream, &mut taken)?;
    Ok(taken)
}

/// Serves the clients by the bank of a connection.
pub fn serve_clients<S: Alter + Drop>(
    clients: &Clients<'_>,
    conn: Connection<S>,
    output: &mut Vec<u8>,
) -> Ended<S>
    requires { conn.in_transaction ≡ false }
    ensures { result.conn.in_transaction ≡ false }
{
    let alloc = clients.alloc();
    let mut clock = StoredClock::new(Vec::new(alloc));
    let count = clients.messages.len() as u64;
    let mut bank = match find(alloc, conn) {
        Ok(bank) => bank,
        Err(ended) => return ended,
    };
    let end = serve_found(
        alloc,
        &mut bank,
        clients,
        "127.0.0.1:0",
        count,
        output,
        &mut clock,
    );
    Ended {
        end,
        conn: bank.release(),
    }
}
