//! The first program of `counter_http/src/tcp_clients`.
use counter_http::{TcpClients, Unwatched, serve_together};
use message_records::Branch;
use posting_core::{Counter, PlainBank, StoredClock};
use std::io::{self, Read, Write};
use std::net::{Shutdown, TcpListener, TcpStream};

pub fn first_connections<R: Read, W: Write>(
    rt: &HostRuntime,
    input: &mut R,
    output: &mut W,
) -> Result<(), anyhow::Error> {
    let mut bank = PlainBank::new(rt.alloc());
    bank.open_branch(Branch::new(1).unwrap(), 3, None)?;
    bank.open_branch(Branch::new(2).unwrap(), 2, None)?;
    let mut clock = StoredClock::new(Vec::new(rt.alloc()));
    let listener = TcpListener::bind(rt, "127.0.0.1:0")?; // any port that is free
    let silent = TcpStream::connect(rt, listener.local_addr()?)?;
    silent.shutdown(Shutdown::Write)?;
    let client = TcpStream::connect(rt, listener.local_addr()?)?;
    io::copy(input, &mut &client)?;
    client.shutdown(Shutdown::Write)?;
    let mut clients = TcpClients::new(rt.alloc(), listener, rt, Unwatched)?;
    serve_together(rt.alloc(), &mut clients, 2, &mut clock, &mut bank)?;
    io::copy(&mut &silent, output)?; // nothing
    io::copy(&mut &client, output)?;
    Ok(())
}
