//! Tellers who are served at once, each over a connection of its own on a port of loopback.
ghost use Rattle.std.specs.Prelude.{◌≡◌, false};

use crate::loopback::{Clients, serve_clients, taken};
use anyhow::{Context, Result, ensure};
use bank_commands::{Ended, find, replay_found};
use bank_replays::Unwatched;
use sqlite::{Alter, Connection, FileStore};
use sqlite_disk::Disk;
use std::alloc::{Alloc, AllocError, Global};
use std::net::TcpStream;

// The number of the branch of a teller.
fn branch_of(teller: u64) -> u64 {
    teller.saturating_add(9) / 10
}

// Under the number 1, the teller puts as many cents as its number says into the account of its number.
fn message_of(alloc: Global, teller: u64) -> Result<String, AllocError> {
    let branch = branch_of(teller);
    format!(in alloc;
        "POST /post HTTP/1.1\r\nContent-Length: 100\r\n\r\n\
        DC01{teller:012}{teller:08}{branch:06}0000000001+{teller:010}{:<49}",
        ""
    )
}

// It is posted, and nobody else has posted to that account.
fn answer_to(alloc: Global, teller: u64) -> Result<String, AllocError> {
    let branch = branch_of(teller);
    format!(in alloc;
        "HTTP/1.1 200 OK\r\nContent-Type: application/octet-stream\r\nContent-Length: 200\r\n\r\n\
        DR0100{teller:012}{teller:08}{branch:06}0000000001+{teller:010}+{teller:012}POSTED{:<128}",
        ""
    )
}

// What comes to the teller is the answer to its own record.
fn is_answered(rt: &HostRuntime, stream: &TcpStream, teller: u64) -> Result<()> {
    let taken = taken(rt, stream)?;
    let answer = answer_to(rt.alloc(), teller)?;
    ensure!(taken.as_slice() == answer.as_bytes(), "teller {teller}");
    Ok(())
}

fn are_answered(rt: &HostRuntime, streams: &[TcpStream]) -> Result<()> {
    let mut teller = 0u64;
    for stream in streams {
        teller = teller.saturating_add(1);
        is_answered(rt, stream, teller)?;
    }
    Ok(())
}

// Replays the bank of a connection.
fn replay<S: Alter + Drop>(alloc: Global, conn: Connection<S>, output: &mut Vec<u8>) -> Ended<S>
    requires { conn.in_transaction ≡ false }
{
    let mut bank = match find(alloc, conn) {
        Ok(bank) => bank,
        Err(ended) => return ended,
    };
    let end = replay_found(alloc, &mut bank, output, Unwatched);
    Ended {
        end,
        conn: bank.release(),
    }
}

// Serves the tellers by the bank of a connection, and replays it.
fn serve<S: Alter + Drop>(
    tellers: &Clients<'_>,
    conn: Connection<S>,
    output: &mut Vec<u8>,
) -> Ended<S>
    requires { conn.in_transaction ≡ false }
{
    let served = serve_clients(tellers, conn, output);
    match served.end {
        Ok(_) => replay(tellers.alloc(), served.conn, output),
        Err(_) => served,
    }
}

fn play_over<D: Disk + Drop>(
    rt: &HostRuntime,
    tellers: &Clients<'_>,
    conn: Connection<FileStore<D>>,
) -> Result<bool> {
    ensure!(conn.is_autocommit(), "a transaction");
    let mut output = Vec::new(tellers.alloc());
    let Ended { end, conn } = serve(tellers, conn, &mut output);
    conn.close()?;
    end?;
    let streams = tellers.streams().context("no tellers")?;
    are_answered(rt, streams.as_slice())?;
    Ok(output.ends_with(b"AGREES\n"))
}

// The messages of so many tellers.
fn messages_of(alloc: Global, count: u64) -> Result<Vec<String>, AllocError> {
    let mut messages = Vec::new(alloc);
    for teller in 1..=count {
        messages.push(message_of(alloc, teller)?)?;
    }
    Ok(messages)
}

/// So many tellers post to the bank in a file at once. Each gets the answer to its own record, and a replay says
/// whether the bank agrees then.
pub fn play_tellers(rt: &HostRuntime, rest: &str) -> Result<()> {
    let (count, file) = rest.split_once(' ').context("a count and a file")?;
    let count = count.parse::<u64>().ok().context("a count")?;
    let tellers = Clients::new(rt, messages_of(rt.alloc(), count)?);
    let agrees = play_over(rt, &tellers, Connection::open(rt, file)?)?;
    let verdict = if agrees { "AGREES" } else { "DIFFERS" };
    println!(rt; "  {count} tellers, each with its answer, and {verdict}")?;
    Ok(())
}
