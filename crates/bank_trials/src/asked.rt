//! A client of a bank that is served, who asks for one path.
ghost use Rattle.std.specs.Prelude.{◌≡◌, false};

use crate::loopback::{Clients, serve_clients, taken};
use crate::showing::tell;
use anyhow::{Context, Result, ensure};
use bank_commands::Ended;
use sqlite::{Connection, FileStore};
use sqlite_disk::Disk;
use std::alloc::Alloc;
use std::io;

// How long the head of an answer is, with the empty line after it.
fn head_length(answer: &[u8]) -> usize {
    let mut length = 0usize;
    for line in answer.split_inclusive(|byte| *byte == b'\n') {
        length = length.saturating_add(line.len());
        if line.len() == 2 {
            return length;
        }
    }
    length
}

// Prints the head of an answer, and gives what comes after it.
fn tell_answer(rt: &HostRuntime, answer: &[u8]) -> io::Result<Vec<u8>> {
    let length = head_length(answer);
    tell(rt, "head", answer.get(..length).unwrap_or(&[]))?;
    let mut rest = Vec::new(rt.alloc());
    rest.extend_from_slice(answer.get(length..).unwrap_or(&[]))?;
    Ok(rest)
}

// What the clients got.
fn answer_over<D: Disk + Drop>(
    rt: &HostRuntime,
    clients: &Clients<'_>,
    conn: Connection<FileStore<D>>,
) -> Result<Vec<u8>> {
    ensure!(conn.is_autocommit(), "a transaction");
    let mut output = Vec::new(clients.alloc());
    let Ended { end, conn } = serve_clients(clients, conn, &mut output);
    conn.close()?;
    end?;
    let streams = clients.streams().context("no client")?;
    let stream = streams.first().context("no client")?;
    Ok(taken(rt, stream)?)
}

/// Serves the bank in a file to a client who asks for a path, prints the head of the answer, and gives what comes after
/// it.
pub fn get(rt: &HostRuntime, rest: &str) -> Result<Vec<u8>> {
    let (file, path) = rest.split_once(' ').context("a file and a path")?;
    let mut messages = Vec::new(rt.alloc());
    messages.push(format!(in rt.alloc(); "GET {path} HTTP/1.1\r\n\r\n")?)?;
    let clients = Clients::new(rt, messages);
    let answer = answer_over(rt, &clients, Connection::open(rt, file)?)?;
    Ok(tell_answer(rt, answer.as_slice())?)
}
