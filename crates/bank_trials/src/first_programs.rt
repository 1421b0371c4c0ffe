//! The first program of each library of the commands, and of the connections of a counter, as its page shows it.
mod commands;
mod connections;
mod endings;
mod files;
mod words;
mod work;

use crate::simulated::{Stopping, open_in_memory};
use anyhow::{Result, bail};
use bank_commands::{Ended, PlanFiles};
use command_line::Status;
use commands::first_commands;
use connections::first_connections;
use endings::first_ending;
pub use files::ask;
use files::first_file;
use posting_core::StoredClock;
use sqlite_disk::{Fuse, Memory};
use words::first_words;
use work::first_drive;

/// Runs a first program on the files that the words name, between an input and an output, and returns the
/// status that it ends with.
pub fn play(rt: &HostRuntime, words: &str, input: &[u8], output: &mut Vec<u8>) -> Result<Status> {
    let (name, files) = words.split_once(' ').unwrap_or((words, ""));
    match name {
        "words" => play_words(rt, files),
        "file" => play_file(rt, files),
        "drive" => play_drive(rt, output),
        "ending" => Ok(first_ending(output, &mut rt.stderr())),
        "commands" => play_commands::<Fuse<Memory>>(rt, files, input, output),
        "connections" => play_connections(rt, input, output),
        _ => bail!("no such program: {name}"),
    }
}

fn play_words(rt: &HostRuntime, words: &str) -> Result<Status> {
    let words: Vec<&str> = words.split(' ').collect(rt.alloc())?;
    let drive = first_words(rt.alloc(), words.as_slice());
    println!(rt; "  {drive:?}")?;
    Ok(Status::Done)
}

fn play_file(rt: &HostRuntime, file: &str) -> Result<Status> {
    let notes = first_file(rt, file)?;
    println!(rt; "  {notes}")?;
    Ok(Status::Done)
}

fn play_drive(rt: &HostRuntime, output: &mut Vec<u8>) -> Result<Status> {
    first_drive(rt.alloc(), output)?;
    Ok(Status::Done)
}

fn play_connections(rt: &HostRuntime, mut input: &[u8], output: &mut Vec<u8>) -> Result<Status> {
    first_connections(rt, &mut input, output)?;
    Ok(Status::Done)
}

fn play_commands<F: Stopping>(
    rt: &HostRuntime,
    plan: &str,
    mut input: &[u8],
    output: &mut Vec<u8>,
) -> Result<Status> {
    let conn = open_in_memory::<F>(rt.alloc())?;
    let mut clock = StoredClock::new(Vec::new(rt.alloc()));
    let plans = PlanFiles::new(rt);
    let Ended { end, conn } = first_commands(
        rt.alloc(),
        conn,
        &plans,
        plan,
        &mut input,
        output,
        &mut clock,
    );
    drop(conn);
    Ok(end?)
}
