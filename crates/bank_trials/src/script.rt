//! The lines of a script.
use crate::asked::get;
use crate::ends::{Input, Output};
use crate::first_programs;
use crate::script_files::{compare, look, put, query, run_sql, write_lines};
use crate::showing::tell;
use crate::simulated::simulate;
use crate::tellers::play_tellers;
use anyhow::{Result, bail};
use bank_commands::{Machine, Notes, run};
use command_line::Status;
use posting_core::StoredClock;
use sqlite::{Start, Unknown};
use std::alloc::{AllocError, Global};
use std::fs;
use std::io::{self, Read, Write};

// Which end of the next run fails.
#[derive(Clone, Copy)]
enum Fails {
    Neither,
    Input,
    Output,
}

/// What the next run is given, and what the last one wrote.
#[derive(Drop)]
pub struct Script {
    input: Vec<u8>,
    typed: bool,
    fails: Fails,
    output: Vec<u8>,
}

impl Script {
    /// A script at its prefix: the next run has no input, and neither of its ends fails.
    pub fn new(alloc: Global) -> Self {
        Script {
            input: Vec::new(alloc),
            typed: false,
            fails: Fails::Neither,
            output: Vec::new(alloc),
        }
    }

    /// Prints a line of the script, does what it says, and prints what came of it.
    pub fn play(&mut self, rt: &HostRuntime, line: &str) -> Result<()> {
        println!(rt; "{line}")?;
        let (word, rest) = line.split_once(' ').unwrap_or((line, ""));
        match word {
            "#" | "" => Ok(()),
            "write" => any(write_lines(rt, rest)),
            "put" => any(put(rt, rest)),
            "sql" => run_sql(rt, rest),
            "ask" => query(rt, rest),
            "look" => any(look(rt, rest)),
            "like" => any(compare(rt, rest, self.output.as_slice())),
            "get" => self.ask_served(rt, rest),
            "bank" => any(self.run(rt, line)),
            "first" => self.run_first(rt, rest),
            "simulate" => simulate(rt, rest),
            "tellers" => play_tellers(rt, rest),
            _ => self.prepare(rt, word, rest),
        }
    }

    // Asks a bank that is served for a path, and keeps what it answers below the head.
    fn ask_served(&mut self, rt: &HostRuntime, rest: &str) -> Result<()> {
        self.output = get(rt, rest)?;
        Ok(())
    }

    // Gives the next run what a line says.
    fn prepare(&mut self, rt: &HostRuntime, word: &str, rest: &str) -> Result<()> {
        match word {
            "record" => self.give(rt.alloc(), rest, "")?,
            "line" => self.give(rt.alloc(), rest, "\n")?,
            "part" => self.input.extend_from_slice(rest.as_bytes())?,
            "from" => self.input = fs::read(rt, rest)?,
            "piped" => self.input.extend_from_slice(self.output.as_slice())?,
            "typed" => self.typed = true,
            "broken" if rest == "input" => self.fails = Fails::Input,
            "broken" if rest == "output" => self.fails = Fails::Output,
            _ => bail!("no such step: {word} {rest}"),
        }
        Ok(())
    }

    // Gives the next run a record of this text, which spaces fill to 100 bytes, and an end.
    fn give(&mut self, alloc: Global, text: &str, end: &str) -> Result<(), AllocError> {
        let record = padded(alloc, text)?;
        self.input.extend_from_slice(record.as_slice())?;
        self.input.extend_from_slice(end.as_bytes())
    }

    // Runs the program on the words of a line, with what the lines before it gave, and prints how it went.
    fn run(&mut self, rt: &HostRuntime, line: &str) -> io::Result<()> {
        let words: Vec<&str> = line.split(' ').collect(rt.alloc())?;
        let (status, faults) = self.run_words(rt, words.as_slice());
        self.input.clear();
        self.typed = false;
        self.fails = Fails::Neither;
        self.tell_run(rt, status, faults.as_slice())
    }

    fn tell_run(&self, rt: &HostRuntime, status: Status, faults: &[u8]) -> io::Result<()> {
        tell(rt, "output", self.output.as_slice())?;
        tell(rt, "fault", faults)?;
        println!(rt; "  status: {status:?}")
    }

    // Runs the program on these words, and keeps what it writes.
    fn run_words(&mut self, rt: &HostRuntime, words: &[&str]) -> (Status, Vec<u8>) {
        let mut input = Input {
            rest: self.input.as_slice(),
            is_broken: matches!(self.fails, Fails::Input),
        };
        let mut output = Output {
            written: Vec::new(rt.alloc()),
            is_broken: matches!(self.fails, Fails::Output),
        };
        let (status, faults) = run_between(rt, Unknown, words, &mut input, self.typed, &mut output);
        self.output = output.written;
        (status, faults)
    }

    // Runs a first program, and prints how it went.
    fn run_first(&mut self, rt: &HostRuntime, words: &str) -> Result<()> {
        let mut output = Vec::new(rt.alloc());
        let status = first_programs::play(rt, words, self.input.as_slice(), &mut output)?;
        self.input.clear();
        any(tell_first(rt, status, output.as_slice()))
    }
}

fn tell_first(rt: &HostRuntime, status: Status, output: &[u8]) -> io::Result<()> {
    tell(rt, "output", output)?;
    println!(rt; "  status: {status:?}")
}

// A failure of the system as any other.
fn any(done: io::Result<()>) -> Result<()> {
    Ok(done?)
}

// A record of this text, which spaces fill to 100 bytes.
fn padded(alloc: Global, text: &str) -> Result<Vec<u8>, AllocError> {
    let mut bytes = Vec::new(alloc);
    bytes.extend_from_slice(text.as_bytes())?;
    bytes.resize(100, b' ')?;
    Ok(bytes)
}

// A run between a reader and a writer: how it ended, and what it told of faults. That the files are of any
// start keeps the proof short.
fn run_between<S: Start, R: Read, W: Write>(
    rt: &HostRuntime,
    start: S,
    words: &[&str],
    input: &mut R,
    typed: bool,
    output: &mut W,
) -> (Status, Vec<u8>) {
    let mut faults = Vec::new(rt.alloc());
    let mut clock = StoredClock::new(Vec::new(rt.alloc()));
    let notes = Notes::new();
    let status = run(
        Machine::new(rt, start, &notes),
        words,
        input,
        typed,
        output,
        &mut faults,
        &mut clock,
    );
    (status, faults)
}
