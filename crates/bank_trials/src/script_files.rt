//! The files of a script: written, looked at, compared, and asked by SQL.
use crate::first_programs::ask;
use sqlite::{Connection, Error};
use std::alloc::Global;
use std::fs;
use std::io::Result;

// A file's name, and what stands after it.
fn named(rest: &str) -> (&str, &str) {
    rest.split_once(' ').unwrap_or((rest, ""))
}

// A text of these lines, which spaces part.
fn text_of(alloc: Global, lines: &str) -> Result<String> {
    let mut text = lines.replace(alloc, ' ', "\n")?;
    if !text.is_empty() {
        text.push('\n')?;
    }
    Ok(text)
}

/// Writes a file, whose name comes before its lines.
pub fn write_lines(rt: &HostRuntime, rest: &str) -> Result<()> {
    let (file, lines) = named(rest);
    fs::write(rt, file, text_of(rt.alloc(), lines)?)
}

/// Writes a file, whose name comes before its text.
pub fn put(rt: &HostRuntime, rest: &str) -> Result<()> {
    let (file, text) = named(rest);
    fs::write(rt, file, text)
}

/// Tells how long a file is, if it is there.
pub fn look(rt: &HostRuntime, file: &str) -> Result<()> {
    match fs::metadata(rt, file) {
        Ok(found) => println!(rt; "  {} bytes", found.len()),
        Err(_) => println!(rt; "  not there"),
    }
}

/// Tells whether these bytes are what a file holds.
pub fn compare(rt: &HostRuntime, file: &str, bytes: &[u8]) -> Result<()> {
    let wanted = fs::read(rt, file)?;
    tell_compared(rt, bytes == wanted.as_slice())
}

fn tell_compared(rt: &HostRuntime, are_same: bool) -> Result<()> {
    let word = if are_same { "the same" } else { "not the same" };
    println!(rt; "  {word}")
}

/// Runs SQL on a file, whose name comes before it.
pub fn run_sql(rt: &HostRuntime, rest: &str) -> anyhow::Result<()> {
    let (file, text) = named(rest);
    asked(rt, file, text, "SELECT 0")?;
    Ok(())
}

/// Runs a query on a file, whose name comes before it, and prints the number that it gives.
pub fn query(rt: &HostRuntime, rest: &str) -> anyhow::Result<()> {
    let (file, text) = named(rest);
    let number = asked(rt, file, "", text)?;
    println!(rt; "  {number}")?;
    Ok(())
}

fn asked(
    rt: &HostRuntime,
    file: &str,
    statements: &str,
    query: &str,
) -> std::result::Result<i64, Error> {
    let conn = Connection::open(rt, file)?;
    ask(conn, statements, query)
}
