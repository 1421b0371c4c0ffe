//! Plays two scripts, which stand one above the other in `stdin`. It wants an empty folder to run in.
//!
//! The first has scenarios: what banks in memory and in tables are asked, a line for each step, and what they
//! answer. The head of `stdin` has the words of its lines.
//!
//! The second, below the line `runs`, has runs of the program over files, and what came of each. A line is a
//! word and what it takes. It is printed, and below it, after two spaces, what it led to:
//!
//!   `# TEXT`            is a heading
//!   `write FILE LINE..` writes a file of these lines
//!   `put FILE TEXT`     writes a file of this text, which ends no line
//!   `sql FILE TEXT`     runs SQL on a file
//!   `ask FILE TEXT`     runs a query on a file, and prints the number that it gives
//!   `look FILE`         prints how long the file is, if it is there
//!   `record TEXT`       gives the next run a record, which spaces fill to 100 bytes
//!   `line TEXT`         gives it a record and an end of line
//!   `part TEXT`         gives the next run these bytes
//!   `from FILE`         gives it what a file holds
//!   `piped`             gives it what the last run wrote
//!   `get FILE PATH`     serves the bank in a file to a client who asks for a path, and prints the head of the answer;
//!                       what comes after it is what the last run wrote
//!   `like FILE`         prints whether the last run wrote what a file holds
//!   `broken END`        gives the next run an `input` that fails, or an `output` that does
//!   `bank WORD..`       runs the program on these words
//!   `first NAME FILE..` runs the first program of a library on these files
//!   `tellers COUNT FILE` serves so many tellers at once, who post to the bank in a file, and replays it
//!   `simulate SEED COUNT` plays the simulations of so many seeds, and prints what they did
#![tactic(auto)]

mod asked;
mod ends;
mod first_programs;
mod loopback;
mod script;
mod script_files;
mod showing;
mod simulated;
mod tellers;

use anyhow::Context;
use script::Script;
use simulated::play_over;
use sqlite_disk::{Fuse, Memory};
use std::io;

fn main(rt: HostRuntime) -> Result<(), anyhow::Error> {
    let text = io::read_to_string(rt.alloc(), rt.stdin())?;
    play_scripts(&rt, text.as_str())
}

fn play_scripts(rt: &HostRuntime, text: &str) -> Result<(), anyhow::Error> {
    let (scenarios, runs) = text.split_once("\nruns\n").context("no line `runs`")?;
    play_scenarios(rt, scenarios)?;
    play_runs(rt, runs)
}

fn play_runs(rt: &HostRuntime, text: &str) -> Result<(), anyhow::Error> {
    let mut script = Script::new(rt.alloc());
    for line in text.lines() {
        script.play(rt, line)?;
    }
    Ok(())
}

// What is above the first scenario is no step.
fn play_scenarios(rt: &HostRuntime, text: &str) -> Result<(), anyhow::Error> {
    for scenario in text.split("\nbank ").skip(1) {
        play_over::<Fuse<Memory>>(rt, scenario)?;
    }
    Ok(())
}
