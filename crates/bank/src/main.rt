//! A bank for the counter: its file is made, its branches are opened from a plan, and records are
//! posted to it from standard input.
#![tactic(auto)]

use bank_commands::{Machine, Notes, run, tell_reason, words_of};
use command_line::{Status, tell_no_words};
use posting_core::SystemClock;
use sqlite::{Start, Unknown};
use std::io::IsTerminal;
use std::process::ExitCode;

// A run on these words between the standard streams, whatever the files hold.
fn run_on<S: Start>(rt: &HostRuntime, start: S, words: &[String]) -> Status {
    let notes = Notes::new();
    let status = run(
        Machine::new(rt, start, &notes),
        words,
        &mut rt.stdin(),
        rt.stdin().is_terminal(),
        &mut rt.stdout(),
        &mut rt.stderr(),
        &mut SystemClock::new(rt),
    );
    tell_reason(rt, status, &notes);
    status
}

fn main(rt: HostRuntime) -> ExitCode {
    let status = match words_of(&rt) {
        Ok(words) => run_on(&rt, Unknown, words.as_slice()),
        Err(error) => tell_no_words(&error, &mut rt.stderr()),
    };
    ExitCode::from(status)
}
