//! A run of the program: from the words of the command line, over the command that they ask for, to the
//! status that the program ends with. [`words_of`] takes the words of the system, and [`run`] does what they
//! say, between any reader, writers and clock.
//!
//! The program `bank` is one run, between the standard streams and by the system's clock:
//!
//! ```rust
//! use bank_commands::{Machine, Notes, run, tell_reason, words_of};
//! use command_line::{Status, tell_no_words};
//! use posting_core::SystemClock;
//! use sqlite::{Start, Unknown};
//! use std::io::IsTerminal;
//! use std::process::ExitCode;
//!
//! // A run on these words between the standard streams, whatever the files hold.
//! fn run_on<S: Start>(rt: &HostRuntime, start: S, words: &[String]) -> Status {
//!     let notes = Notes::new();
//!     let status = run(
//!         Machine::new(rt, start, &notes),
//!         words,
//!         &mut rt.stdin(),
//!         rt.stdin().is_terminal(),
//!         &mut rt.stdout(),
//!         &mut rt.stderr(),
//!         &mut SystemClock::new(rt),
//!     );
//!     tell_reason(rt, status, &notes);
//!     status
//! }
//!
//! fn main(rt: HostRuntime) -> ExitCode {
//!     let status = match words_of(&rt) {
//!         Ok(words) => run_on(&rt, Unknown, words.as_slice()),
//!         Err(error) => tell_no_words(&error, &mut rt.stderr()),
//!     };
//!     ExitCode::from(status)
//! }
//! ```
//!
//! Read next: the contract of [`run`], and `specs/Running`, how each command ends and what it prints. The crate
//! `bank_trials` plays a script of such runs.
ghost use Rattle.std.specs.Prelude.{◌≡◌, ◌≢◌, ◌⊎◌, [], map};
ghost use Rattle.std.specs.Io.KnownBytes.{Keeps};
ghost use Rattle.clap.specs.Words.{fault_of};
ghost use Rattle.command_line.specs.CommandLine.{bank_app};
ghost use Rattle.command_line.specs.Words.{AsksForHelp};
ghost use Rattle.bank_commands.specs.Running.{AreRefused, AreTaken, Runs, by_bytes};

use crate::files::{Machine, command_in};
use command_line::{Status, explain, prompt, read_words, tell};
use posting_core::Clock;
use sqlite::Start;
use std::convert::AsStr;
use std::io::{Read, Write};
use std::rt::Env;
use std::{env, io};

/// The words of the command line, of which the first is the program's name.
pub fn words_of<R: Env + AllocGlobal>(rt: &R) -> io::Result<Vec<String>> {
    Ok(env::args(rt)?.collect(rt.alloc())?)
}

/// Does what the words say, and gives the status that the program ends with. A fault is reported on `faults`, and so
/// is what a command waits for that reads the input, where that is typed at a terminal.
pub fn run<'w, S: Start, T: AsStr, R: Read, W: Write, E: Write, K: Clock>(
    machine: Machine<'_, 'w, S>,
    words: &'w [T],
    input: &mut R,
    typed: bool,
    output: &mut W,
    faults: &mut E,
    clock: &mut K,
) -> Status
    ensures refused { AreRefused (map T.text words.entry.now)
        → (result ≡ Status.Usage) ⊎ (result ≡ Status.System) }
    ensures silent { AreRefused (map T.text words.entry.now)
        → Keeps (W.contents output.old) (W.contents output.new) }
    ensures unread { fault_of bank_app (map T.text words.entry.now) ≢ []
        → R.remaining input.new ≡ R.remaining input.old }
    ensures help { AsksForHelp (map T.text words.entry.now)
        → (result ≡ Status.Done) ⊎ (result ≡ Status.System) }
    ensures taken { AreTaken (map T.text words.entry.now) → result ≢ Status.Usage }
    // Words that clap takes have the command done that is read from them; what it does is said of its connection, by
    // `command_over`.
    ensures runs { AreTaken (map T.text words.entry.now) → Runs (map T.text words.entry.now) typed
        (by_bytes (R.remaining input.old) (W.contents output.old))
        (by_bytes (R.remaining input.new) (W.contents output.new)) (E.contents faults.old) (E.contents faults.new)
        (K.readings clock.old) (K.readings clock.new) result }
{
    let command = match read_words(machine.alloc(), words) {
        Ok(command) => command,
        Err(error) => return explain(&error, output, faults),
    };
    machine.note(&command);
    prompt(&command, typed, faults);
    match command_in(machine, &command, input, output, clock) {
        Ok(status) => status,
        Err(fault) => tell(fault, faults),
    }
}
