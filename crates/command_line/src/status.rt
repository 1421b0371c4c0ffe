//! How a command of the program `bank` ends. One that did its work prints a line, if it has one, and ends
//! with the status 0 or 5. One that didn't writes `bank: ` and the text of its [`CommandFault`] to standard
//! error, and ends with the status 3 or 4, or 5 of `follow`. Words that are no command end with 2. The function `first_ending`
//! of `bank_trials`, which its script runs, is the end of `init`:
//!
//! ```rust
//! use command_line::{Status, print_created, tell};
//! use std::io::Write;
//!
//! pub fn first_ending<W: Write, E: Write>(output: &mut W, faults: &mut E) -> Status {
//!     match print_created(output) {
//!         Ok(()) => Status::Done,
//!         Err(fault) => tell(fault, faults),
//!     }
//! }
//! ```
//!
//! `ExitCode::from` gives the number of a [`Status`]. Read next: [`CommandFault`], to which the faults of
//! all libraries are turned by `?`; [`Status`]; and `specs/Lines`, with each line that is printed.
ghost use Rattle.std.specs.Prelude.{◌≡◌};
ghost use Rattle.std.specs.Process.{exit_status};
ghost use Rattle.command_line.specs.Statuses.{number_of_status, status_of_loaded};

use branch_loader::Loaded;
use std::process::ExitCode;

/// How the program ends. `ExitCode::from` gives the number.
#[derive(Clone, Copy, Debug, PartialEq, Eq)]
pub enum Status {
    /// 0: the command did its work, or help was asked for.
    Done,
    /// 2: the words aren't a command.
    Usage,
    /// 3: memory, the store, the network, a read or a write failed, or rows are damaged.
    System,
    /// 4: what came in, or the file, isn't what the command takes.
    Input,
    /// 5: `load` did its work, and a branch of the plan is open with another count of accounts; `replay` did, and the
    /// tables aren't what the rules give; or `follow` got another reply than an entry's.
    Differs,
    /// 5: `audit` did its work, and the books don't agree (TPC-B clause 2).
    Inconsistent,
}

/// How the program ends after a plan was loaded: `Differs` if any branch of it is open with another count.
impl From<Loaded> for Status {
    ghost from_gives = { λ loaded status. status ≡ status_of_loaded loaded };

    fn from(loaded: Loaded) -> Status {
        if loaded.differs > 0 {
            Status::Differs
        } else {
            Status::Done
        }
    }
}

/// The number of the status: 0, 2, 3, 4 or 5.
impl From<Status> for ExitCode {
    ghost from_gives = { λ status code. exit_status code ≡ number_of_status status };

    fn from(status: Status) -> ExitCode {
        ExitCode::from(match status {
            Status::Done => 0u8,
            Status::Usage => 2,
            Status::System => 3,
            Status::Input => 4,
            Status::Differs | Status::Inconsistent => 5,
        })
    }
}
