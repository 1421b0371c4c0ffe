//! The command line of the program: which words it takes, and which command on which files, with which
//! numbers, they ask for; how a command ends (`status`); and what the commands do with any counter
//! (`driving`, `loading`, `following`, `serving`). It opens no file. The words are matched by `clap`, which also lays out
//! the help and the faults. The function `first_words` of `bank_trials`, to which its script gives the words
//! `bank drive bank.db --seed 7 --count 1000`, finds the file, 7 and 1000 in them:
//!
//! ```rust
//! use command_line::{Command, Task, Work, read_words};
//! use std::alloc::Global;
//!
//! pub fn first_words<'a>(alloc: Global, words: &'a [&'a str]) -> Option<(&'a str, u64, u64)> {
//!     match read_words(alloc, words) {
//!         Ok(
//!             Command::OnFile {
//!                 file,
//!                 task: Task::With(Work::Drive { seed, count }),
//!             },
//!         ) => Some((file, seed, count)),
//!         _ => None,
//!     }
//! }
//! ```
//!
//! Any other words are the error that `clap` gives, with its text for the user; a request for help is such an
//! error too, of the kind `DisplayHelp`. Where the words are a command, only want of memory is one.
//!
//! Read next: [`Command`], [`Task`] and [`Work`], what can be asked; [`read_words`]; `specs/Words`, how each command is spelled;
//! the crate `bank_commands`, which runs what is asked.
#![tactic(auto)]

mod auditing;
mod command_line;
mod dates;
mod driving;
mod fault;
mod following;
mod limits;
mod lines;
mod loading;
mod prompting;
mod queries;
mod reading;
mod replaying;
mod serving;
mod sharing;
mod status;
mod texts;
mod translating;

pub use auditing::print_audit;
pub use driving::drive_into;
pub use fault::CommandFault;
pub use following::follow_into;
pub use limits::MAX_CONNECTIONS;
pub use lines::{
    ListeningLine, explain, print_after, print_already, print_created, print_driven,
    print_followed, print_joined, print_listening, print_loaded, print_migrated, print_sealed,
    print_usable, tell, tell_no_words,
};
pub use loading::{Plans, load_from, load_into};
pub use prompting::prompt;
pub use queries::QueryFault;
pub use reading::{Command, Task, Work, read_words};
pub use replaying::{print_agreeing, print_differing, print_digest};
pub use serving::{Network, listen};
pub use sharing::{Sharing, listen_shared};
pub use status::Status;
pub use translating::{translate_replies, translate_sheet};
