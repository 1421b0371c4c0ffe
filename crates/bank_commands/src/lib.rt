//! The commands of the program, over any store. [`command_over`] takes what is to be done, and a connection that it
//! hands back, also where there is no bank: [`init_over`] makes one, [`migrate_over`] carries one of an older version
//! over, and all else works with the bank that [`find`] gives. Each such work is a function over that bank, such as
//! [`post_found`]; `src/command` is the list of them, and `specs/Doing` that of what they do. [`why_over`] says that a
//! bank can be used. `encode` and `decode` need no bank, and are functions of `command_line`.
//!
//! The function `first_commands` of `bank_trials`, which its script runs, makes a bank, opens the branches of
//! a plan and posts the records of an input:
//!
//! ```rust
//! ghost use Rattle.std.specs.Prelude.{◌≡◌, false};
//!
//! use bank_commands::{Ended, find, init_over, load_found, post_found};
//! use command_line::Plans;
//! use posting_core::Clock;
//! use sqlite::{Alter, Connection};
//! use std::alloc::Global;
//! use std::io::{Read, Write};
//!
//! pub fn first_commands<S: Alter + Drop, P: Plans, R: Read, W: Write, K: Clock>(
//!     alloc: Global,
//!     conn: Connection<S>,
//!     plans: &P,
//!     plan: &str,
//!     input: &mut R,
//!     output: &mut W,
//!     clock: &mut K,
//! ) -> Ended<S>
//!     requires { conn.in_transaction ≡ false }
//! {
//!     let made = init_over(alloc, conn, output);
//!     let mut bank = match find(alloc, made.conn) {
//!         Ok(bank) => bank,
//!         Err(ended) => return ended,
//!     };
//!     let end = match load_found(alloc, &mut bank, plans, plan, output) {
//!         Ok(_) => post_found(&mut bank, input, output, clock),
//!         end => end,
//!     };
//!     Ended {
//!         end,
//!         conn: bank.release(),
//!     }
//! }
//! ```
//!
//! For a record of 500 cents to account 1 the output is `created`, `opened 2 already 0 differs 0` and a
//! reply with the balance 500 and the outcome `POSTED`. A fault is a `CommandFault` of `command_line`.
//!
//! `bank_files` opens a connection to files, and `conn.close()` closes it. [`run`] is the whole program: it finds a
//! command in the words of the command line, looks for the command's file, opens it, does the command and closes it.
//! `src/files`, to be reviewed by hand, has the looking, the opening and the closing; no clause reaches them. It alone
//! reaches the [`Machine`]: all else is handed plans, a network and a watch, and can open no file. [`tell_reason`] says
//! after a run why a file can't be used, or what stands in a row that was refused.
//!
//! `Unknown` is all that a program knows of what its files hold, and supposes that a torn write leaves each byte old or
//! new; `Wary` of `sqlite` in its place doesn't suppose it, and syncs twice a commit.
//!
//! Read next: `specs/Over`, what becomes of the connection; `specs/Commands`, what each work does to the bank that is
//! found there; the crate `command_line`, what it does with any bank; [`command_over`] and [`run`], which call them by the
//! words of the command line.
#![tactic(auto)]

mod command;
mod commands;
mod ended;
mod files;
mod following;
mod member;
mod migration;
mod network;
mod notes;
mod opened;
mod progress;
mod reasons;
mod replaying;
mod reports;
mod running;
mod serving;
mod sharing;

pub use command::command_over;
pub use commands::{init_over, load_found, post_found};
pub use ended::{Ended, find};
pub use files::{Machine, PlanFiles};
pub use migration::migrate_over;
pub use notes::Notes;
pub use reasons::tell_reason;
pub use replaying::replay_found;
pub use reports::why_over;
pub use running::{run, words_of};
pub use serving::serve_found;
pub use sharing::share_over;
