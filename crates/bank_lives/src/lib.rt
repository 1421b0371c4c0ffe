//! What is found of a bank after a crash, for any number of stops: every acknowledged command, each request
//! posted once, and books that agree (TPC-B clause 2).
//!
//! A life is the calls, streams and reports of a counter between two stops, and begins with the connection
//! that was opened on what the crash before it left. [`lives_law`] is the law of any number of lives. A program
//! that was stopped has no old bank at hand when it runs again, and calls `bank_store::adopt`. [`reopen`] does
//! at run time what `adopt` does; its contract names the bank that was stopped, and says what the new one has
//! of it, so that a proof can follow a bank through its stops. The connection comes from `open` of
//! `bank_files`, on the files of the bank that was stopped. The function `next_life` of `store_tests`, which a
//! test runs, has both banks:
//!
//! ```rust
//! ghost use Rattle.std.specs.Prelude.{◌≡◌, false};
//!
//! use bank_lives::reopen;
//! use bank_store::{Bank, OpenFault, Refused};
//! use sqlite::{Alter, Connection};
//! use std::alloc::Global;
//!
//! // `conn` was opened on what a crash left of the files of `stopped`.
//! pub fn next_life<S: Alter + Drop, T: Alter + Drop>(
//!     alloc: Global,
//!     stopped: &Bank<S>,
//!     conn: Connection<T>,
//! ) -> Result<Bank<T>, OpenFault>
//!     requires { conn.in_transaction ≡ false }
//! {
//!     match reopen(alloc, stopped, conn) {
//!         Ok(bank) => Ok(bank),
//!         Err(Refused { fault, conn: _conn }) => Err(fault),
//!     }
//! }
//! ```
//!
//! Read next: `specs/believed/Lives`, with a call of a life, a life, its end, and what is found after it;
//! `specs/believed/ManyLives`, with lives one after another; then [`lives_law`], and [`sender_law`] for a sender who goes
//! on after a crash. The other laws say which steps there are: the calls of a counter ([`calls_law`]), walks and
//! reports ([`walks_law`], [`reports_law`]), streams ([`streams_law`], [`clients_law`]), what joins two lives
//! ([`reopenings_law`]), and how they begin with a file of anyone's that was replayed ([`replayed_law`]).
//! [`machines_law`] is of a bank that followed another one, and goes on in its place.
#![tactic(auto)]

mod laws;
mod machines;
mod many_lives;
mod readings;
mod reopening;
mod resends;
mod streams;

pub use laws::{calls_law, life_law, rules_law};
pub use machines::machines_law;
pub use many_lives::{lives_law, reopenings_law, replayed_law, sender_law};
pub use readings::{reports_law, walks_law};
pub use reopening::reopen;
pub use resends::resends_law;
pub use streams::{clients_law, streams_law};
