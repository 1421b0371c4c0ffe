//! A bank in a SQLite file. [`Bank`] is a [`Counter`] over a connection: each call is one transaction, and
//! what it answered is found again after a crash of the machine (TPC-B, clauses 1 and 2).
//!
//! [`create`] makes a bank, [`adopt`] takes up the one that a file has, and [`Bank::release`] gives the
//! connection back. [`migrate`] first carries a bank of an earlier version over, which [`adopt`] refuses with
//! [`OpenFault::Version`]. The function `first_bank` of `store_tests`, which a test runs, makes a bank over a
//! connection, opens branch 1 with three accounts and posts 500 cents to the first. The reply has the
//! outcome `Posted` and the balance 500:
//!
//! ```rust
//! ghost use Rattle.std.specs.Prelude.{◌≡◌, false};
//!
//! use bank_store::{
//!     Account, Branch, Cents, Counter, Moment, Number, Refused, Reply, Request, Teller, create,
//!     decode_reply, encode_request,
//! };
//! use sqlite::{Alter, Connection};
//! use std::alloc::Global;
//! use std::test::Fail;
//!
//! pub fn first_bank<S: Alter + Drop>(
//!     alloc: Global,
//!     conn: Connection<S>,
//! ) -> Result<(Reply, Connection<S>), Fail>
//!     requires { conn.in_transaction ≡ false }
//! {
//!     let mut bank = match create(alloc, conn) {
//!         Ok(bank) => bank,
//!         Err(Refused { fault, conn: _conn }) => return Err(fault.into()),
//!     };
//!     bank.open_branch(Branch::new(1).unwrap(), 3, None)?;
//!     let request = Request::new(
//!         Account::new(1).unwrap(),
//!         Teller::new(1).unwrap(),
//!         Branch::new(1).unwrap(),
//!         Number::new(1).unwrap(),
//!         Cents::new(500).unwrap(),
//!         None,
//!     );
//!     let record = encode_request(&request.unwrap());
//!     let reply = bank.submit(Moment::new(1_795_442_400).unwrap(), &record)?;
//!     Ok((decode_reply(&reply)?, bank.release()))
//! }
//! ```
//!
//! A connection to a file comes from `open` of the crate `bank_files`. A program that opens a bank's file
//! again gives such a connection to [`adopt`] where this one calls [`create`], as the commands of the crate
//! `bank_commands` do. So does a program after [`Fault::Store`], once it has released and closed the
//! connection of the bank that is down.
//!
//! [`Counter::submit_all`] posts up to [`RECORDS_PER_BATCH`] records in one transaction. [`each_row`] and
//! its three neighbours walk over the rows, one `next` a row.
//!
//! Read next: [`Bank`], with what holds after each fault; [`Counter`], with the five calls; [`Walk`], to read
//! the rows. `specs/believed/Seen` says what a bank shows, and the crate `bank_lives` what is found after a crash.
#![tactic(auto)]

mod adoption;
mod bank;
mod entries;
mod followed;
mod laws;
mod migration;
mod new_bank;
mod presence;
mod refused;
mod walks;

pub use adoption::adopt;
pub use bank::Bank;
pub use entries::entry_in;
pub use laws::{opened_earlier_law, opened_law};
pub use message_records::{
    Account, Bad, BadReply, Branch, Cents, Moment, Number, Outcome, Reference, Reply, Request,
    Teller, decode_reply, decode_request, encode_request,
};
pub use migration::{Migrated, migrate};
pub use new_bank::create;
pub use posting_rules::{
    BranchLine, Closing, Counter, Fault, LAST_BRANCH, MAX_ACCOUNTS, MAX_DECIDED, OpenFault,
    Opening, Ordinal, RECORDS_PER_BATCH, Rule,
};
pub use refused::Refused;
pub use store_rows::BankTable;
pub use walked_rows::{
    Joined, KeptRequest, StatedPosting, StoredAccount, StoredBranch, StoredClosing, StoredFloor,
    StoredMeta, StoredPosting, StoredReference, StoredRequest, StoredTeller,
};
pub use walks::{Walk, each_account, each_history, each_row, history_of};
