//! The tables of a bank in `sqlite`, one statement a function, whatever else the file holds. A posting of
//! TPC-B (clause 1.2) writes four of them: the account, the teller, the branch and the history. One more
//! keeps the requests that were decided, with their replies, another the references of those that have one,
//! another the floors of branches, and another the numbers that closed books decided; and one has a single row of the
//! bank as a whole.
//!
//! A function looks up a row, adds one or writes a number of one, inside a transaction of its caller;
//! [`commit`] makes last what was written, and a transaction that is dropped without it is undone. The
//! function `first_branch` of `store_tests`, which a test runs, makes the tables, adds branch 1 and finds it:
//!
//! ```rust
//! ghost use Rattle.std.specs.Prelude.{◌≡◌, false};
//!
//! use message_records::{Branch, Cents};
//! use posting_rules::BranchRow;
//! use sqlite::{Alter, Connection};
//! use store_rows::{TableFault, add_branch, commit, create, find_branch};
//!
//! pub fn first_branch<S: Alter>(conn: &mut Connection<S>) -> Result<Option<BranchRow>, TableFault>
//!     requires { conn.old.in_transaction ≡ false }
//! {
//!     create(conn)?;
//!     let branch = Branch::new(1).unwrap();
//!     let balance = Cents::zero();
//!     let mut tx = conn.transaction();
//!     add_branch(
//!         &mut tx,
//!         BranchRow {
//!             branch,
//!             accounts: 3,
//!             balance,
//!         },
//!     )?;
//!     commit(tx)?;
//!     let mut tx = conn.transaction();
//!     find_branch(&mut tx, branch)
//! }
//! ```
//!
//! [`balance_of`] reads the balance of a [`Member`], which is a teller or an account, and [`add_member`] adds
//! its row. [`set_balance`] writes that of a [`Holder`], which may be a branch too. [`add_eight_postings`] and
//! [`add_eight_requests`] add eight rows, one after another, or none of them.
//!
//! A [`TableFault`] says why a call failed: `Sqlite` that a call of `sqlite` did, with its error, and
//! `Damaged` which rule a stored row breaks. Read next: `specs/believed/BankTables`, the tables with their columns;
//! `specs/believed/View`, which rows a database shows; `specs/believed/Readings`, what a row is read as;
//! `specs/Calls`, what each function finds or leaves. The crate `bank_transactions` is a caller.
#![tactic(auto)]

mod beyond;
mod branches;
mod closings;
mod columns;
mod commits;
mod creation;
mod definitions;
mod fault;
mod floors;
mod found;
mod history;
mod holders;
mod laws;
mod metas;
mod migration;
mod probes;
mod references;
mod requests;
mod statements;
mod texts;

pub use beyond::{Numbered, find_beyond};
pub use branches::{add_branch, find_branch, next_branch};
pub use closings::{add_closing, find_seal, next_closing};
pub use commits::commit;
pub use creation::{create, create_tables};
pub use definitions::other_table;
pub use fault::TableFault;
pub use floors::{add_floor, find_floor};
pub use history::{add_eight_postings, add_history};
pub use holders::{Holder, Member, add_member, balance_of, set_balance};
pub use laws::{tables_law, trees_show_law};
pub use metas::{StoredMeta, VERSION, read_meta, set_decided, set_version};
pub use migration::{EARLIEST, make_lacking};
pub use posting_rules::BankTable;
pub use probes::{AFTER_META, probe_table};
pub use references::{add_reference, find_reference};
pub use requests::{add_eight_requests, add_request, find_request};
pub use texts::{
    ACCOUNTS_FROM, BRANCHES_FROM, CLOSINGS_FROM, FLOORS_FROM, MAKE_TABLES, METAS_FROM,
    POSTINGS_FROM, POSTINGS_OF, REFERENCE_UNDER, REFERENCES_FROM, REQUESTS_FROM, TELLERS_FROM,
};
