//! New books that carry old ones on: the postings that they begin with, and what shows that they do.
//!
//! [`compare_books`] compares two banks in files. Where it finds no difference, the second one carries the first one on.
//! [`Forward`] gives the postings of a desk by which new books begin with the balances of old ones. The function
//! `first_forward` of `store_tests`, which a test runs, has an account lack 500 cents, and returns what teller 81, the
//! first one of the desk, posts to it:
//!
//! ```rust
//! use carried_books::{Forward, Lack};
//! use message_records::{Account, Branch, Request};
//! use posting_rules::NumberRuns;
//! use std::alloc::{AllocError, Global};
//!
//! pub fn first_forward(alloc: Global) -> Result<Option<Request>, AllocError> {
//!     let used = NumberRuns::of(alloc, Vec::new(alloc))?;
//!     let mut forward = Forward::new(alloc, Branch::new(9).unwrap(), used, 0);
//!     forward.add(Lack::Account(Account::new(1).unwrap(), 500))?;
//!     Ok(forward.next_posting())
//! }
//! ```
//!
//! [`first_stray`] finds a request that new books keep and that is neither the desk's nor of a number that was used.
//! [`carries_law`] says what follows where the rows of two banks' tables agree so: the new books carry the old ones on, and
//! answer as one bank that never closed its books, by `two_years_law` of `posting_rules`.
//!
//! Read next: `NumberRuns` of `posting_rules`; `specs/Carrying`, what the tables show.
#![tactic(auto)]

mod apart;
mod comparison;
mod desk;
mod forward;
mod gathered;
mod gathering;
mod laws;

pub use apart::{Apart, BooksFault};
pub use comparison::compare_books;
pub use desk::first_stray;
pub use forward::{Forward, Lack};
pub use laws::carries_law;
