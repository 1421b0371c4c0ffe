//! The audit of a bank in a file, the statement of one of its accounts, and those of all.
//!
//! [`audit`] reads every row of the bank once and returns the numbers that TPC-B clause 2 compares.
//! [`write_statement`] writes the postings of an account by their ordinals, each with the balance after it
//! and the reference of its request; [`write_selected`] those of a range of time or of a reference, in columns or as
//! CSV; [`write_statements`] those of each account that has one, by rising accounts. All take the rows as the file has
//! them, damaged or not, and change none. The function `first_reports` of
//! `store_tests`, which a test runs, writes the statement of account 1 and the audit, and returns whether
//! the books agree:
//!
//! ```rust
//! use bank_reports::{audit, write_audit, write_statement};
//! use bank_store::{Account, Bank};
//! use sqlite::Alter;
//! use std::io::Write;
//! use std::test::Fail;
//!
//! pub fn first_reports<S: Alter + Drop, W: Write>(
//!     bank: &mut Bank<S>,
//!     output: &mut W,
//! ) -> Result<bool, Fail> {
//!     write_statement(bank, Account::new(1).unwrap(), output)?;
//!     let found = audit(bank)?;
//!     write_audit(&found, output)?;
//!     Ok(found.is_consistent())
//! }
//! ```
//!
//! [`audit`] returns the bank's `Fault`, and [`write_statement`] a [`ReportFault`], which holds it as
//! `Bank`:
//!
//! | Error | What it means |
//! |---|---|
//! | `Memory` | of `audit` before the first row was read; of `write_statements`, which has written nothing |
//! | `Store` | a read failed: the disk did, or memory or steps were refused |
//! | `Down` | the bank was down, and nothing was read |
//! | `Damaged(Value)` | a number of a row is out of its column's range, so that the row can't be reported |
//! | `Damaged(Balance)` | of a statement alone: a balance of the account is out of its limits |
//! | `Damaged(Reference)` | of a statement alone: the reference of a posting of the account is none |
//! | [`ReportFault::NoAccount`] | the account isn't open; nothing was written |
//! | [`ReportFault::Write`] | the writer failed, or took no byte; a prefix of the text was written |
//!
//! A damaged bank is no error of `audit` as long as its rows can be read: `is_consistent` of its answer says
//! so. `specs/Audits`, `specs/Statements` and `specs/AllStatements` say what they promise, of a bank and of any file,
//! `specs/Files` which rows are read, and `specs/StatedLines` what a statement is.
#![tactic(auto)]

mod additions;
mod audits;
mod fault;
mod gathered;
mod gathering;
mod lines;
mod parts;
mod passes;
mod postings;
mod statement;
mod statements;
mod sums;
mod visitors;

pub use audits::audit;
pub use fault::ReportFault;
pub use report_contents::{
    Audit, BranchLine, BranchLines, Layout, Query, Range, Selection, WriteFault, write_audit,
};
pub use statement::{write_selected, write_statement};
pub use statements::write_statements;
