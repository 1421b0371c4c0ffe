//! What an audit of a bank and a statement of an account say, and their texts. It needs no bank: it is given
//! the rows that a file has, damaged or not, as `bank_reports` does.
//!
//! An [`Audit`] has the numbers that TPC-B clause 2 compares. Rows are added up one by one, tellers before
//! branches, by [`TellerSums`], [`BranchSums`], [`Sum`] (the accounts) and [`OrdinalSums`] (requests and
//! postings). [`audit_of_sums`] makes the audit of what was added, and [`write_audit`] writes its text. All
//! amounts are in cents. The test `first_report` of `store_tests` audits a teller and the accounts of a file
//! without a branch, which disagree:
//!
//! ```rust
//! use message_records::Whole;
//! use report_contents::{BranchSums, OrdinalSums, Sum, TellerSums, audit_of_sums, write_audit};
//! use std::test::Fail;
//! use walked_rows::StoredTeller;
//!
//! fn first_report(rt: HostRuntime) -> Result<(), Fail> {
//!     let mut tellers = TellerSums::new(rt.alloc())?;
//!     tellers.add(StoredTeller {
//!         teller: Whole::new(1).unwrap(),
//!         balance: 400,
//!     });
//!     let branches = BranchSums::new(rt.alloc())?;
//!     let accounts = Sum::zero().plus(500);
//!     let audit = audit_of_sums(&tellers, branches, accounts, OrdinalSums::none());
//!     assert_eq!(rt; (audit.teller_sum, audit.account_sum), (400, 500));
//!     let mut text: Vec<u8> = Vec::new(rt.alloc());
//!     write_audit(&audit, &mut text)?;
//!     assert!(rt; text.ends_with(b"INCONSISTENT\n"));
//!     Ok(())
//! }
//! ```
//!
//! The text has ten numbers before this line, and a line for each branch that differs from its tellers.
//!
//! | Error | What it means |
//! |---|---|
//! | [`WriteFault`] | the writer failed, or took no byte; a prefix of the text was written |
//! | `AllocError` | of [`TellerSums::new`] and [`BranchSums::new`], which alone take memory: it was refused |
//!
//! `specs/Audit` says what the numbers of an audit are, `specs/AuditText`, `specs/StatementText` and `specs/Sheet` what
//! is written, `specs/AllStatements` what of all accounts, `specs/Queries` which postings a statement lists, and
//! [`audit_tells_consistency`] that an audit is consistent exactly where the tables are.
#![tactic(auto)]

mod adding;
mod all_statements;
mod audit;
mod audit_text;
mod branches;
mod civil_times;
mod form;
mod laws;
mod limits;
mod lines;
mod matching;
mod ordinals;
mod query;
mod range;
mod range_sums;
mod sheet;
mod sheet_fields;
mod sheet_times;
mod statement_text;
mod sum;
mod tellers;
mod writing;

pub use adding::audit_of_sums;
pub use audit::{Audit, BranchLine, BranchLines};
pub use branches::BranchSums;
pub use civil_times::{
    Date, LAST_DAY, MAX_AHEAD, ZonedTime, first_second, read_day, read_zone, zoned_time,
};
pub use form::{Form, Style};
pub use laws::{audit_tells_consistency, ranges_add_up, rows_tell_of_tables};
pub use limits::MAX_ROWS;
pub use ordinals::OrdinalSums;
pub use posting_sheets::push_text;
pub use query::{Layout, Query, Selection};
pub use range::Range;
pub use range_sums::RangeSums;
pub use statement_text::{STATEMENT_LINE, StatementLine};
pub use sum::Sum;
pub use tellers::TellerSums;
pub use writing::{WriteFault, put, put_last, write_audit};
