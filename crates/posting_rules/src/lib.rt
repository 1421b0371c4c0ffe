//! What a posting is: the rows of a bank's tables, how a request is judged by them (TPC-B 1.2), the laws
//! that hold of every bank, such as the consistency condition (TPC-B clause 2), and the trait of a counter,
//! which every bank implements. It keeps no rows: what is looked up for a request is handed to [`judge`].
//! The function `first_verdict` of `counter_tests`, which a test runs, judges a posting of 500 cents to an
//! account of this balance, or to one that isn't open, and gives the balance that the reply shows:
//!
//! ```rust
//! use message_records::{Account, Branch, Cents, Number, Request, Teller};
//! use posting_rules::{Books, Found, Verdict, judge, reply_to};
//!
//! pub fn first_verdict(balance: Option<Cents>) -> (Verdict, Option<Cents>) {
//!     let (account, teller) = (Account::new(1).unwrap(), Teller::new(1).unwrap());
//!     let (branch, number) = (Branch::new(1).unwrap(), Number::new(1).unwrap());
//!     let (zero, delta) = (Cents::zero(), Cents::new(500).unwrap());
//!     let request = Request::new(account, teller, branch, number, delta, None).unwrap();
//!     let found = Found {
//!         teller: Some((zero, zero)), // the balances of the teller and of its branch
//!         kept: None,
//!         books: Books::Current,
//!         decided: 0,
//!         account: balance,
//!         floor: None,
//!     };
//!     let verdict = judge(&found, &request);
//!     (verdict, reply_to(&found, &request, &verdict).balance())
//! }
//! ```
//!
//! Nothing here fails or takes memory. [`Fault`] says why a counter refuses a call, and what holds after it;
//! [`OpenFault`] says why no bank is made or found where its tables are kept.
//!
//! Read next: [`judge`] with its [`Verdict`]; the trait [`Counter`]; `specs/Stated`, which says who is
//! refused, case by case; the laws, such as [`each_request_once`]; the crate `posting_core`, with a bank in
//! memory.
#![tactic(auto)]

mod cases;
mod closed_numbers;
mod counter;
mod fault;
mod judgments;
mod laws;
mod limits;
mod number_runs;
mod numbering;
mod open_fault;
mod rows;

pub use cases::{judge, malformed_reply, reply_to};
pub use closed_numbers::{Closing, books_of, closing_for};
pub use counter::{BranchLine, Counter, Opening};
pub use fault::{Fault, Rule};
pub use judgments::{Books, Decision, Found, Kept, Verdict};
pub use laws::{
    accounts_stay_above, balances_stay_within, cases_are_as_stated, each_request_once,
    earlier_versions_carry_over, equal_tables_answer_alike, resends_get_their_replies, sealed_law,
    tables_are_consistent, tables_are_undamaged, two_years_law,
};
pub use limits::{
    ACCOUNTS_PER_BRANCH, LAST_BRANCH, LAST_KEY, MAX_ACCOUNTS, MAX_DECIDED, NUMBERS_PER_TELLER,
    RECORDS_PER_BATCH, TELLERS_PER_BRANCH,
};
pub use number_runs::NumberRuns;
pub use numbering::{
    branch_of_account, branch_of_teller, first_account, first_teller, number_key, place_of_account,
};
pub use open_fault::{BankTable, OpenFault};
pub use rows::{
    AccountRow, BranchRow, ClosingRow, FloorRow, HistoryRow, Ordinal, ReferenceRow, RequestRow,
    TellerRow,
};
