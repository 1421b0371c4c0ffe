//! The replay of a bank in a file: are its tables what the rules give?
//!
//! [`replay`] makes a second bank in memory, gives it what the file's rows say, and compares all nine tables of
//! the two, row by row. Where it returns [`Replay::Agrees`], the file's tables are those of a log, so that all
//! that is promised of every log holds of them, whatever wrote the file. Else it returns the first difference.
//! It changes nothing. The function `first_replay` of `store_tests`, which a test runs, returns whether a bank
//! agrees:
//!
//! ```rust
//! use bank_replays::{Replay, Unwatched, replay};
//! use bank_store::Bank;
//! use sqlite::Alter;
//! use std::test::Fail;
//!
//! pub fn first_replay<S: Alter>(bank: &mut Bank<S>) -> Result<bool, Fail> {
//!     match replay(bank, Unwatched)? {
//!         Replay::Agrees(_) => Ok(true),
//!         Replay::Differs(_) => Ok(false),
//!     }
//! }
//! ```
//!
//! Whatever the second bank is given, its tables are those of a log, and a file with the same rows shows that log
//! too. So a file that agrees is never a wrong one. Given the rows of a log, it shows one with the same rows, in
//! whatever order branches were opened. So a file that shows a log never differs.
//!
//! [`Replay::Agrees`] has the [`Digest`] of the requests, in which a changed moment, a changed reference, a cut-off
//! end and a rewritten past show, none of which a replay can see by itself; that of the plan, in which a branch, its
//! accounts and its floor show; and that of the closed numbers, in which a seal shows that was taken off. [`digest`] gives that of the first requests of any file, to be compared with one that
//! was written down. [`export`] writes the kept requests as the records that they came as, [`write_log`] as entries of a
//! log with their replies and moments, and [`write_plan`] the open branches as a plan, so that another bank can be given
//! them. A [`Difference`] is shown as a line, as `account 2 stands 0 due -100`.
#![tactic(auto)]

mod chain;
mod closing_digests;
mod closings;
mod compared;
mod comparing;
mod difference;
mod digests;
mod exports;
mod fault;
mod laws;
mod lines;
mod logs;
mod plan;
mod plan_digests;
mod ram;
mod refill;
mod replays;
mod shown;
mod visitors;
mod watch;
mod writes;

pub use chain::Digest;
pub use comparing::compare_standing;
pub use difference::{Agreed, Difference, Replay, Sides};
pub use digests::digest;
pub use exports::export;
pub use fault::{ReplayFault, bank_fault};
pub use laws::given_back_law;
pub use logs::{count_requests, write_log};
pub use plan::write_plan;
pub use replays::replay;
pub use visitors::{SmallRow, Visitor, visit_all};
pub use watch::{Unwatched, Watch};
