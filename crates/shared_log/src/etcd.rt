//! A log that machines share, over etcd: a counter's entries lie under keys of a cluster that keeps them on a quorum of its
//! members. It is asked by a member's JSON gateway, which speaks plain HTTP, on loopback beside the counter. The function
//! `first_log` of `sharing_trials`, which its scenes call, connects to a log:
//!
//! ```rust
//! use shared_log::{Dial, DialedLog};
//! use std::alloc::Global;
//!
//! pub fn first_log<D: Dial + Drop>(alloc: Global, dial: D) -> Option<DialedLog<D>> {
//!     let Ok(name) = Vec::from_slice(alloc, b"office") else {
//!         return None;
//!     };
//!     DialedLog::connect(alloc, name, dial)
//! }
//! ```
//!
//! `bank/NAME/end` has the place of the log's end, in 20 digits, and `bank/NAME/log/PLACE` the entries that were appended
//! there, one after another. Each call is one transaction that compares `end` with the place that is known. So an append
//! puts its entries and the new end together, or nothing, and whoever isn't at the end appends nothing. A log begins when
//! somebody puts a zero under its `end`: a name that is mistyped is no new log.
//!
//! An answer that is cut, is longer than [`MOST_ANSWER_BYTES`], has another status than 200, or doesn't say which of both
//! happened, is `Unanswered`. The connection isn't used again then: an answer that comes late would be taken for the next
//! one's. [`DialedLog`] connects again.
//!
//! What answers gave or acknowledged, one behind another, is what a log is known to hold. These entries stand in
//! `src/etcd/held`, in proofs alone: nothing but [`EtcdLog`]'s clauses ties them to an answer's bytes.
//!
//! Read next: `specs/etcd/Texts`, what is asked; `specs/etcd/Answers`, what an answer says; [`EtcdLog`], with
//! `specs/etcd/Asked`.

mod answers;
mod asking;
mod dialing;
mod held;
mod log;
mod meanings;
mod texts;

pub use asking::MOST_ANSWER_BYTES;
pub use dialing::{Dial, DialedLog};
pub use log::EtcdLog;
