//! A driver of load: the stream of requests that a plan and a seed draw (TPC-B 5.3, with its 85/15 rule).
//!
//! Each request has a teller of the plan; an account of that teller's branch, 85 times in 100, or one of the
//! other branches, if there are any; and an amount of -999,999..=999,999 cents. The function `first_requests`
//! of `counter_tests`, which a test runs, draws the first three requests of a plan and the seed 7:
//!
//! ```rust
//! use branch_loader::Plan;
//! use load_driver::{Driver, DriverFault};
//! use message_records::REQUEST_BYTES;
//! use std::alloc::Global;
//!
//! pub fn first_requests(
//!     alloc: Global,
//!     plan: &Plan,
//! ) -> Result<[Option<[u8; REQUEST_BYTES]>; 3], DriverFault> {
//!     let mut driver = Driver::new(alloc, plan, 7)?;
//!     Ok([driver.next(), driver.next(), driver.next()])
//! }
//! ```
//!
//! Read next: [`Driver::new`] and [`Driver::next`]; `specs/believed/Requests`, which says record n; [`drive_records`],
//! which submits such records to a counter and counts their replies.
#![tactic(auto)]

mod accounts;
mod draws;
mod drive;
mod drive_batches;
mod drive_fault;
mod driver;
mod open_branches;

pub use drive::{Driven, MAX_DRIVEN, drive_records};
pub use drive_fault::DriveFault;
pub use driver::{Driver, DriverFault, MAX_RECORDS};
