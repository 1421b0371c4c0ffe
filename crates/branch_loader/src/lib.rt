//! The plan of the branches that a bank is to have, read from CSV, and the loading of a plan into a counter.
//! The first row is the header `branch,accounts`; each row after it has the number of a branch, 1 to
//! 9,999 (`LAST_BRANCH`), and how many accounts it is to have, 1 to 100,000 (`MAX_ACCOUNTS`). The test
//! `first_plan` of `counter_tests` loads a plan into a bank in memory, twice:
//!
//! ```rust
//! use branch_loader::{load, read_plan};
//! use posting_core::PlainBank;
//! use std::test::Fail;
//!
//! fn first_plan(rt: HostRuntime) -> Result<(), Fail> {
//!     let mut source = b"branch,accounts\n1,3\n2,2\n".as_slice();
//!     let plan = read_plan(rt.alloc(), &mut source)?;
//!     let mut bank = PlainBank::new(rt.alloc());
//!     let loaded = load(&plan, &mut bank)?;
//!     assert_eq!(rt; (loaded.opened, loaded.already), (2, 0));
//!     let again = load(&plan, &mut bank)?;
//!     assert_eq!(rt; (again.opened, again.already), (0, 2));
//!     Ok(())
//! }
//! ```
//!
//! A third count of [`Loaded`], `differs`, is of the branches that are open with another count of accounts or
//! another floor, which they keep. A plan whose header is `branch,accounts,floor` gives a branch the balance
//! below which none of its accounts may go, or nothing. [`Plan::from_list`] makes a plan without a source, of a
//! vector of [`PlanRow`]s.
//!
//! [`PlanFault`] says why a source is no plan: its header, or a row, counted from 1, whose columns, branch,
//! count of accounts or floor are wrong or whose branch an earlier row has; or that the source can't be read,
//! or that memory was refused. Nothing is opened then. A fault of [`load`] is the counter's: the branches before it
//! are open, and a plan can be loaded again, since an open branch stays as it is.
//!
//! [`follow`] takes a counter along the log of another one: it posts the entries of a stream at their moments, and opens
//! a branch of a plan before the first entry that needs it. [`FollowFault`] says why it ends before its input does.
//!
//! Read next: [`read_plan`] and [`load`]; `specs/Plans`, which says what a plan is; [`follow`], with its contract in
//! `specs/Followed`.
#![tactic(auto)]

mod entry_stream;
mod fault;
mod follow_fault;
mod followers;
mod loader;
mod plan;
mod read;
mod records;
mod text;

pub use entry_stream::{FollowWatch, follow};
pub use fault::PlanFault;
pub use follow_fault::{FollowFault, OtherReply};
pub use loader::{Loaded, load};
pub use plan::{Plan, PlanRow};
pub use read::{next_record, read_plan};
pub use records::RecordSource;
pub use text::read_text;
