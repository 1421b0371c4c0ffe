//! A batch of records, judged in memory (TPC-B 1.2). [`Batch::new`] places a slot under every key that the
//! records can touch. The caller fills each slot with what the tables have there, and
//! [`Batch::judge`] answers the records in order, each on what the ones before it left. The changed and the
//! new rows are then in its [`Overlay`], to be written. The function `first_batch` of `counter_tests`, which a
//! test runs, fills the slots of one record by hand, with a branch of three accounts whose balances are zero:
//!
//! ```rust
//! use message_records::{Branch, Cents, Moment, REQUEST_BYTES};
//! use posting_batch::{Batch, Judged};
//! use posting_rules::BranchRow;
//! use std::alloc::{AllocError, Global};
//!
//! pub fn first_batch(alloc: Global, record: [u8; REQUEST_BYTES]) -> Result<Judged, AllocError> {
//!     let mut batch = Batch::new(alloc, &[record])?;
//!     let (branch, zero) = (Branch::new(1).unwrap(), Cents::zero());
//!     let overlay = &mut batch.overlay;
//!     for slot in overlay.branches.iter_mut() {
//!         slot.stored = Some(BranchRow {
//!             branch,
//!             accounts: 3,
//!             balance: zero,
//!         });
//!     }
//!     for slot in overlay.tellers.iter_mut() {
//!         slot.stored = Some(zero);
//!     }
//!     for slot in overlay.accounts.iter_mut() {
//!         slot.stored = Some(zero);
//!     }
//!     Ok(batch.judge(Moment::new(1_795_442_400).unwrap()))
//! }
//! ```
//!
//! Only [`Batch::new`] takes memory, and where that was refused nothing is left. Judging can't fail. A single
//! request is a batch too: all of [`Batch::of_one`] lies in the value, and takes no memory.
//!
//! Read next: [`Batch`]; `specs/Batch`, what a batch covers and changes; the crate `bank_transactions`, which
//! fills a batch from the tables of a file and writes it.
#![tactic(auto)]

mod balances;
mod batch;
mod changes;
mod cover;
mod emptying;
mod overlay;
mod placement;
mod reads;
mod search;
mod slots;

pub use balances::BalanceRow;
pub use batch::{Batch, Judged, Replies};
pub use changes::change_at;
pub use overlay::Overlay;
pub use search::{balance_at, stored_branch, stored_floor};
pub use slots::{AccountSlot, BranchSlot, FloorSlot, RequestSlot, TellerSlot};
