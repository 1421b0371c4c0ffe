//! What a bank does to its tables: a request, an opening and a look-up, each in one transaction (TPC-B,
//! clause 1.2). The tables are those of `store_rows` in a SQLite file.
//!
//! Each of [`post_all`], [`post_looked_up`], [`open_branch`], [`read_balance`] and [`read_next_branch`] is a whole
//! transaction. It is called outside of one, and none goes on after it. [`begin`] and [`finish`] stand around parts that are
//! put together otherwise: [`branch_at`], [`teller_balances`], [`open_balance`],
//! [`kept_request`] and [`decided`] look up, [`write_balance`] and [`write_decided`] write.
//!
//! The function `first_request` of `store_tests`, which a test runs, opens branch 1 with three accounts in a
//! file that has the tables, and posts 500 cents to the first. Its reply says `POSTED` and a balance of 500:
//!
//! ```rust
//! ghost use Rattle.std.specs.Prelude.{◌≡◌, false};
//!
//! use bank_transactions::{Memory, open_branch, post_looked_up};
//! use message_records::{Account, Branch, Cents, Moment, Number, Request, Teller};
//! use posting_batch::{Batch, Replies};
//! use sqlite::{Alter, Connection};
//! use std::alloc::Global;
//! use store_rows::TableFault;
//!
//! pub fn first_request<S: Alter>(
//!     alloc: Global,
//!     conn: &mut Connection<S>,
//! ) -> Result<Replies, TableFault>
//!     requires { conn.old.in_transaction ≡ false }
//! {
//!     open_branch(conn, Branch::new(1).unwrap(), 3, None)?;
//!     let request = Request::new(
//!         Account::new(1).unwrap(),
//!         Teller::new(1).unwrap(),
//!         Branch::new(1).unwrap(),
//!         Number::new(1).unwrap(),
//!         Cents::new(500).unwrap(),
//!         None,
//!     );
//!     let batch = Batch::of_one(alloc, request.unwrap());
//!     let moment = Moment::new(1_795_442_400).unwrap();
//!     post_looked_up(conn, &mut Memory::new(), moment, batch)
//! }
//! ```
//!
//! The reply has the request's outcome, be it posted or refused. A `TableFault` says that there is no
//! answer: `Sqlite` that a call of `sqlite` failed, with its error, and `Damaged` which rule the stored rows
//! break. Either way nothing of the call is kept, unless it is the commit that failed: then a crash may show
//! later that it was kept after all. What the calls come to is said in `specs/Doing`; start with
//! `Transacts`. What they answer of whatever rows a file holds is said in `specs/believed/Stored`.
#![tactic(auto)]

mod balances;
mod batch_changes;
mod batches;
mod closed;
mod closings;
mod first_try;
mod floors;
mod gathering;
mod known;
mod known_rows;
mod look_ups;
mod memory;
mod new_branch;
mod next_branch;
mod slots;
mod strays;
mod transactions;

pub use balances::{write_balance, write_decided};
pub use batch_changes::write;
pub use batches::{answer_batch, post_all, post_looked_up};
pub use closings::close_numbers;
pub use known_rows::Known;
pub use look_ups::{branch_at, decided, kept_request, open_balance, teller_balances};
pub use memory::Memory;
pub use next_branch::read_next_branch;
pub use slots::fill;
pub use transactions::{begin, finish, note_settled, open_branch, read_balance, read_teller};
