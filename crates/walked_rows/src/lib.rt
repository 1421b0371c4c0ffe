//! The rows of a bank's tables one after another, by rising keys, as the file has them. A row can't be given
//! if its key, its count of accounts or its moment is out of its range (the scaling of TPC-B), or its
//! reference is none. The other numbers are given whatever they are, so that an audit sees rows that no bank
//! writes.
//!
//! [`WalkedRow::read_some`] puts the rows from a key on into room for [`AHEAD`] of them, and returns the key from
//! which on the others follow, or none where no row was left. The function `first_accounts` of
//! `store_tests`, which a test runs, adds up the balances of the first accounts. In a bank of three accounts
//! with one posting of 500 cents it returns 500 and the key 4:
//!
//! ```rust
//! use arrayvec::ArrayVec;
//! use sqlite::{Alter, Connection};
//! use store_rows::TableFault;
//! use walked_rows::{AHEAD, StoredAccount, WalkedRow};
//!
//! pub fn first_accounts<S: Alter>(
//!     conn: &mut Connection<S>,
//! ) -> Result<(i64, Option<i64>), TableFault> {
//!     let mut rows: ArrayVec<StoredAccount, AHEAD> = ArrayVec::new();
//!     let rest = StoredAccount::read_some(conn, None, 1, &mut rows)?;
//!     let mut sum = 0i64;
//!     for row in rows.as_slice() {
//!         sum = sum.saturating_add(row.balance);
//!     }
//!     Ok((sum, rest))
//! }
//! ```
//!
//! Read next: [`StoredRow`], a row of one table; [`Joined`], a row with the one of another table under its
//! key; [`StatedPosting`], a posting with the reference of its request; [`KeptRequest`], a request with both;
//! `specs/Stored`, how a file holds a row. The type `Walk` of the crate `bank_store` goes through all rows of a
//! bank by such calls.
#![tactic(auto)]

mod accounts;
mod ahead;
mod alone;
mod answered;
mod beside;
mod branches;
mod closings;
mod floors;
mod joined;
mod kept;
mod limits;
mod listed;
mod metas;
mod numbers;
mod postings;
mod references;
mod referred;
mod requests;
mod stated;
mod statements;
mod stored_row;
mod tellers;
mod walked;

pub use accounts::StoredAccount;
pub use ahead::AHEAD;
pub use alone::only_meta;
pub use answered::{moment_of, reply_of, request_of};
pub use branches::StoredBranch;
pub use closings::StoredClosing;
pub use floors::StoredFloor;
pub use joined::Joined;
pub use kept::{KeptRequest, read_kept};
pub use limits::{LAST_ACCOUNT, LAST_TELLER, MAX_COUNTED};
pub use listed::StoredReference;
pub use metas::StoredMeta;
pub use postings::StoredPosting;
pub use requests::StoredRequest;
pub use stated::StatedPosting;
pub use stored_row::StoredRow;
pub use tellers::StoredTeller;
pub use walked::WalkedRow;
