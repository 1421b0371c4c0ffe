//! Records to a bank and replies from it: the bank in memory, and the functions that take records from any
//! reader to any counter and write the replies to any writer. What a posting is says the crate
//! `posting_rules`, whose names can be used from here too. The function `first_stream` of `counter_tests`, which
//! a test runs, opens branch 1 with three accounts and answers the records:
//!
//! ```rust
//! use message_records::Branch;
//! use posting_core::{Clock, Count, Counter, StreamFault, post_stream};
//!
//! pub fn first_stream<C: Counter, K: Clock>(
//!     bank: &mut C,
//!     clock: &mut K,
//!     mut records: &[u8],
//!     replies: &mut Vec<u8>,
//! ) -> Result<Count, StreamFault> {
//!     match bank.open_branch(Branch::new(1).unwrap(), 3, None) {
//!         Ok(_) => post_stream(&mut records, replies, clock, bank),
//!         Err(fault) => Err(StreamFault::Bank(fault)),
//!     }
//! }
//! ```
//!
//! Three types say what can fail, and what holds afterwards. [`Fault`] is a counter's: `Memory` (nothing has
//! changed, and the counter can be used), `Store` and `Damaged` (the counter is down from then on), and
//! `Down` (it went down in an earlier call). [`OnceFault`] and [`StreamFault`] are those of [`answer_once`]
//! and [`post_stream`]: the input ended within a record, a read failed, a write failed, or the counter
//! answered with a `Fault`.
//!
//! Read next: the trait [`Counter`], which every bank implements; [`post_stream`], with its contract in
//! `specs/Stream`.
#![tactic(auto)]

mod branches;
mod clock;
mod ends;
mod entries;
mod followed;
mod once;
mod plain_bank;
mod resends;
mod stream;
mod system_clock;
pub mod transfer;
mod walking;

pub use clock::{Clock, StoredClock};
pub use ends::{Sink, Source};
pub use entries::{ENTRY_BYTES, Entry, decode_entry, encode_entry, entries_are_added};
pub use followed::{ENTRIES_PER_ANSWER, Followed};
pub use once::{OnceFault, answer_once};
pub use plain_bank::PlainBank;
pub use posting_batch::{
    AccountSlot, Batch, BranchSlot, FloorSlot, Judged, Overlay, RequestSlot, TellerSlot,
};
pub use posting_rules::{
    ACCOUNTS_PER_BRANCH, AccountRow, BankTable, Books, BranchLine, BranchRow, Closing, ClosingRow,
    Counter, Decision, Fault, FloorRow, Found, HistoryRow, Kept, LAST_BRANCH, MAX_ACCOUNTS,
    MAX_DECIDED, OpenFault, Opening, Ordinal, RECORDS_PER_BATCH, ReferenceRow, RequestRow, Rule,
    TELLERS_PER_BRANCH, TellerRow, Verdict, accounts_stay_above, balances_stay_within,
    branch_of_account, branch_of_teller, cases_are_as_stated, each_request_once,
    equal_tables_answer_alike, first_account, first_teller, judge, malformed_reply,
    place_of_account, reply_to, resends_get_their_replies, sealed_law, tables_are_consistent,
    tables_are_undamaged, two_years_law,
};
pub use resends::calls_resend_law;
pub use stream::{Count, StreamFault, post_stream};
pub use system_clock::{SystemClock, TimeTeller, moment_of};
pub use transfer::{WriteFailed, write_each, write_out};
