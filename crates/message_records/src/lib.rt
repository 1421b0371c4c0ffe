//! The records of a bank, and the types of their fields. A request is [`REQUEST_BYTES`] bytes of ASCII, and
//! its reply is [`REPLY_BYTES`] (TPC-A, contents of the messages). A request may have a [`Reference`] after
//! its amount, [`REFERENCE_BYTES`] bytes of printable ASCII; its reply shows it without. Each value has one
//! spelling: what is written is read again as the same value, and no other bytes are read as it. The test
//! `first_record` of `counter_tests` writes a request and reads it:
//!
//! ```rust
//! use message_records::{
//!     Account, Bad, Branch, Cents, Number, Request, Teller, decode_request, encode_request,
//! };
//! use std::test::Fail;
//!
//! fn first_record(rt: HostRuntime) -> Result<(), Fail> {
//!     let account = Account::new(1).unwrap();
//!     let teller = Teller::new(1).unwrap();
//!     let branch = Branch::new(1).unwrap();
//!     let number = Number::new(1).unwrap();
//!     let delta = Cents::new(500).unwrap();
//!     let request = Request::new(account, teller, branch, number, delta, None).unwrap();
//!     let mut bytes = encode_request(&request);
//!     let text = b"DC01000000000001000000010000010000000001+0000000500"; // and 49 spaces
//!     assert!(rt; bytes.starts_with(text));
//!     assert_eq!(rt; decode_request(&bytes), Ok(request));
//!     bytes[99] = b'x';
//!     assert_eq!(rt; decode_request(&bytes), Err(Bad::Filler));
//!     Ok(())
//! }
//! ```
//!
//! A constructor as [`Account::new`](Whole::new) gives `None` for a number out of its range. [`Bad`] and
//! [`BadReply`] name the first field, from the left, whose bytes are wrong, and nothing else can fail: no
//! function of this crate takes memory.
//!
//! Read next: [`decode_request`] and [`encode_reply`]; [`Outcome`], what a reply says of its request.
#![tactic(auto)]

mod draft;
mod fault;
mod laws;
mod limits;
mod numbers;
mod reading;
mod records;
mod reference;
mod writing;

pub use fault::{Bad, BadReply};
pub use laws::one_spelling;
pub use limits::{
    MAX_ACCOUNT, MAX_BALANCE, MAX_BRANCH, MAX_DELTA, MAX_MOMENT, MAX_NUMBER, MAX_TELLER,
    REFERENCE_BYTES, REPLY_BYTES, REQUEST_BYTES,
};
pub use numbers::{Account, Branch, Cents, Moment, Number, Teller, Whole};
pub use reading::{decode_reply, decode_request, read_digits};
pub use records::{Outcome, Reply, Request};
pub use reference::Reference;
pub use writing::{encode_reply, encode_request};
