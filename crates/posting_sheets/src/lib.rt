//! Postings and replies as sheets, texts of CSV, for who writes and reads them by hand. [`encode_sheet`] writes
//! the records of the postings of a sheet, [`decode_replies`] a sheet of the replies to them, and [`decode_beside`] one
//! that has their rows of the first sheet too. All read from any source, write to any sink, and touch no bank. The test
//! `first_sheet` of `counter_tests` makes a record of a posting:
//!
//! ```rust
//! use posting_sheets::encode_sheet;
//! use std::test::Fail;
//!
//! fn first_sheet(rt: HostRuntime) -> Result<(), Fail> {
//!     let mut sheet = b"account,teller,number,delta\n1,1,1,500\n".as_slice();
//!     let mut records: Vec<u8> = Vec::new(rt.alloc());
//!     assert_eq!(rt; encode_sheet(rt.alloc(), &mut sheet, &mut records)?, 1);
//!     let text = b"DC01000000000001000000010000010000000001+0000000500"; // and 49 spaces
//!     assert!(rt; records.starts_with(text));
//!     Ok(())
//! }
//! ```
//!
//! A sheet's header is `account,teller,number,delta`, with cents, or `account,teller,number,amount`, with decimals as
//! `-7.00` ([`Money`]); a column `branch`, a column `reference`, or the one and then the other may follow. Where a branch
//! is left out, it is the teller's.
//! [`SheetFault`] says why a sheet has no records: its header, or a row, counted from 1, and which column of it is wrong,
//! and what stands there ([`BadRow`]); or that an end failed, or that memory was refused. Unless it was the sink nothing is
//! written then. [`RepliesFault`] says of replies why they have no more lines.
//!
//! Read next: [`encode_sheet`] and [`decode_replies`]; `specs/Sheets`, which says what a sheet states, `specs/Replies`,
//! what the sheet of replies is, and `specs/Beside`, what it is with rows. [`reference_field`] is a reference as CSV has it.
#![tactic(auto)]

mod decode;
mod encode;
mod fault;
mod field;
mod form;
mod line;
mod money;
mod quoting;
mod row;
mod rows;

pub use decode::{decode_beside, decode_replies};
pub use encode::encode_sheet;
pub use fault::{BadRow, Column, RepliesFault, SheetFault};
pub use field::FieldStart;
pub use money::Money;
pub use quoting::{REFERENCE_FIELD, ReferenceField, push_text, reference_field};
pub use row::reference_of;
