//! Values that are known under keys, so that they aren't looked up again: a table of a fixed size.
//!
//! [`Known::with_places`] makes a table, and [`Known::put`] puts a value under a key. Each key has one place, by its
//! low bits, and a value takes that place from whatever was there. So [`Known::get`] may find nothing under a key
//! that a value was put under, but never another key's value, nor an older one. The test `first_look_ups` of
//! `store_tests` looks some up, in a table in which 1 and 17 have one place:
//!
//! ```rust
//! use bank_transactions::Known;
//! use std::test::Fail;
//!
//! fn first_look_ups(rt: HostRuntime) -> Result<(), Fail> {
//!     let mut balances = Known::with_places(rt.alloc(), 4)?;
//!     balances.put(1, 500_i64);
//!     balances.put(2, -700);
//!     assert_eq!(rt; balances.get(1), Some(500));
//!     balances.put(17, 30);
//!     assert_eq!(rt; balances.get(1), None);
//!     assert_eq!(rt; balances.get(17), Some(30));
//!     balances.forget_key(2);
//!     assert_eq!(rt; balances.get(2), None);
//!     balances.forget();
//!     assert_eq!(rt; balances.get(17), None);
//!     Ok(())
//! }
//! ```
//!
//! A table takes its memory when it is made. [`Known::none`] takes none, and never knows anything. `specs/Known`
//! says what is known under a key.
mod entry;
mod table;

pub use table::Known;
