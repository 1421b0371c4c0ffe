//! The lengths of records, and the greatest values of their fields. Code, contracts and definitions take them
//! from here.

/// The length in bytes of a request: its fields, and spaces after them.
pub const REQUEST_BYTES: usize = 100;

/// The length in bytes of a reply: its fields, and spaces after them.
pub const REPLY_BYTES: usize = 200;

/// The length in bytes of a reference.
pub const REFERENCE_BYTES: usize = 20;

/// The greatest number of an account: twelve digits.
pub const MAX_ACCOUNT: u64 = 999_999_999_999;

/// The greatest number of a teller: eight digits.
pub const MAX_TELLER: u64 = 99_999_999;

/// The greatest number of a branch in a record: six digits.
pub const MAX_BRANCH: u64 = 999_999;

/// The greatest of a teller's own numbers for requests: ten digits.
pub const MAX_NUMBER: u64 = 9_999_999_999;

/// The last moment, in seconds since 1970-01-01T00:00:00Z: the end of the year 9999.
pub const MAX_MOMENT: u64 = 253_402_300_799;

/// How far from zero a balance may be, in cents: twelve digits (TPC-B 1.2 asks for ten at least, and a sign).
pub const MAX_BALANCE: u64 = 999_999_999_999;

/// How far from zero the amount of a request may be, in cents: ten digits.
pub const MAX_DELTA: u64 = 9_999_999_999;
