//! The limits of a bank. Code, contracts and definitions take them from here.

/// How many requests a bank may decide.
pub const MAX_DECIDED: u64 = 1_000_000_000_000;

/// The greatest number of a branch that can be opened.
pub const LAST_BRANCH: u64 = 9_999;

/// Every branch has ten tellers, numbered through (the scaling of TPC-B).
pub const TELLERS_PER_BRANCH: u64 = 10;

/// How many numbers of accounts a branch has, numbered through (the scaling of TPC-B).
pub const ACCOUNTS_PER_BRANCH: u64 = 100_000;

/// How many numbers a teller has for its requests, with the 0 that none of them has.
pub const NUMBERS_PER_TELLER: u64 = 10_000_000_000;

/// The greatest key of a number: that of the last number of the last teller.
pub const LAST_KEY: u64 = 999_999_999_999_999_999;

/// How many accounts a branch can be opened with.
pub const MAX_ACCOUNTS: u32 = ACCOUNTS_PER_BRANCH as u32;

/// How many records can be submitted together.
pub const RECORDS_PER_BATCH: usize = 64;
