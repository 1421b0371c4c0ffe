//! The greatest keys of tables (the scaling of TPC-B).
use posting_rules::{ACCOUNTS_PER_BRANCH, LAST_BRANCH, MAX_ACCOUNTS, TELLERS_PER_BRANCH};

/// The greatest number of a teller of a branch that can be opened.
pub const LAST_TELLER: u64 = LAST_BRANCH * TELLERS_PER_BRANCH;

/// The greatest number of an account of such a branch.
pub const LAST_ACCOUNT: u64 = LAST_BRANCH * ACCOUNTS_PER_BRANCH;

/// The greatest count of accounts that a branch can have.
pub const MAX_COUNTED: u64 = MAX_ACCOUNTS as u64;
