//! The most rows of a table, and the sizes of what is written.
use posting_rules::{LAST_BRANCH, MAX_DECIDED};

/// The most rows that a table has: its keys are numbers from 1 on, and none is greater.
pub const MAX_ROWS: u64 = MAX_DECIDED;

/// How many branches there can be.
pub(crate) const BRANCHES: usize = LAST_BRANCH as usize;
