//! The first program of numbers as runs.
use posting_rules::{ClosingRow, NumberRuns};
use std::alloc::{AllocError, Global};

pub fn first_runs(alloc: Global) -> Result<Option<u64>, AllocError> {
    let mut used = Vec::new(alloc);
    for key in [7, 8, 3, 8] {
        used.push(ClosingRow {
            last: key,
            first: key,
        })?;
    }
    let mut closed = Vec::new(alloc);
    closed.push(ClosingRow { last: 8, first: 7 })?;
    let used = NumberRuns::of(alloc, used)?;
    let closed = NumberRuns::of(alloc, closed)?;
    Ok(used.first_difference(&closed))
}
