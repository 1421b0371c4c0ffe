//! The first program of a desk's postings.
use carried_books::{Forward, Lack};
use message_records::{Account, Branch, Request};
use posting_rules::NumberRuns;
use std::alloc::{AllocError, Global};

pub fn first_forward(alloc: Global) -> Result<Option<Request>, AllocError> {
    let used = NumberRuns::of(alloc, Vec::new(alloc))?;
    let mut forward = Forward::new(alloc, Branch::new(9).unwrap(), used, 0);
    forward.add(Lack::Account(Account::new(1).unwrap(), 500))?;
    Ok(forward.next_posting())
}
