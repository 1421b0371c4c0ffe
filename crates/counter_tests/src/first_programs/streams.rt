//! The first program of `posting_core`.
use message_records::Branch;
use posting_core::{Clock, Count, Counter, StreamFault, post_stream};

pub fn first_stream<C: Counter, K: Clock>(
    bank: &mut C,
    clock: &mut K,
    mut records: &[u8],
    replies: &mut Vec<u8>,
) -> Result<Count, StreamFault> {
    match bank.open_branch(Branch::new(1).unwrap(), 3, None) {
        Ok(_) => post_stream(&mut records, replies, clock, bank),
        Err(fault) => Err(StreamFault::Bank(fault)),
    }
}
