//! The first program of `posting_batch`.
use message_records::{Branch, Cents, Moment, REQUEST_BYTES};
use posting_batch::{Batch, Judged};
use posting_rules::BranchRow;
use std::alloc::{AllocError, Global};

pub fn first_batch(alloc: Global, record: [u8; REQUEST_BYTES]) -> Result<Judged, AllocError> {
    let mut batch = Batch::new(alloc, &[record])?;
    let (branch, zero) = (Branch::new(1).unwrap(), Cents::zero());
    let overlay = &mut batch.overlay;
    for slot in overlay.branches.iter_mut() {
        slot.stored = Some(BranchRow {
            branch,
            accounts: 3,
            balance: zero,
        });
    }
    for slot in overlay.tellers.iter_mut() {
        slot.stored = Some(zero);
    }
    for slot in overlay.accounts.iter_mut() {
        slot.stored = Some(zero);
    }
    Ok(batch.judge(Moment::new(1_795_442_400).unwrap()))
}
