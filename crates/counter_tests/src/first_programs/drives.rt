//! The first program of `load_driver`.
use load_driver::{DriveFault, Driven, drive_records};
use posting_core::{Counter, StoredClock};
use std::alloc::Global;

pub fn first_drive<C: Counter>(alloc: Global, bank: &mut C) -> Result<Driven, DriveFault> {
    let mut clock = StoredClock::new(Vec::new(alloc));
    drive_records(alloc, bank, &mut clock, 7, 1_000)
}
