//! The first program of `command_line`.
use command_line::{CommandFault, drive_into};
use message_records::Branch;
use posting_core::{Counter, PlainBank, StoredClock};
use std::alloc::Global;
use std::io::Write;

pub fn first_drive<W: Write>(alloc: Global, output: &mut W) -> Result<(), CommandFault> {
    let mut bank = PlainBank::new(alloc);
    bank.open_branch(Branch::new(1).unwrap(), 3, None)?;
    let mut clock = StoredClock::new(Vec::new(alloc));
    drive_into(alloc, &mut bank, 7, 100, output, &mut clock)
}
