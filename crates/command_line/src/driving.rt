//! What the commands of the program do with a bank, whatever keeps it, and what they print of it: a plan is
//! loaded, records are driven, clients are served, and an audit is printed. The bank is any counter, and
//! the output any writer, so that nothing here knows SQLite.
//!
//! The function `first_drive` of `bank_trials`, which its script runs, drives 100 records of the seed 7 over
//! branch 1 of a bank in memory, and prints `records 100 posted 100 refused 0`:
//!
//! ```rust
//! use command_line::{CommandFault, drive_into};
//! use message_records::Branch;
//! use posting_core::{Counter, PlainBank, StoredClock};
//! use std::alloc::Global;
//! use std::io::Write;
//!
//! pub fn first_drive<W: Write>(alloc: Global, output: &mut W) -> Result<(), CommandFault> {
//!     let mut bank = PlainBank::new(alloc);
//!     bank.open_branch(Branch::new(1).unwrap(), 3, None)?;
//!     let mut clock = StoredClock::new(Vec::new(alloc));
//!     drive_into(alloc, &mut bank, 7, 100, output, &mut clock)
//! }
//! ```
//!
//! [`load_into`] opens the branches of a plan, [`listen`] serves clients, and [`print_audit`] says
//! whether the books agree (TPC-B clause 2). A fault is a `CommandFault`. Read next:
//! `specs/Working`, what the work does to its bank and what it prints. The crate `bank_commands` is a
//! caller.
ghost use Rattle.std.specs.Prelude.{◌≡◌, ◌≢◌, ◌≤◌, IfErr, OnOk};
ghost use Rattle.std.specs.Result.{IsErrOf};
ghost use Rattle.std.specs.Io.KnownBytes.{Keeps};
ghost use Rattle.posting_core.specs.EndCalls.{HasWriteFailed};
ghost use Rattle.command_line.specs.Working.{DrivesOver, TellsDriven, done_after};

use crate::{CommandFault, print_driven};
use load_driver::{MAX_DRIVEN, drive_records};
use posting_core::{Clock, Counter, Sink};
use std::alloc::Global;

/// Posts the first `count` records of a seed over the open branches of a bank, and prints how many were
/// posted.
pub fn drive_into<C: Counter, W: Sink, K: Clock>(
    alloc: Global,
    bank: &mut C,
    seed: u64,
    count: u64,
    output: &mut W,
    clock: &mut K,
) -> Result<(), CommandFault>
    requires some { 1 ≤ count }
    requires few { count ≤ MAX_DRIVEN }
    ensures drives { DrivesOver C.seen C.reason (K.readings clock.old) (K.readings clock.new)
        (W.contents output.old) (W.contents output.new) seed count
        (λ end. done_after result ≡ end) bank.old bank.new }
    ensures line { OnOk result (TellsDriven count (W.contents output.old) (W.contents output.new)) }
    ensures silent { IfErr result
        (λ fault. fault ≢ CommandFault.Write → Keeps (W.contents output.old) (W.contents output.new)) }
    ensures unprinted { IsErrOf result CommandFault.Write
        → HasWriteFailed (W.calls output.old) (W.calls output.new) }
    ensures spares { C.spares bank.old bank.new }
{
    let driven = drive_records(alloc, bank, clock, seed, count)?;
    print_driven(count, driven, output)
}
