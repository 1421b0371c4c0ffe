//! The driver at work: the requests of the 85/15 rule (TPC-B 5.3), drawn over the open branches of any
//! counter, submitted in batches and counted by their replies. The function `first_drive` of
//! `counter_tests`, which a test runs, submits a thousand records of the seed 7, each at the moment 0:
//!
//! ```rust
//! use load_driver::{DriveFault, Driven, drive_records};
//! use posting_core::{Counter, StoredClock};
//! use std::alloc::Global;
//!
//! pub fn first_drive<C: Counter>(alloc: Global, bank: &mut C) -> Result<Driven, DriveFault> {
//!     let mut clock = StoredClock::new(Vec::new(alloc));
//!     drive_records(alloc, bank, &mut clock, 7, 1_000)
//! }
//! ```
//!
//! Read next: [`drive_records`], with its errors; [`Driver`](crate::Driver), which draws the records;
//! `specs/believed/Drives`, what a drive does, and what a crash in it leaves.
ghost use Rattle.std.specs.Prelude.{◌≡◌, ◌≤◌, ◌↔◌, [], List, IfOk, IfErr, OnOk, Err};
ghost use Rattle.std.specs.Result.{IsErrOf};
ghost use Rattle.posting_rules.specs.believed.Commands.{Command};
ghost use Rattle.posting_rules.specs.believed.Counter.{ShowsLog};
ghost use Rattle.posting_core.specs.Stream.{IsOfCall};
ghost use Rattle.load_driver.specs.believed.Requests.{IsAscending};
ghost use Rattle.load_driver.specs.believed.Drives.{Drives, Submits};
ghost use Rattle.load_driver.specs.Drives.{MayRefuse, DrivesAgain, IfRefused, UnlessDown};
ghost use Rattle.load_driver.specs.Records.{NoneOpen};

use crate::drive_batches::submit_batch;
use crate::drive_fault::DriveFault;
use crate::open_branches::list_branches;
use crate::{Driver, DriverFault};
use branch_loader::Plan;
use message_records::REQUEST_BYTES;
use posting_core::{Clock, Counter, Fault, RECORDS_PER_BATCH};
use std::alloc::Global;

/// How many records can be asked for in one drive.
pub const MAX_DRIVEN: u64 = 1_000_000_000;

/// How many records got which reply. The two add up to the records that were asked for.
#[derive(Clone, Copy, Debug, PartialEq, Eq)]
pub struct Driven {
    /// Those with the outcome POSTED, also for a record that was posted before.
    pub posted: u64,
    /// Those with any other outcome.
    pub refused: u64,
}

// The driver of a plan and a seed, with its faults as those of a drive.
fn driver_of(alloc: Global, plan: &Plan, seed: u64) -> Result<Driver, DriveFault>
    ensures rows { IfOk result (λ driver. IsAscending plan.now driver.rows) }
    ensures seed { IfOk result (λ driver. driver.seed ≡ seed) }
    ensures given { IfOk result (λ driver. driver.given ≡ 0) }
    ensures some { OnOk result (plan.now ≡ [] → ⊥) }
    ensures fault { IfErr result (MayRefuse plan.now) }
{
    match Driver::new(alloc, plan, seed) {
        Ok(driver) => Ok(driver),
        Err(DriverFault::Empty) => Err(DriveFault::NoBranches),
        Err(DriverFault::Memory) => Err(DriveFault::Bank(Fault::Memory)),
    }
}

// Submits the first `count` records of a driver that has given none.
fn drive<C: Counter, K: Clock>(
    driver: &mut Driver,
    counter: &mut C,
    clock: &mut K,
    count: u64,
) -> Result<Driven, DriveFault>
    requires first { driver.old.given ≡ 0 }
    requires few { count ≤ MAX_DRIVEN }
    requires up { (C.seen counter.old).is_down → ⊥ }
    ensures submits { Submits C.seen counter.old counter.new (K.readings clock.old) (K.readings clock.new)
        driver.old.rows driver.old.seed count result }
    ensures spares { C.spares counter.old counter.new }
    ensures some { IfErr result (λ fault. fault ≡ DriveFault.NoBranches → ⊥) }
    ensures tried { IsErrOf result (DriveFault.Bank Fault.Down) → ⊥ }
    ensures up { UnlessDown result ((C.seen counter.new).is_down → ⊥) }
    ensures why { IfErr result (λ fault. IfRefused fault
        (IsOfCall C.seen C.reason counter.old counter.new)) }
    ensures honest { (C.seen counter.new).honest → (C.seen counter.old).honest }
{
    let mut records = [[0u8; REQUEST_BYTES]; RECORDS_PER_BATCH];
    let mut driven = Driven {
        posted: 0,
        refused: 0,
    };
    let mut left = count;
    while left > 0 {
        let size = left.min(RECORDS_PER_BATCH as u64);
        let batch = &mut records[..size as usize];
        let posted = submit_batch(driver, batch, counter, clock)?;
        driven.posted += posted;
        driven.refused += size - posted;
        left -= size;
    }
    Ok(driven)
}

/// Submits the first `count` records of a seed, 1..=`MAX_DRIVEN`, over the branches that are open at the
/// counter, and counts their replies (TPC-B 5.3).
///
/// Each batch has 64 records, but the last one may have fewer, and is submitted under one reading of the
/// clock. With the same seed and the same open branches the records are the same, so that a drive that is
/// made again posts nothing twice and counts the same replies. It takes memory for the list of branches and
/// for a count of each teller before the first batch, and none for its batches.
///
/// # Errors
///
/// The batches that were answered before a fault are kept, and a crash leaves all of them.
///
/// - [`DriveFault::NoBranches`]: no branch is open, and nothing was submitted.
/// - [`DriveFault::Bank`]: the counter refused to list its branches or to take a batch, and what holds of it
///   then is said by the fault. `Memory` is also want of memory of the drive itself.
pub fn drive_records<C: Counter, K: Clock>(
    alloc: Global,
    counter: &mut C,
    clock: &mut K,
    seed: u64,
    count: u64,
) -> Result<Driven, DriveFault>
    requires some { 1 ≤ count }
    requires few { count ≤ MAX_DRIVEN }
    ensures drives { Drives C.seen counter.old counter.new (K.readings clock.old) (K.readings clock.new)
        seed count result }
    ensures none { result ≡ Err DriveFault.NoBranches → (C.seen counter.new).honest
        → (log : List Command) → ShowsLog (C.seen counter.old) log → NoneOpen log }
    ensures some { OnOk result ((C.seen counter.new).honest
        → (log : List Command) → ShowsLog (C.seen counter.old) log → NoneOpen log → ⊥) }
    ensures resend { IfOk result (DrivesAgain (C.seen counter.old) (C.seen counter.new) seed count) }
    ensures up { UnlessDown result ((C.seen counter.new).is_down → (C.seen counter.old).is_down) }
    ensures why { IfErr result (λ fault. IfRefused fault
        (IsOfCall C.seen C.reason counter.old counter.new)) }
    ensures down { IsErrOf result (DriveFault.Bank Fault.Down) ↔ (C.seen counter.old).is_down }
    ensures spares { C.spares counter.old counter.new }
{
    let plan = list_branches(alloc, counter)?;
    let mut driver = driver_of(alloc, &plan, seed)?;
    drive(&mut driver, counter, clock, count)
}
