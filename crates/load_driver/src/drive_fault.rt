//! Why a drive ended before its last record.
use posting_core::Fault;
use std::alloc::AllocError;
use std::fmt;

/// Why a drive ended before its last record. What was answered before is kept.
#[derive(Clone, Copy, Debug, PartialEq, Eq)]
pub enum DriveFault {
    /// No branch is open. Nothing was submitted.
    NoBranches,
    /// The bank refused a call, and its fault says what holds then. Memory that was refused to the drive
    /// itself is `Memory` too.
    Bank(Fault),
}

/// A text of a line. A fault of the bank has its own.
impl fmt::Display for DriveFault {
    ghost use Rattle.std.specs.Prelude.{Some};
    ghost use Rattle.load_driver.specs.DriveFaults.{drive_text};

    ghost output = { λ fault. Some (drive_text fault) };

    fn fmt<W: fmt::Write>(&self, f: &mut fmt::Formatter<W>) -> fmt::Result {
        match self {
            DriveFault::NoBranches => write!(f, "no branches"),
            DriveFault::Bank(fault) => write!(f, "{fault}"),
        }
    }
}

impl std::error::Error for DriveFault {}

impl From<Fault> for DriveFault {
    ghost use Rattle.std.specs.Prelude.{◌≡◌};
    ghost use Rattle.load_driver.specs.declared.drive_fault.DriveFault.TheVariants.{Bank};

    ghost from_gives = { λ fault drive. drive ≡ Bank fault };

    fn from(fault: Fault) -> Self {
        DriveFault::Bank(fault)
    }
}

impl From<AllocError> for DriveFault {
    ghost use Rattle.std.specs.Prelude.{◌≡◌};
    ghost use Rattle.load_driver.specs.declared.drive_fault.DriveFault.TheVariants.{Bank};
    ghost use Rattle.posting_rules.specs.declared.fault.Fault.TheVariants.{Memory};

    ghost from_gives = { λ _ drive. drive ≡ Bank Memory };

    fn from(_: AllocError) -> Self {
        DriveFault::Bank(Fault::Memory)
    }
}
