//! Why what is written of a bank ends early.
ghost use Rattle.std.specs.Prelude.{◌≡◌};
ghost use Rattle.bank_replays.specs.Damaged.{fault_in};
ghost use Rattle.bank_replays.specs.declared.fault.ReplayFault.TheVariants.{Bank, Write};

use posting_rules::Fault;
use report_contents::WriteFault;
use std::fmt;

/// Why not all was written of a bank.
#[derive(Clone, Copy, Debug, PartialEq, Eq)]
pub enum ReplayFault {
    /// The writer failed, or took no byte.
    Write,
    /// The bank refused a read.
    Bank(Fault),
}

impl fmt::Display for ReplayFault {
    fn fmt<W: fmt::Write>(&self, f: &mut fmt::Formatter<W>) -> fmt::Result {
        match self {
            ReplayFault::Write => write!(f, "write failed"),
            ReplayFault::Bank(fault) => write!(f, "{fault}"),
        }
    }
}

impl std::error::Error for ReplayFault {}

impl From<Fault> for ReplayFault {
    ghost from_gives = { λ fault report. report ≡ Bank fault };

    fn from(fault: Fault) -> ReplayFault {
        ReplayFault::Bank(fault)
    }
}

impl From<WriteFault> for ReplayFault {
    ghost from_gives = { λ _ report. report ≡ Write };

    fn from(_: WriteFault) -> ReplayFault {
        ReplayFault::Write
    }
}

/// The fault of a bank that is read, where nothing is written.
pub fn bank_fault(fault: ReplayFault) -> Fault
    ensures { result ≡ fault_in fault }
{
    match fault {
        ReplayFault::Bank(fault) => fault,
        ReplayFault::Write => Fault::Memory,
    }
}
