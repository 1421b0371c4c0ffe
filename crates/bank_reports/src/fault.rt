//! Why a report ends before its text was written.
ghost use Rattle.std.specs.Prelude.{◌≡◌};
ghost use Rattle.bank_reports.specs.declared.fault.ReportFault.TheVariants.{Bank, Write};

use posting_rules::Fault;
use report_contents::WriteFault;
use std::fmt;

/// Why a statement wasn't written, or not all of it.
#[derive(Clone, Copy, Debug, PartialEq, Eq)]
pub enum ReportFault {
    /// The account isn't open. Nothing was written.
    NoAccount,
    /// The writer failed, or took no byte. A prefix of the text was written.
    Write,
    /// The bank refused a read. A prefix of the text was written.
    Bank(Fault),
}

impl fmt::Display for ReportFault {
    ghost use Rattle.std.specs.Prelude.{Some};
    ghost use Rattle.bank_reports.specs.ReportFaults.{report_text};

    ghost output = { λ fault. Some (report_text fault) };

    fn fmt<W: fmt::Write>(&self, f: &mut fmt::Formatter<W>) -> fmt::Result {
        match self {
            ReportFault::NoAccount => write!(f, "no account"),
            ReportFault::Write => write!(f, "write failed"),
            ReportFault::Bank(fault) => write!(f, "{fault}"),
        }
    }
}

impl std::error::Error for ReportFault {}

impl From<Fault> for ReportFault {
    ghost from_gives = { λ fault report. report ≡ Bank fault };

    fn from(fault: Fault) -> ReportFault {
        ReportFault::Bank(fault)
    }
}

impl From<WriteFault> for ReportFault {
    ghost from_gives = { λ _ report. report ≡ Write };

    fn from(_: WriteFault) -> ReportFault {
        ReportFault::Write
    }
}
