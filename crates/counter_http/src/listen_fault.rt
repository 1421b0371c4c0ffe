//! Why no more clients are served.
use posting_core::Fault;
use std::fmt;

/// Why no more clients were served. What was answered before is kept.
#[derive(Clone, Copy, Debug, PartialEq, Eq)]
pub enum ListenFault {
    /// No client could be taken in. The bank can be used.
    Network,
    /// The bank refused a call for another cause than memory, and is down.
    Bank(Fault),
}

/// A text of a line. A fault of the bank has its own.
impl fmt::Display for ListenFault {
    ghost use Rattle.std.specs.Prelude.{Some};
    ghost use Rattle.counter_http.specs.ListenFaults.{fault_text};

    ghost output = { λ fault. Some (fault_text fault) };

    fn fmt<W: fmt::Write>(&self, f: &mut fmt::Formatter<W>) -> fmt::Result {
        match self {
            ListenFault::Network => write!(f, "network failed"),
            ListenFault::Bank(fault) => write!(f, "{fault}"),
        }
    }
}

impl std::error::Error for ListenFault {}
