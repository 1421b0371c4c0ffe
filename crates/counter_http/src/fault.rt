//! Why a connection ends before its walk does.
use posting_core::Fault;
use std::fmt;

/// Why a connection ended before the walk over its messages did, and what holds after it.
#[derive(Clone, Copy, Debug, PartialEq, Eq)]
pub enum ServeFault {
    /// The reader failed. The whole messages that were read were answered.
    Read,
    /// The writer failed, or took no byte. Of the answers a prefix was written.
    Write,
    /// The bank refused a call, and its fault says what holds then. A 503 was written to the message that
    /// made it, after the answers to those before.
    Bank(Fault),
    /// Memory was refused before anything was read, and nothing was done.
    Memory,
}

/// A text of a line. A fault of the bank has its own.
impl fmt::Display for ServeFault {
    ghost use Rattle.std.specs.Prelude.{Some};
    ghost use Rattle.counter_http.specs.ConnectionFaults.{fault_text};

    ghost output = { λ fault. Some (fault_text fault) };

    fn fmt<W: fmt::Write>(&self, f: &mut fmt::Formatter<W>) -> fmt::Result {
        let text = match self {
            ServeFault::Read => "read failed",
            ServeFault::Write => "write failed",
            ServeFault::Bank(fault) => return write!(f, "{fault}"),
            ServeFault::Memory => "no memory",
        };
        f.write_str(text)
    }
}

impl std::error::Error for ServeFault {}
