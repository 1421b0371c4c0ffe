//! Why a bank stops following a log.
ghost use Rattle.std.specs.Prelude.{◌≡◌};
ghost use Rattle.branch_loader.specs.declared.follow_fault.FollowFault.TheVariants.{Bank};

use message_records::{REPLY_BYTES, decode_reply};
use posting_core::{Count, Fault};
use std::fmt;

/// The reply that a request got here, and the one that its entry has, which is counted from 1.
#[derive(Clone, Copy, Debug, PartialEq, Eq)]
pub struct OtherReply {
    pub entry: Count,
    pub stands: [u8; REPLY_BYTES],
    pub due: [u8; REPLY_BYTES],
}

// The outcome of a reply, and the new balance where it has one.
#[derive(Clone, Copy)]
struct ShownReply {
    bytes: [u8; REPLY_BYTES],
}

impl fmt::Display for ShownReply {
    ghost use Rattle.std.specs.Prelude.{Some};
    ghost use Rattle.message_records.specs.Reading.{reply_of};
    ghost use Rattle.branch_loader.specs.Faults.{reply_text};

    ghost output = { λ shown. Some (reply_text (reply_of shown.bytes)) };

    fn fmt<W: fmt::Write>(&self, f: &mut fmt::Formatter<W>) -> fmt::Result {
        let Ok(reply) = decode_reply(&self.bytes) else {
            return write!(f, "no reply");
        };
        let outcome = reply.outcome();
        match reply.balance() {
            Some(balance) => write!(f, "{outcome} {balance}"),
            None => write!(f, "{outcome}"),
        }
    }
}

/// A text of a line, as `entry 3 stands BELOW FLOOR due POSTED 500`.
impl fmt::Display for OtherReply {
    ghost use Rattle.std.specs.Prelude.{Some};
    ghost use Rattle.branch_loader.specs.Faults.{other_text};

    ghost output = { λ other. Some (other_text other) };

    fn fmt<W: fmt::Write>(&self, f: &mut fmt::Formatter<W>) -> fmt::Result {
        let entry = self.entry;
        let stands = ShownReply { bytes: self.stands };
        let due = ShownReply { bytes: self.due };
        write!(f, "entry {entry} stands {stands} due {due}")
    }
}

/// Why a bank stops following a log before its end, and what holds then.
#[derive(Clone, Copy, Debug, PartialEq, Eq)]
pub enum FollowFault {
    /// The input ended so many bytes, 1..=307, into an entry. The entries before it were followed.
    Truncated(u16),
    /// The reader failed. The whole entries that were read before were followed.
    Read,
    /// So many entries were followed, and the next is none that a log has.
    NoEntry(Count),
    /// A reply is another than its entry's. What was posted with it stands, and nothing after it was posted.
    Differs(OtherReply),
    /// Memory was refused before anything was read.
    Memory,
    /// The bank refused a call, and its fault says what holds.
    Bank(Fault),
}

impl From<Fault> for FollowFault {
    ghost from_gives = { λ fault answer. answer ≡ Bank fault };

    fn from(fault: Fault) -> FollowFault {
        FollowFault::Bank(fault)
    }
}
