//! One record from a reader, and its reply to a writer.
ghost use Rattle.std.specs.Prelude.{OnOk, IfErr};
ghost use Rattle.std.specs.Result.{IsErrOf};
ghost use Rattle.posting_core.specs.Once.{RecordIsAnswered, LeavesAfterFault, IfRefused};
ghost use Rattle.posting_core.specs.Sparing.{IsSpared};
ghost use Rattle.posting_core.specs.believed.EndCalls.{EndsWith, IsEndOfInput};
ghost use Rattle.posting_core.specs.EndCalls.{HasReadFailed, HasWriteFailed, IsFlush};

use crate::ends::{Sink, Source};
use crate::transfer::{read_full, write_out};
use message_records::{Moment, REQUEST_BYTES};
use posting_rules::{Counter, Fault};
use std::fmt;

/// Why a record wasn't answered, or not wholly, and what holds after it.
#[derive(Clone, Copy, Debug, PartialEq, Eq)]
pub enum OnceFault {
    /// The input ended within the record. Nothing was submitted.
    Short,
    /// The reader failed. Nothing was submitted.
    Read,
    /// The writer failed, or took no byte. The record was submitted, and a prefix of the reply was
    /// written.
    Write,
    /// The counter refused the record, and its fault says what holds. Nothing was written.
    Bank(Fault),
}

/// A text of a line. A fault of the counter has its own.
impl fmt::Display for OnceFault {
    ghost use Rattle.std.specs.Prelude.{Some};
    ghost use Rattle.posting_core.specs.Faults.{once_text};

    ghost output = { λ fault. Some (once_text fault) };

    fn fmt<W: fmt::Write>(&self, f: &mut fmt::Formatter<W>) -> fmt::Result {
        match self {
            OnceFault::Short => f.write_str("the input ends within a record"),
            OnceFault::Read => f.write_str("read failed"),
            OnceFault::Write => f.write_str("write failed"),
            OnceFault::Bank(fault) => fmt::Display::fmt(fault, f),
        }
    }
}

impl std::error::Error for OnceFault {}

/// Reads a record, submits it, and writes and flushes the reply. What follows in the input is left unread.
///
/// # Errors
///
/// - [`OnceFault::Short`]: the input ended within the record. Nothing was submitted, and nothing written.
/// - [`OnceFault::Read`]: a read failed, or 2^64 - 1 reads were made. Nothing was submitted, and nothing
///   written.
/// - [`OnceFault::Write`]: a write or the flush failed, a write took no byte, or it was interrupted 2^64 - 1
///   times in a row. The record was submitted, and a prefix of its reply was written.
/// - [`OnceFault::Bank`]: the counter refused the record, and its [`Fault`] says what holds of it. Nothing
///   was written.
pub fn answer_once<R: Source, W: Sink, C: Counter>(
    reader: &mut R,
    writer: &mut W,
    moment: Moment,
    bank: &mut C,
) -> Result<(), OnceFault>
    ensures ok { OnOk result (RecordIsAnswered (R.remaining reader.old) (R.remaining reader.new)
        (W.contents writer.old) (W.contents writer.new)
        (C.seen bank.old) (C.seen bank.new) moment) }
    ensures fault { IfErr result
        (λ fault. LeavesAfterFault fault (R.remaining reader.old) (R.remaining reader.new)
        (W.contents writer.old) (W.contents writer.new)
        (C.seen bank.old) (C.seen bank.new) moment) }
    ensures why { IfErr result (λ fault. IfRefused fault (λ cause. C.reason cause bank.old bank.new)) }
    ensures ended { IsErrOf result OnceFault.Short
        → EndsWith IsEndOfInput (R.calls reader.old) (R.calls reader.new) }
    ensures unread { IsErrOf result OnceFault.Read → HasReadFailed (R.calls reader.old) (R.calls reader.new) }
    ensures unwritten { IsErrOf result OnceFault.Write
        → HasWriteFailed (W.calls writer.old) (W.calls writer.new) }
    ensures flushed { OnOk result (EndsWith IsFlush (W.calls writer.old) (W.calls writer.new)) }
    ensures spared { IsSpared C.seen C.spares bank.old bank.new }
{
    let mut record = [0u8; REQUEST_BYTES];
    match read_full(reader, &mut record) {
        Ok(REQUEST_BYTES) => {}
        Ok(_) => return Err(OnceFault::Short),
        Err(_) => return Err(OnceFault::Read),
    }
    let reply = match bank.submit(moment, &record) {
        Ok(reply) => reply,
        Err(fault) => return Err(OnceFault::Bank(fault)),
    };
    match write_out(writer, &reply) {
        Ok(()) => Ok(()),
        Err(_) => Err(OnceFault::Write),
    }
}
