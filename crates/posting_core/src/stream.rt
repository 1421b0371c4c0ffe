//! A stream of records in, and a stream of replies out.
ghost use Rattle.std.specs.Prelude.{◌≡◌, ℕ, ◌≤◌, MatchResult, IfErr, length};
ghost use Rattle.std.specs.Result.{IsErrOf};
ghost use Rattle.posting_core.specs.Clock.{IsReading};
ghost use Rattle.posting_core.specs.Batches.{BatchIsAnswered, BreaksOff};
ghost use Rattle.posting_core.specs.Stream.{IfTaken, Streams, TellsBreak};
ghost use Rattle.posting_core.specs.believed.Stream.{IfBank};
ghost use Rattle.posting_core.specs.believed.EndCalls.{EndsWith};
ghost use Rattle.posting_core.specs.EndCalls.{IsFlush};

use crate::clock::Clock;
use crate::ends::{Sink, Source};
use crate::transfer::{fill_buffer_beside, move_to_front, write_out};
use message_records::REQUEST_BYTES;
use posting_rules::{Counter, Fault, RECORDS_PER_BATCH};
use std::fmt;
use std::io::ErrorKind;

// The length of the buffer: as many records as can be submitted together.
const BUFFER: usize = REQUEST_BYTES * RECORDS_PER_BATCH;

/// How many replies were written.
pub type Count = u128;

/// Why a stream ended before its input did, or within a record, and what holds after it.
#[derive(Clone, Copy, Debug, PartialEq, Eq)]
pub enum StreamFault {
    /// The input ended so many bytes, 1..=99, into a record. The records before it were answered.
    Truncated(u8),
    /// The reader failed. The whole records that were read before were answered.
    Read,
    /// The writer failed, or took no byte. What was read was submitted, and of the replies a prefix was
    /// written.
    Write,
    /// The bank refused a batch, to which nothing was replied, and its fault says what holds.
    Bank(Fault),
}

/// A text of a line. A fault of the bank has its own.
impl fmt::Display for StreamFault {
    ghost use Rattle.std.specs.Prelude.{Some};
    ghost use Rattle.posting_core.specs.Faults.{stream_text};

    ghost output = { λ fault. Some (stream_text fault) };

    fn fmt<W: fmt::Write>(&self, f: &mut fmt::Formatter<W>) -> fmt::Result {
        match self {
            StreamFault::Truncated(n) => write!(f, "the input ends {n} bytes into a record"),
            StreamFault::Read => f.write_str("read failed"),
            StreamFault::Write => f.write_str("write failed"),
            StreamFault::Bank(fault) => fmt::Display::fmt(fault, f),
        }
    }
}

impl std::error::Error for StreamFault {}

// Submits a batch under one reading of the clock, and writes the replies.
fn reply_to_batch<W: Sink, K: Clock, C: Counter>(
    records: &[[u8; REQUEST_BYTES]],
    writer: &mut W,
    clock: &mut K,
    bank: &mut C,
) -> Result<(), StreamFault>
    requires some { 1 ≤ length records.now }
    requires few { length records.now ≤ RECORDS_PER_BATCH }
    ensures answers { (moment : ℕ) × IsReading (K.readings clock.old) (K.readings clock.new) moment
        × MatchResult result
        (λ _. BatchIsAnswered (W.contents writer.old) (W.contents writer.new) (C.seen bank.old)
        (C.seen bank.new) moment records.now)
        (λ fault. BreaksOff fault (W.contents writer.old) (W.contents writer.new) (C.seen bank.old)
        (C.seen bank.new) moment records.now) }
    ensures calls { MatchResult result (λ _. EndsWith IsFlush (W.calls writer.old) (W.calls writer.new))
        (λ fault. TellsBreak fault (W.calls writer.old) (W.calls writer.new)) }
    ensures up { IfTaken result ((C.seen bank.new).is_down → ⊥) }
    ensures why { IfErr result (λ fault. IfBank fault (λ cause. C.reason cause bank.old bank.new)) }
    ensures down { (C.seen bank.old).is_down → IsErrOf result (StreamFault.Bank Fault.Down)
        × (bank.new ≡ bank.old) }
    ensures honest { (C.seen bank.new).honest → (C.seen bank.old).honest }
    ensures spares { C.spares bank.old bank.new }
{
    let moment = clock.now();
    let replies = match bank.submit_all(moment, records) {
        Ok(replies) => replies,
        Err(fault) => return Err(StreamFault::Bank(fault)),
    };
    match write_out(writer, replies.as_flattened()) {
        Ok(()) => Ok(()),
        Err(_) => Err(StreamFault::Write),
    }
}

/// Answers a stream of records to the end of its input, and returns how many it answered. As soon as whole
/// records were read, all of them are submitted under one reading of the clock, and their replies are written
/// in order and flushed, before more is read. An interrupted read or write is made again. Only the bank takes
/// memory.
///
/// # Errors
///
/// - [`StreamFault::Truncated`]: the input ended within a record. The records before it were answered.
/// - [`StreamFault::Read`]: a read failed, or 2^64 - 1 reads were made. The whole records that were read
///   before were answered.
/// - [`StreamFault::Write`]: a write or a flush failed, a write took no byte, or it was interrupted 2^64 - 1
///   times in a row. What was read was submitted, and a prefix of the replies was written.
/// - [`StreamFault::Bank`]: the bank refused a batch, and its [`Fault`] says what holds of that batch. The
///   batches before it were answered, and nothing was replied to this one.
pub fn post_stream<R: Source, W: Sink, K: Clock, C: Counter>(
    reader: &mut R,
    writer: &mut W,
    clock: &mut K,
    bank: &mut C,
) -> Result<Count, StreamFault>
    ensures streams { Streams (R.remaining reader.old) (R.remaining reader.new) (R.calls reader.old)
        (R.calls reader.new) (R.beside reader.old) (R.beside reader.new) (W.contents writer.old)
        (W.contents writer.new) (W.calls writer.old) (W.calls writer.new) (K.readings clock.old)
        (K.readings clock.new) C.seen C.reason bank.old bank.new result }
    ensures spares { C.spares bank.old bank.new }
{
    let mut buffer = [0u8; BUFFER];
    let mut filled = 0;
    let mut count = 0;
    'reads: for _ in 0..u64::MAX {
        match fill_buffer_beside(reader, &mut buffer, filled, writer) {
            Ok(0) if filled == 0 => return Ok(count),
            Ok(0) => return Err(StreamFault::Truncated(filled as u8)),
            Ok(n) => filled += n,
            Err(e) if e.kind() == ErrorKind::Interrupted => {}
            Err(_) => return Err(StreamFault::Read),
        }
        if filled >= REQUEST_BYTES {
            let (records, rest) = buffer[..filled].as_chunks::<REQUEST_BYTES>();
            let left = rest.len();
            reply_to_batch(records, writer, clock, bank)?;
            count += records.len() as Count;
            move_to_front(&mut buffer, filled - left, filled);
            filled = left;
        }
    }
    Err(StreamFault::Read)
}
