//! A request is written, and one whole answer read.
ghost use Rattle.std.specs.Prelude.{◌≡◌, IfOk, OnOk, length};
ghost use Rattle.std.specs.Io.KnownBytes.{Appends};
ghost use Rattle.shared_log.specs.etcd.Answers.{HasCome};

use crate::etcd::answers::whole_answer;
use crate::log::LogFault;
use posting_core::transfer::{fill_buffer, write_out};
use posting_core::{Sink, Source};
use std::alloc::Global;

/// How many bytes an answer may have: more than one with the most entries that are appended at once.
pub const MOST_ANSWER_BYTES: usize = 131_072;

// Room for so many bytes.
fn room(alloc: Global, count: usize) -> Result<Vec<u8>, LogFault>
    ensures { IfOk result (λ room. length room.items ≡ count) }
{
    match vec![in alloc; 0u8; count] {
        Ok(room) => Ok(room),
        Err(_) => Err(LogFault::Unanswered),
    }
}

// Reads one whole answer.
fn read_answer<R: Source>(alloc: Global, reader: &mut R) -> Result<Vec<u8>, LogFault>
    ensures { IfOk result (λ body. HasCome (R.remaining reader.old) (R.remaining reader.new) body.items) }
{
    let mut buffer = room(alloc, MOST_ANSWER_BYTES)?;
    let mut filled = 0;
    'reads: for _ in 0..u64::MAX {
        if filled == buffer.len() {
            return Err(LogFault::Unanswered);
        }
        let Ok(more) = fill_buffer(reader, buffer.as_mut_slice(), filled) else {
            return Err(LogFault::Unanswered);
        };
        if more == 0 {
            return Err(LogFault::Unanswered);
        }
        filled += more;
        if let Some(body) = whole_answer(alloc, &buffer.as_slice()[..filled])? {
            return Ok(body);
        }
    }
    Err(LogFault::Unanswered)
}

/// Writes a request, and reads one whole answer.
///
/// # Errors
///
/// [`LogFault::Unanswered`]: it was cut, is too long, or of another status. What comes later may be of this request.
pub(crate) fn exchange<R: Source, W: Sink>(
    alloc: Global,
    reader: &mut R,
    writer: &mut W,
    request: &[u8],
) -> Result<Vec<u8>, LogFault>
    ensures wrote { OnOk result (Appends (W.contents writer.old) (W.contents writer.new) request.now) }
    ensures came { IfOk result (λ body. HasCome (R.remaining reader.old) (R.remaining reader.new) body.items) }
{
    match write_out(writer, request) {
        Ok(()) => read_answer(alloc, reader),
        Err(_) => Err(LogFault::Unanswered),
    }
}
