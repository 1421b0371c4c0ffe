//! Bytes to a writer.
ghost use Rattle.bank_replays.specs.Writing.{Puts};

use crate::fault::ReplayFault;
use posting_core::{Sink, write_each};

/// Writes bytes.
pub(crate) fn put_bytes<W: Sink>(writer: &mut W, bytes: &[u8]) -> Result<(), ReplayFault>
    ensures { Puts bytes.now (W.contents writer.old) (W.contents writer.new) (W.calls writer.old)
        (W.calls writer.new) result }
{
    match write_each(writer, bytes) {
        Ok(()) => Ok(()),
        Err(_) => Err(ReplayFault::Write),
    }
}
