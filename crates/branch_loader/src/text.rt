//! The text of a plan, or of another sheet of CSV.
ghost use Rattle.std.specs.Prelude.{◌≡◌, ◌⊎◌, ℕ, List, IfErr, IfOk, OnOk};
ghost use Rattle.std.specs.Io.KnownBytes.{Consumes, IsAtEnd};
ghost use Rattle.posting_core.specs.believed.EndCalls.{EndsWith, IsEndOfInput};
ghost use Rattle.posting_core.specs.EndCalls.{HasReadFailed};

use crate::fault::PlanFault;
use posting_core::Source;
use std::alloc::Global;
use std::io::ErrorKind;

// How many bytes are read at a time.
const PART: usize = 4096;

/// Reads a source to its end. An interrupted read is made again; a source that was asked 2^64 - 1 times counts
/// as failed.
pub fn read_text<R: Source>(alloc: Global, reader: &mut R) -> Result<Vec<u8>, PlanFault>
    ensures read { (bytes : List ℕ) × Consumes (R.remaining reader.old) (R.remaining reader.new) bytes
        × IfOk result (λ text. text.items ≡ bytes) }
    ensures end { OnOk result (IsAtEnd (R.remaining reader.new)) }
    ensures ended { OnOk result (EndsWith IsEndOfInput (R.calls reader.old) (R.calls reader.new)) }
    ensures fault { IfErr result (λ fault. (fault ≡ PlanFault.Memory)
        ⊎ ((fault ≡ PlanFault.Csv) × HasReadFailed (R.calls reader.old) (R.calls reader.new))) }
{
    let mut text = Vec::new(alloc);
    let mut part = [0u8; PART];
    'reads: for _ in 0..u64::MAX {
        match reader.give(&mut part) {
            Ok(0) => return Ok(text),
            Ok(n) => {
                if text.extend_from_slice(&part[..n]).is_err() {
                    return Err(PlanFault::Memory);
                }
            }
            Err(e) if e.kind() == ErrorKind::Interrupted => {}
            Err(_) => return Err(PlanFault::Csv),
        }
    }
    Err(PlanFault::Csv)
}
