//! Bytes from a reader and to a writer, with what is known of both.
ghost use Rattle.std.specs.Prelude.{◌≡◌, ◌≤◌, ◌<◌, ◌+◌, ◌-◌, ◌++◌, ◌∷◌, [], ℕ, List, IfOk, OnOk, OnErr, length};
ghost use Rattle.std.specs.Prelude.{Some, take, drop};
ghost use Rattle.std.specs.Io.KnownBytes.{Keeps, Appends, Consumes, IsAtEnd};
ghost use Rattle.posting_core.specs.believed.EndCalls.{GrowsBy, EndsWith, ReadCall};
ghost use Rattle.posting_core.specs.EndCalls.{HasMore, HasReadFailed, HasWriteFailed};
ghost use Rattle.posting_core.specs.believed.EndCalls.{IsEndOfInput};
ghost use Rattle.posting_core.specs.EndCalls.{IsFlush, read_call};

use crate::ends::{Sink, Source};
use posting_rules::Counter;
use std::io::ErrorKind;
use std::{fmt, io};

/// The reader failed. What it gave before is in the buffer.
#[derive(Clone, Copy, Debug, PartialEq, Eq)]
pub struct ReadFailed;

impl fmt::Display for ReadFailed {
    ghost use Rattle.std.specs.Prelude.{Some, codes};

    ghost output = { λ _. Some (codes "read failed") };

    fn fmt<W: fmt::Write>(&self, f: &mut fmt::Formatter<W>) -> fmt::Result {
        write!(f, "read failed")
    }
}

impl std::error::Error for ReadFailed {}

/// The writer failed, or took no byte. A prefix of what was to be written may have been taken.
#[derive(Clone, Copy, Debug, PartialEq, Eq)]
pub struct WriteFailed;

impl fmt::Display for WriteFailed {
    ghost use Rattle.std.specs.Prelude.{Some, codes};

    ghost output = { λ _. Some (codes "write failed") };

    fn fmt<W: fmt::Write>(&self, f: &mut fmt::Formatter<W>) -> fmt::Result {
        write!(f, "write failed")
    }
}

impl std::error::Error for WriteFailed {}

/// One read into what is left of a buffer.
pub fn fill_buffer<R: Source>(reader: &mut R, buffer: &mut [u8], filled: usize) -> io::Result<usize>
    requires { filled < length buffer.old }
    ensures fits { IfOk result (λ n. filled + n ≤ length buffer.new) }
    ensures ok { IfOk result (λ n. (bytes : List ℕ)
        × (take (filled + n) buffer.new ≡ take filled buffer.old ++ bytes)
        × Consumes (R.remaining reader.old) (R.remaining reader.new) bytes) }
    ensures end { IfOk result (λ n. n ≡ 0 → IsAtEnd (R.remaining reader.new)) }
    ensures err { OnErr result (Keeps (R.remaining reader.old) (R.remaining reader.new)
        × (take filled buffer.new ≡ take filled buffer.old)) }
    ensures tells { GrowsBy (R.calls reader.old) (R.calls reader.new) (read_call result ∷ []) }
{
    reader.give(&mut buffer[filled..])
}

/// One read into what is left of a buffer, made beside a sink.
pub fn fill_buffer_beside<R: Source, W: Sink>(
    reader: &mut R,
    buffer: &mut [u8],
    filled: usize,
    sink: &W,
) -> io::Result<usize>
    requires { filled < length buffer.old }
    ensures fits { IfOk result (λ n. filled + n ≤ length buffer.new) }
    ensures ok { IfOk result (λ n. (bytes : List ℕ)
        × (take (filled + n) buffer.new ≡ take filled buffer.old ++ bytes)
        × Consumes (R.remaining reader.old) (R.remaining reader.new) bytes) }
    ensures end { IfOk result (λ n. n ≡ 0 → IsAtEnd (R.remaining reader.new)) }
    ensures err { OnErr result (Keeps (R.remaining reader.old) (R.remaining reader.new)
        × (take filled buffer.new ≡ take filled buffer.old)) }
    ensures tells { GrowsBy (R.calls reader.old) (R.calls reader.new) (read_call result ∷ []) }
    ensures beside { GrowsBy (R.beside reader.old) (R.beside reader.new)
        (record { contents = W.contents sink.now; calls = W.calls sink.now } ∷ []) }
{
    reader.give_beside(&mut buffer[filled..], sink)
}

/// One read into what is left of a buffer, made beside a counter.
pub fn fill_buffer_beside_counter<R: Source, C: Counter>(
    reader: &mut R,
    buffer: &mut [u8],
    filled: usize,
    counter: &C,
) -> io::Result<usize>
    requires { filled < length buffer.old }
    ensures fits { IfOk result (λ n. filled + n ≤ length buffer.new) }
    ensures ok { IfOk result (λ n. (bytes : List ℕ)
        × (take (filled + n) buffer.new ≡ take filled buffer.old ++ bytes)
        × Consumes (R.remaining reader.old) (R.remaining reader.new) bytes) }
    ensures end { IfOk result (λ n. n ≡ 0 → IsAtEnd (R.remaining reader.new)) }
    ensures err { OnErr result (Keeps (R.remaining reader.old) (R.remaining reader.new)
        × (take filled buffer.new ≡ take filled buffer.old)) }
    ensures tells { GrowsBy (R.calls reader.old) (R.calls reader.new) (read_call result ∷ []) }
    ensures beside { (before : List ReadCall) → R.calls reader.old ≡ Some before
        → R.was_beside reader.new (length before) (C.seen counter.now) }
    ensures stays { (n : ℕ) (c : C) → R.was_beside reader.old n (C.seen c) → R.was_beside reader.new n (C.seen c) }
{
    reader.give_beside_counter(&mut buffer[filled..], counter)
}

/// Moves what lies between the two places to the front of the buffer.
pub fn move_to_front(buffer: &mut [u8], from: usize, to: usize)
    requires order { from ≤ to }
    requires within { to ≤ length buffer.old }
    ensures { take (to - from) buffer.new ≡ take (to - from) (drop from buffer.old) }
{
    buffer.copy_within(from..to, 0);
}

/// Reads until the buffer is full or the input ends, and answers how many bytes were read. An interrupted
/// read is made again. A reader that was asked 2^64 - 1 times counts as failed.
pub fn read_full<R: Source>(reader: &mut R, buffer: &mut [u8]) -> Result<usize, ReadFailed>
    ensures within { IfOk result (λ n. n ≤ length buffer.new) }
    ensures bytes { IfOk result
        (λ n. Consumes (R.remaining reader.old) (R.remaining reader.new) (take n buffer.new)) }
    ensures end { IfOk result (λ n. n < length buffer.new → IsAtEnd (R.remaining reader.new)) }
    ensures ended { IfOk result (λ n. n < length buffer.new
        → EndsWith IsEndOfInput (R.calls reader.old) (R.calls reader.new)) }
    ensures failed { OnErr result (HasReadFailed (R.calls reader.old) (R.calls reader.new)) }
{
    let mut filled = 0;
    'reads: for _ in 0..u64::MAX {
        if filled == buffer.len() {
            return Ok(filled);
        }
        match fill_buffer(reader, buffer, filled) {
            Ok(0) => return Ok(filled),
            Ok(n) => filled += n,
            Err(e) if e.kind() == ErrorKind::Interrupted => {}
            Err(_) => return Err(ReadFailed),
        }
    }
    Err(ReadFailed)
}

/// Writes the bytes and flushes, up to a write that fails or takes none. An interrupted write is made again. One
/// that was interrupted 2^64 - 1 times in a row counts as failed.
pub fn write_out<W: Sink>(writer: &mut W, bytes: &[u8]) -> Result<(), WriteFailed>
    ensures written { (n : ℕ) × (n ≤ length bytes.now)
        × Appends (W.contents writer.old) (W.contents writer.new) (take n bytes.now)
        × OnOk result (n ≡ length bytes.now) }
    ensures flushed { OnOk result (EndsWith IsFlush (W.calls writer.old) (W.calls writer.new)) }
    ensures failed { OnErr result (HasWriteFailed (W.calls writer.old) (W.calls writer.new)) }
{
    write_each(writer, bytes)?;
    match writer.send_on() {
        Ok(()) => Ok(()),
        Err(_) => Err(WriteFailed),
    }
}

/// Writes the bytes, up to a write that fails or takes none.
pub fn write_each<W: Sink>(writer: &mut W, bytes: &[u8]) -> Result<(), WriteFailed>
    ensures written { (n : ℕ) × (n ≤ length bytes.now)
        × Appends (W.contents writer.old) (W.contents writer.new) (take n bytes.now)
        × OnOk result (n ≡ length bytes.now) }
    ensures more { OnOk result (HasMore (W.calls writer.old) (W.calls writer.new)) }
    ensures failed { OnErr result (HasWriteFailed (W.calls writer.old) (W.calls writer.new)) }
{
    let mut done = 0;
    'writes: while done < bytes.len() {
        done += write_some(writer, &bytes[done..])?;
    }
    Ok(())
}

// One write. An interrupted one is made again, 2^64 - 1 times at most.
fn write_some<W: Sink>(writer: &mut W, bytes: &[u8]) -> Result<usize, WriteFailed>
    requires { 1 ≤ length bytes.now }
    ensures some { IfOk result (λ n. (1 ≤ n) × (n ≤ length bytes.now)
        × Appends (W.contents writer.old) (W.contents writer.new) (take n bytes.now)) }
    ensures stays { OnErr result (Keeps (W.contents writer.old) (W.contents writer.new)) }
    ensures more { OnOk result (HasMore (W.calls writer.old) (W.calls writer.new)) }
    ensures failed { OnErr result (HasWriteFailed (W.calls writer.old) (W.calls writer.new)) }
{
    'writes: for _ in 0..u64::MAX {
        match writer.take(bytes) {
            Ok(0) => return Err(WriteFailed),
            Ok(n) => return Ok(n),
            Err(e) if e.kind() == ErrorKind::Interrupted => {}
            Err(_) => return Err(WriteFailed),
        }
    }
    Err(WriteFailed)
}
