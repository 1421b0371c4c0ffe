//! The two ends of a stream: what gives bytes, and what takes them. Streams loop over `read` and `write`
//! themselves, since `read_exact` and `write_all` say nothing of the bytes if they fail.
ghost use Rattle.std.specs.Prelude.{◌≡◌, ⊤, ℕ, List, [], ◌∷◌, Option, None, Some, length};
ghost use Rattle.std.specs.Io.{ReadsAtMost, WritesAtMost};
ghost use Rattle.std.specs.Io.KnownBytes.{Keeps, ReadConsumes, WriteAppends};
ghost use Rattle.posting_rules.specs.believed.Counter.{Seen};
ghost use Rattle.posting_core.specs.believed.EndCalls.{GrowsBy, ReadCall};
ghost use Rattle.posting_core.specs.EndCalls.{Beside, WriteCall, read_call, write_call, flush_call};

use posting_rules::Counter;
use std::io;
use std::io::{Read, Write};

/// What gives bytes. Every reader does. A type of its own may also know what its reads returned, and what a sink
/// held as it was read.
pub trait Source {
    /// The bytes that it will give from here on, where they are known.
    ghost remaining: { Self → Option (List ℕ) } = { λ _. None };

    /// What each read returned so far, where it is known.
    ghost calls: { Self → Option (List ReadCall) } = { λ _. None };

    /// What a sink held at each read that was made beside it so far, where it is known.
    ghost beside: { Self → Option (List Beside) } = { λ _. None };

    /// Whether the read after so many others was made beside a counter that is seen so. Where that isn't known, it is
    /// said of each.
    ghost was_beside: { Self → ℕ → Seen → Type 0 } = { λ _ _ _. ⊤ };

    /// One read into the buffer. It answers how many bytes it gave, and 0 at the end of the input.
    fn give(&mut self, buffer: &mut [u8]) -> io::Result<usize>
        ensures bound { ReadsAtMost result buffer.new }
        ensures bytes { ReadConsumes (remaining self.old) (remaining self.new) result buffer.new }
        ensures tells { GrowsBy (calls self.old) (calls self.new) (read_call result ∷ []) };

    /// One read into the buffer, as [`Source::give`], made beside a sink. So a stream says what it has written as
    /// it reads.
    fn give_beside<W: Sink>(&mut self, buffer: &mut [u8], sink: &W) -> io::Result<usize>
        ensures bound { ReadsAtMost result buffer.new }
        ensures bytes { ReadConsumes (remaining self.old) (remaining self.new) result buffer.new }
        ensures tells { GrowsBy (calls self.old) (calls self.new) (read_call result ∷ []) }
        ensures beside { GrowsBy (beside self.old) (beside self.new)
            (record { contents = W.contents sink.now; calls = W.calls sink.now } ∷ []) };

    /// One read into the buffer, as [`Source::give`], made beside a counter. So who feeds a counter says what it took
    /// before more was asked for.
    fn give_beside_counter<C: Counter>(
        &mut self,
        buffer: &mut [u8],
        counter: &C,
    ) -> io::Result<usize>
        ensures bound { ReadsAtMost result buffer.new }
        ensures bytes { ReadConsumes (remaining self.old) (remaining self.new) result buffer.new }
        ensures tells { GrowsBy (calls self.old) (calls self.new) (read_call result ∷ []) }
        ensures beside { (before : List ReadCall) → calls self.old ≡ Some before
            → was_beside self.new (length before) (C.seen counter.now) }
        ensures stays { (n : ℕ) (c : C) → was_beside self.old n (C.seen c) → was_beside self.new n (C.seen c) };
}

/// What takes bytes. Every writer does. A type of its own may also know what its writes and flushes returned.
pub trait Sink {
    /// The bytes that it holds, where they are known.
    ghost contents: { Self → Option (List ℕ) } = { λ _. None };

    /// What each write and flush returned so far, where it is known.
    ghost calls: { Self → Option (List WriteCall) } = { λ _. None };

    /// One write of bytes at the front of these. It answers how many it took.
    fn take(&mut self, bytes: &[u8]) -> io::Result<usize>
        ensures bound { WritesAtMost result bytes.now }
        ensures bytes { WriteAppends (contents self.old) (contents self.new) result bytes.now }
        ensures tells { GrowsBy (calls self.old) (calls self.new) (write_call bytes.now result ∷ []) };

    /// Sends on what was taken.
    fn send_on(&mut self) -> io::Result<()>
        ensures bytes { Keeps (contents self.old) (contents self.new) }
        ensures tells { GrowsBy (calls self.old) (calls self.new) (flush_call result ∷ []) };
}

impl<R: Read> Source for R {
    ghost remaining = { R.remaining };

    fn give(&mut self, buffer: &mut [u8]) -> io::Result<usize> {
        self.read(buffer)
    }

    fn give_beside<W: Sink>(&mut self, buffer: &mut [u8], _sink: &W) -> io::Result<usize> {
        self.read(buffer)
    }

    fn give_beside_counter<C: Counter>(
        &mut self,
        buffer: &mut [u8],
        _counter: &C,
    ) -> io::Result<usize> {
        self.read(buffer)
    }
}

impl<W: Write> Sink for W {
    ghost contents = { W.contents };

    fn take(&mut self, bytes: &[u8]) -> io::Result<usize> {
        self.write(bytes)
    }

    fn send_on(&mut self) -> io::Result<()> {
        self.flush()
    }
}
