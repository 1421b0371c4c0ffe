//! A record that is being written, from left to right.
ghost use Rattle.std.specs.Prelude.{◌≡◌, ◌≤◌, ◌+◌, ◌-◌, length, replicate, [], ◌++◌};
ghost use Rattle.message_records.specs.believed.Spelling.{digits, signed};

use std::marker::Model;

/// A record of `SIZE` bytes, with spaces after what is written so far.
pub(crate) struct Draft<const SIZE: usize> {
    bytes: [u8; SIZE],
    written: usize,
}

impl<const SIZE: usize> Model for Draft<SIZE> {
    ghost use Rattle.std.specs.Prelude.{◌≡◌, ◌≤◌, ◌-◌, ℕ, List, length, take, drop, replicate};

    ghost Value = { List ℕ };

    ghost view = { λ d. take d.written d.bytes };

    ghost invariant = { λ d. (length d.bytes ≡ SIZE) × (d.written ≤ SIZE)
        × (drop d.written d.bytes ≡ replicate (SIZE - d.written) 32) };
}

impl<const SIZE: usize> Draft<SIZE> {
    pub(crate) fn new() -> Self
        ensures value { result ≡ [] }
        ensures len { length result ≡ 0 }
    {
        Draft {
            bytes: [b' '; SIZE],
            written: 0,
        }
    }

    pub(crate) fn put_text(&mut self, text: &[u8])
        requires { length self.old + length text.now ≤ SIZE }
        ensures value { self.new ≡ self.old ++ text.now }
        ensures len { length self.new ≡ length self.old + length text.now }
    {
        let start = self.written;
        let end = start + text.len();
        let bytes = &mut self.bytes[..];
        bytes[start..end].copy_from_slice(text);
        self.written = end;
    }

    /// The last `count` decimal digits of the number.
    pub(crate) fn put_number(&mut self, count: usize, number: u64)
        requires { length self.old + count ≤ SIZE }
        ensures value { self.new ≡ self.old ++ digits count number }
        ensures len { length self.new ≡ length self.old + count }
    {
        let start = self.written;
        let end = start + count;
        let bytes = &mut self.bytes[..];
        put_digits(&mut bytes[start..end], number);
        self.written = end;
    }

    /// The sign and the last `count` decimal digits of the amount.
    pub(crate) fn put_amount(&mut self, count: usize, amount: i64)
        requires { length self.old + (count + 1) ≤ SIZE }
        ensures value { self.new ≡ self.old ++ signed count amount }
        ensures len { length self.new ≡ length self.old + (count + 1) }
    {
        self.put_text(if amount < 0 { b"-" } else { b"+" });
        self.put_number(count, amount.unsigned_abs());
    }

    /// The whole record, filled with spaces.
    pub(crate) fn finish(self) -> [u8; SIZE]
        ensures { result ≡ self.entry ++ replicate (SIZE - length self.entry) 32 }
    {
        let Draft { bytes, written: _ } = self;
        bytes
    }
}

// Writes the last digits of a number into the whole of a slice.
fn put_digits(out: &mut [u8], number: u64)
    ensures { out.new ≡ digits (length out.old) number }
{
    let mut rest = number;
    for place in (0..out.len()).rev() {
        out[place] = b'0' + (rest % 10) as u8;
        rest /= 10;
    }
}
