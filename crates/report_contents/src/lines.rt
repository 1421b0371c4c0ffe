//! Texts in columns, put together without memory.
ghost use Rattle.std.specs.Prelude.{◌≡◌, ◌≤◌, ◌<◌, ◌+◌, ◌++◌, length, replicate};
ghost use Rattle.std.specs.Fmt.{signed_decimal};
ghost use Rattle.report_contents.specs.Lines.{filled_to, right_in, with_sign};

use arrayvec::ArrayString;
use itoa::Buffer;

// The length of a signed number of 128 bits.
pub(crate) const NUMBER: usize = 40;

// Its length with the sign.
const SIGNED: usize = NUMBER + 1;

/// Appends a character so many times.
pub(crate) fn push_repeated<const SIZE: usize>(
    line: &mut ArrayString<SIZE>,
    character: char,
    count: usize,
)
    requires ascii { character < 128 }
    requires room { length line.old.bytes + count ≤ SIZE }
    ensures bytes { line.new.bytes ≡ line.old.bytes ++ replicate count character }
    ensures len { length line.new.bytes ≡ length line.old.bytes + count }
{
    'repeats: for _ in 0..count {
        line.push(character);
    }
}

/// Appends a text, filled on the left to so many places.
pub(crate) fn push_filled<const SIZE: usize>(
    line: &mut ArrayString<SIZE>,
    fill: char,
    width: usize,
    text: &str,
)
    requires ascii { fill < 128 }
    requires room { length line.old.bytes + width + length text.now ≤ SIZE }
    ensures bytes { line.new.bytes ≡ line.old.bytes ++ filled_to fill width text.now }
    ensures len { length line.new.bytes ≤ length line.old.bytes + width + length text.now }
{
    push_repeated(line, fill, width.saturating_sub(text.len()));
    line.push_str(text);
}

/// Appends a number right in so many places.
pub(crate) fn push_number<const SIZE: usize>(
    line: &mut ArrayString<SIZE>,
    width: usize,
    number: i128,
)
    requires { length line.old.bytes + width + NUMBER ≤ SIZE }
    ensures bytes { line.new.bytes ≡ line.old.bytes ++ right_in width (signed_decimal number) }
    ensures len { length line.new.bytes ≤ length line.old.bytes + width + NUMBER }
{
    let mut digits = Buffer::new();
    push_filled(line, ' ', width, digits.format(number));
}

/// Appends an amount with its sign, plus for zero, right in so many places.
pub(crate) fn push_delta<const SIZE: usize>(line: &mut ArrayString<SIZE>, width: usize, delta: i64)
    requires { length line.old.bytes + width + SIGNED ≤ SIZE }
    ensures bytes { line.new.bytes ≡ line.old.bytes ++ right_in width (with_sign delta) }
    ensures len { length line.new.bytes ≤ length line.old.bytes + width + SIGNED }
{
    let mut digits = Buffer::new();
    let mut signed = ArrayString::<SIGNED>::new();
    if delta >= 0 {
        signed.push_str("+");
    }
    signed.push_str(digits.format(delta));
    push_filled(line, ' ', width, signed.as_str());
}
