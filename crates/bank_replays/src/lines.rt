//! Lines that are put together without memory.
ghost use Rattle.std.specs.Prelude.{◌≡◌, ◌≤◌, ◌+◌, ◌++◌, length};
ghost use Rattle.std.specs.Fmt.{signed_decimal};

use arrayvec::ArrayString;
use itoa::Buffer;

/// The most that a line takes: three numbers, and what stands before and after each.
pub(crate) const LINE: usize = 160;

/// The most characters that a number has.
pub(crate) const NUMBER: usize = 40;

/// A line, as far as it goes.
pub(crate) type Line = ArrayString<LINE>;

/// Appends a number.
pub(crate) fn push_number(line: &mut Line, number: i64)
    requires { length line.old.bytes + NUMBER ≤ LINE }
    ensures bytes { line.new.bytes ≡ line.old.bytes ++ signed_decimal number }
    ensures len { length line.new.bytes ≤ length line.old.bytes + NUMBER }
{
    let mut digits = Buffer::new();
    line.push_str(digits.format(number));
}
