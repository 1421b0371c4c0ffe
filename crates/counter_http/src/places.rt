//! Which place in the log a path names.
ghost use Rattle.std.specs.Prelude.{◌≡◌, ◌≤◌, length};
ghost use Rattle.message_records.specs.believed.Reading.{number_of};
ghost use Rattle.counter_http.specs.believed.Answers.{place_named};
ghost use Rattle.counter_http.specs.believed.Paths.{place_in};

use crate::limits::PLACE_DIGITS;
use message_records::read_digits;

// Where the number is in its path, after `/log/`.
const START: usize = 5;

// The number that 1 to 13 digits write.
fn number_of(digits: &[u8]) -> Option<u64>
    requires some { 1 ≤ length digits.now }
    requires few { length digits.now ≤ PLACE_DIGITS }
    ensures { result ≡ number_of digits.now }
{
    let (last, front) = digits.split_last()?;
    let tens = read_digits(front)?;
    if !last.is_ascii_digit() {
        return None;
    }
    Some(tens * 10 + u64::from(*last - b'0'))
}

// The number that 1 to 13 digits name, the first not 0 where there are more.
fn place_named(id: &[u8]) -> Option<u64>
    ensures { result ≡ place_named id.now }
{
    if id.is_empty() || id.len() > PLACE_DIGITS || (id[0] == b'0' && id.len() != 1) {
        return None;
    }
    number_of(id)
}

/// How many requests are before those that the path of the log asks for.
pub(crate) fn place_in(path: &[u8]) -> Option<u64>
    ensures { result ≡ place_named (place_in path.now) }
{
    place_named(&path[START.min(path.len())..])
}
