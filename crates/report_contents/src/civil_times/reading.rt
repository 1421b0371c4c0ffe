//! Reads a date and a zone.
ghost use Rattle.std.specs.Prelude.{◌≡◌, ◌≤◌, IfSome, nat_abs};
ghost use Rattle.report_contents.specs.declared.civil_times.calendar.TheConstants.{LAST_DAY, MAX_AHEAD};
ghost use Rattle.report_contents.specs.Reading.{ahead_of, day_of, zone_at};

use super::calendar::day_at;
use message_records::read_digits;

/// The day of the date that a text writes, as `2026-11-28`, by how many days are before it from 1970-01-01
/// on; none where it writes no date.
#[tactic(auto, unfolding(crate::specs::Reading::day_of))]
#[must_use]
pub fn read_day(text: &str) -> Option<u64>
    ensures value { result ≡ day_of text.now }
    ensures most { IfSome result (λ n. n ≤ LAST_DAY) }
{
    let bytes = text.as_bytes();
    if !(bytes.len() == 10 && bytes[4] == b'-' && bytes[7] == b'-') {
        return None;
    }
    let year = read_digits(&bytes[0..4])?;
    let month = read_digits(&bytes[5..7])?;
    let day = read_digits(&bytes[8..10])?;
    day_at(year, month, day)
}

/// How many seconds the zone that a text writes, as `+01:00`, is ahead of UTC; none where it writes no zone.
#[tactic(auto, unfolding(crate::specs::Reading::ahead_of))]
#[must_use]
pub fn read_zone(text: &str) -> Option<i64>
    ensures value { result ≡ ahead_of text.now }
    ensures most { IfSome result (λ z. nat_abs z ≤ MAX_AHEAD) }
{
    let bytes = text.as_bytes();
    if !(bytes.len() == 6 && bytes[3] == b':') {
        return None;
    }
    let hours = read_digits(&bytes[1..3])?;
    let minutes = read_digits(&bytes[4..6])?;
    zone_at(bytes[0], hours, minutes)
}

// A zone by its sign, its hours and its minutes.
fn zone_at(sign: u8, hours: u64, minutes: u64) -> Option<i64>
    ensures value { result ≡ zone_at sign hours minutes }
    ensures most { IfSome result (λ z. nat_abs z ≤ MAX_AHEAD) }
{
    if hours > 23 || minutes > 59 {
        return None;
    }
    let seconds = (hours * 3600 + minutes * 60) as i64;
    match sign {
        b'+' => Some(seconds),
        b'-' if seconds != 0 => Some(-seconds),
        _ => None,
    }
}
