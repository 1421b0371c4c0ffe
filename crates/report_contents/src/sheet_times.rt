//! Times as ISO 8601 writes them.
ghost use Rattle.std.specs.Prelude.{◌≡◌, ◌≤◌, ◌+◌, ◌++◌, length};
ghost use Rattle.report_contents.specs.Sheet.{date_text, day_time_text, offset_sign, offset_text};
ghost use Rattle.report_contents.specs.Sheet.{time_text, two_digits};
ghost use Rattle.report_contents.specs.declared.statement_text.TheConstants.{STATEMENT_LINE};

use crate::civil_times::{Date, ZonedTime};
use crate::lines::push_filled;
use crate::statement_text::StatementLine;
use itoa::Buffer;

// What a number of two digits takes at most, as far as is known of one of 64 bits.
const TWO_DIGITS: usize = 22;

/// The most that a time takes.
pub(crate) const TIME: usize = 185;

// Appends a number in two digits.
fn push_two_digits(line: &mut StatementLine, number: u64)
    requires { length line.old.bytes + TWO_DIGITS ≤ STATEMENT_LINE }
    ensures bytes { line.new.bytes ≡ line.old.bytes ++ two_digits number }
    ensures len { length line.new.bytes ≤ length line.old.bytes + TWO_DIGITS }
{
    let mut digits = Buffer::new();
    push_filled(line, '0', 2, digits.format(number));
}

// Appends a date, as 2026-11-28.
fn push_date(line: &mut StatementLine, date: &Date)
    requires { length line.old.bytes + 70 ≤ STATEMENT_LINE }
    ensures bytes { line.new.bytes ≡ line.old.bytes ++ date_text date.now }
    ensures len { length line.new.bytes ≤ length line.old.bytes + 70 }
{
    let mut digits = Buffer::new();
    push_filled(line, '0', 4, digits.format(date.year));
    line.push_str("-");
    push_two_digits(line, date.month);
    line.push_str("-");
    push_two_digits(line, date.day);
}

// Appends the time of a day, as 09:30:00.
fn push_day_time(line: &mut StatementLine, time: &ZonedTime)
    requires { length line.old.bytes + 68 ≤ STATEMENT_LINE }
    ensures bytes { line.new.bytes ≡ line.old.bytes ++ day_time_text time.now }
    ensures len { length line.new.bytes ≤ length line.old.bytes + 68 }
{
    push_two_digits(line, time.hour);
    line.push_str(":");
    push_two_digits(line, time.minute);
    line.push_str(":");
    push_two_digits(line, time.second);
}

fn offset_sign(ahead: i64) -> &'static str
    ensures value { result.now ≡ offset_sign ahead }
    ensures len { length result.now ≡ 1 }
{
    if ahead < 0 { "-" } else { "+" }
}

// Appends how far a clock is ahead of UTC, as +01:00.
fn push_offset(line: &mut StatementLine, ahead: i64)
    requires { length line.old.bytes + 46 ≤ STATEMENT_LINE }
    ensures bytes { line.new.bytes ≡ line.old.bytes ++ offset_text ahead }
    ensures len { length line.new.bytes ≤ length line.old.bytes + 46 }
{
    let seconds = ahead.unsigned_abs();
    line.push_str(offset_sign(ahead));
    push_two_digits(line, seconds / 3600);
    line.push_str(":");
    push_two_digits(line, seconds % 3600 / 60);
}

/// Appends a time, as 2026-11-28T09:30:00+01:00.
#[tactic(auto, unfolding(crate::specs::Sheet::time_text))]
pub(crate) fn push_time(line: &mut StatementLine, time: &ZonedTime)
    requires { length line.old.bytes + TIME ≤ STATEMENT_LINE }
    ensures bytes { line.new.bytes ≡ line.old.bytes ++ time_text time.now }
    ensures len { length line.new.bytes ≤ length line.old.bytes + TIME }
{
    push_date(line, &time.date);
    line.push_str("T");
    push_day_time(line, time);
    push_offset(line, time.ahead);
}
