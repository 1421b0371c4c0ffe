//! The date and the time of day of a moment.
ghost use Rattle.std.specs.Prelude.{◌≡◌, ◌≤◌, ◌<◌, ◌+◌, IfSome};
ghost use Rattle.message_records.specs.declared.limits.TheConstants.{MAX_MOMENT};
ghost use Rattle.report_contents.specs.declared.civil_times.calendar.TheConstants.{LAST_DAY};
ghost use Rattle.report_contents.specs.Calendar.{days_of_month, days_of_months, days_of_year, days_of_years};
ghost use Rattle.report_contents.specs.Zoned.{clock_at, date_of, shown_at, zoned_time};

use super::calendar::{FIRST_YEAR, LAST_DAY, SECONDS_PER_DAY, days_of_month, days_of_year};
use message_records::{MAX_MOMENT, Moment};

// So many years have more days than lie before any.
const MANY_YEARS: u64 = 9000;

/// A date: the year from 1970 on, the month from 1 to 12, and the day of the month from 1 on.
#[derive(Clone, Copy)]
pub struct Date {
    pub year: u64,
    pub month: u64,
    pub day: u64,
}

/// A date, the time of that day, and how many seconds the clock that shows it is ahead of UTC.
#[derive(Clone, Copy)]
pub struct ZonedTime {
    pub date: Date,
    pub hour: u64,
    pub minute: u64,
    pub second: u64,
    pub ahead: i64,
}

// The years from 1970 on that are over on a day, and the days of its own that are.
fn years_over(day: u64) -> (u64, u64)
    requires { day ≤ LAST_DAY }
    ensures days { day ≡ days_of_years result.0 + result.1 }
    ensures few { result.0 < 9000 }
    ensures last { result.1 < days_of_year (1970 + result.0) }
{
    let mut rest = day;
    'passed: for years in 0..MANY_YEARS {
        let days = days_of_year(FIRST_YEAR + years);
        if rest < days {
            return (years, rest);
        }
        rest -= days;
    }
    unreachable!()
}

// The months of a year that are over after so many of its days, and the days of the next one that are.
fn months_over(year: u64, day: u64) -> (u64, u64)
    requires { day < days_of_year year }
    ensures days { day ≡ days_of_months year result.0 + result.1 }
    ensures months { result.0 < 12 }
    ensures last { result.1 < days_of_month year (result.0 + 1) }
{
    let mut rest = day;
    'passed: for months in 0..12 {
        let days = days_of_month(year, months + 1);
        if rest < days {
            return (months, rest);
        }
        rest -= days;
    }
    unreachable!()
}

// The date so many days after 1970-01-01.
fn date_of(day: u64) -> Date
    requires { day ≤ LAST_DAY }
    ensures { result ≡ date_of day }
{
    let (years, rest) = years_over(day);
    let year = FIRST_YEAR + years;
    let (months, days) = months_over(year, rest);
    Date {
        year,
        month: months + 1,
        day: days + 1,
    }
}

// The second that a clock shows at a moment; none where its year is none from 1970 to 9999.
fn shown_at(ahead: i64, moment: u64) -> Option<u64>
    requires { moment ≤ MAX_MOMENT }
    ensures value { result ≡ shown_at ahead moment }
    ensures most { IfSome result (λ n. n ≤ MAX_MOMENT) }
{
    let there = (moment as i64).checked_add(ahead)?;
    if there < 0 || there > MAX_MOMENT as i64 {
        return None;
    }
    Some(there as u64)
}

// What a clock shows that is so far ahead of UTC.
fn clock_at(ahead: i64, second: u64) -> ZonedTime
    requires { second ≤ MAX_MOMENT }
    ensures { result ≡ clock_at ahead second }
{
    ZonedTime {
        date: date_of(second / SECONDS_PER_DAY),
        hour: second % SECONDS_PER_DAY / 3600,
        minute: second % 3600 / 60,
        second: second % 60,
        ahead,
    }
}

/// A moment by a clock in a zone that is so many seconds ahead of UTC, and by one in UTC where the year in the zone
/// is none from 1970 to 9999.
#[must_use]
pub fn zoned_time(ahead: i64, moment: Moment) -> ZonedTime
    ensures { result ≡ zoned_time ahead moment }
{
    let moment = moment.get();
    match shown_at(ahead, moment) {
        Some(second) => clock_at(ahead, second),
        None => clock_at(0, moment),
    }
}
