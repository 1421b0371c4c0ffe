//! The calendar from 1970 to 9999.
ghost use Rattle.std.specs.Prelude.{◌≡◌, ◌≤◌, ◌*◌, ◌+◌, IfSome, nat_abs};
ghost use Rattle.report_contents.specs.Calendar.{day_at, days_of_month, days_of_months, days_of_year, days_of_years};
ghost use Rattle.report_contents.specs.Calendar.{first_second, is_leap_year};

/// No day of the calendar has more days before it.
pub const LAST_DAY: u64 = 3_000_000;

/// No zone is so many seconds ahead of UTC, or behind it.
pub const MAX_AHEAD: u64 = 86_400;

// The first year.
pub(crate) const FIRST_YEAR: u64 = 1970;

// How many years from it on the calendar has.
const YEARS: u64 = 8030;

pub(crate) const SECONDS_PER_DAY: u64 = 86_400;

fn is_leap_year(year: u64) -> bool
    ensures { result ≡ is_leap_year year }
{
    year % 4 == 0 && (year % 100 != 0 || year % 400 == 0)
}

pub(crate) fn days_of_year(year: u64) -> u64
    ensures value { result ≡ days_of_year year }
    ensures least { 365 ≤ result }
    ensures most { result ≤ 366 }
{
    if is_leap_year(year) { 366 } else { 365 }
}

pub(crate) fn days_of_month(year: u64, month: u64) -> u64
    ensures value { result ≡ days_of_month year month }
    ensures most { result ≤ 31 }
{
    if month == 2 {
        if is_leap_year(year) { 29 } else { 28 }
    } else if month == 4 || month == 6 || month == 9 || month == 11 {
        30
    } else {
        31
    }
}

// The days of so many years from 1970 on.
fn days_of_years(years: u64) -> u64
    requires { years ≤ YEARS }
    ensures value { result ≡ days_of_years years }
    ensures most { result ≤ 366 * years }
{
    let mut days = 0;
    'years: for year in 0..years {
        days += days_of_year(FIRST_YEAR + year);
    }
    days
}

// The days of the first so many months of a year.
fn days_of_months(year: u64, months: u64) -> u64
    requires { months ≤ 12 }
    ensures value { result ≡ days_of_months year months }
    ensures most { result ≤ 31 * months }
{
    let mut days = 0;
    'months: for month in 0..months {
        days += days_of_month(year, month + 1);
    }
    days
}

/// The day of a date, by how many days are before it from 1970-01-01 on; none where there is no such date.
pub(crate) fn day_at(year: u64, month: u64, day: u64) -> Option<u64>
    ensures value { result ≡ day_at year month day }
    ensures most { IfSome result (λ n. n ≤ LAST_DAY) }
{
    let known = FIRST_YEAR <= year && year <= 9999 && 1 <= month && month <= 12;
    if !(known && 1 <= day && day <= days_of_month(year, month)) {
        return None;
    }
    Some(days_of_years(year - FIRST_YEAR) + days_of_months(year, month - 1) + (day - 1))
}

/// The second with which a day begins in a zone that is so many seconds ahead of UTC, from
/// 1970-01-01T00:00:00Z on.
#[must_use]
pub fn first_second(day: u64, ahead: i64) -> i64
    requires day { day ≤ LAST_DAY + 1 }
    requires ahead { nat_abs ahead ≤ MAX_AHEAD }
    ensures { result ≡ first_second day ahead }
{
    (day * SECONDS_PER_DAY) as i64 - ahead
}
