//! Which range of time the words of a statement ask for.
ghost use Rattle.std.specs.Prelude.{◌≡◌, ◌≤◌, IfSome, is_some, nat_abs, option_map};
ghost use Rattle.report_contents.specs.declared.civil_times.calendar.TheConstants.{MAX_AHEAD};
ghost use Rattle.command_line.specs.Dates.{ahead_in, begin_at, end_at, range_between, range_of, range_told};

use crate::queries::QueryFault;
use message_records::MAX_MOMENT;
use report_contents::{Range, first_second, read_day, read_zone};

/// The range that the values of `--from`, `--to` and `--zone` tell; none without any of them.
pub(crate) fn range_told(
    from: Option<&str>,
    to: Option<&str>,
    zone: Option<&str>,
) -> Result<Option<Range>, QueryFault>
    ensures { result ≡ range_told (option_map (λ s. s.now) from.entry) (option_map (λ s. s.now) to.entry)
        (option_map (λ s. s.now) zone.entry) }
{
    if is_given(from) || is_given(to) || is_given(zone) {
        let range = range_between(from, to, zone)?;
        Ok(Some(range))
    } else {
        Ok(None)
    }
}

fn is_given(word: Option<&str>) -> bool
    ensures { result ≡ is_some (option_map (λ s. s.now) word.entry) }
{
    match word {
        None => false,
        Some(_) => true,
    }
}

// The range from a day to a day in a zone.
#[tactic(auto, unfolding(crate::specs::Dates::range_between))]
fn range_between(
    from: Option<&str>,
    to: Option<&str>,
    zone: Option<&str>,
) -> Result<Range, QueryFault>
    ensures { result ≡ range_between (option_map (λ s. s.now) from.entry) (option_map (λ s. s.now) to.entry)
        (option_map (λ s. s.now) zone.entry) }
{
    let ahead = ahead_in(zone).ok_or(QueryFault::Zone)?;
    let begin = begin_at(ahead, from).ok_or(QueryFault::From)?;
    let end = end_at(ahead, to).ok_or(QueryFault::To)?;
    range_of(begin, end)
}

// The seconds from one on, and before another that comes later.
fn range_of(from: i64, until: i64) -> Result<Range, QueryFault>
    ensures { result ≡ range_of from until }
{
    if from < until {
        Ok(Range { from, until })
    } else {
        Err(QueryFault::Order)
    }
}

/// How far the zone is ahead of UTC.
pub(crate) fn ahead_in(zone: Option<&str>) -> Option<i64>
    ensures value { result ≡ ahead_in (option_map (λ s. s.now) zone.entry) }
    ensures most { IfSome result (λ z. nat_abs z ≤ MAX_AHEAD) }
{
    match zone {
        None => Some(0),
        Some(zone) => read_zone(zone),
    }
}

// The first second of the first day.
fn begin_at(ahead: i64, date: Option<&str>) -> Option<i64>
    requires { nat_abs ahead ≤ MAX_AHEAD }
    ensures { result ≡ begin_at ahead (option_map (λ s. s.now) date.entry) }
{
    let Some(date) = date else {
        return Some(0);
    };
    let day = read_day(date)?;
    Some(first_second(day, ahead))
}

// The first second after the last day.
fn end_at(ahead: i64, date: Option<&str>) -> Option<i64>
    requires { nat_abs ahead ≤ MAX_AHEAD }
    ensures { result ≡ end_at ahead (option_map (λ s. s.now) date.entry) }
{
    let Some(date) = date else {
        return Some(MAX_MOMENT as i64 + 1);
    };
    let day = read_day(date)?;
    Some(first_second(day + 1, ahead))
}
