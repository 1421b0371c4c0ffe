//! What the words of a statement ask for.
ghost use Rattle.std.specs.Prelude.{◌≡◌, option_map};
ghost use Rattle.command_line.specs.Queries.{is_set, layout_told, query_told, reference_named, reference_told};

use crate::dates::{ahead_in, range_told};
use message_records::Reference;
use posting_sheets::reference_of;
use report_contents::{Layout, Query, Selection};
use std::fmt;

/// Why what is asked of a statement, or of a counter that shares its log, is none.
#[derive(Clone, Copy, Debug, PartialEq, Eq)]
pub enum QueryFault {
    /// `--from` has no date.
    From,
    /// `--to` has no date.
    To,
    /// `--zone` has no zone.
    Zone,
    /// The first day is after the last.
    Order,
    /// `--reference` has no reference.
    Reference,
    /// Of `--quorum` and `--name` one is missing, or both beside `--standby`.
    Sharing,
}

impl fmt::Display for QueryFault {
    ghost use Rattle.std.specs.Prelude.{Some};
    ghost use Rattle.command_line.specs.QueryTexts.{query_text};

    ghost output = { λ fault. Some (query_text fault) };

    fn fmt<W: fmt::Write>(&self, f: &mut fmt::Formatter<W>) -> fmt::Result {
        match self {
            QueryFault::From => write!(f, "no date in --from"),
            QueryFault::To => write!(f, "no date in --to"),
            QueryFault::Zone => write!(f, "no zone in --zone"),
            QueryFault::Order => write!(f, "--to is before --from"),
            QueryFault::Reference => write!(f, "no reference in --reference"),
            QueryFault::Sharing => write!(f, "--quorum and --name go together"),
        }
    }
}

/// What the values of a statement's options ask for.
#[tactic(auto, unfolding(crate::specs::Queries::query_told))]
pub(crate) fn query_told(
    from: Option<&str>,
    to: Option<&str>,
    zone: Option<&str>,
    reference: Option<&str>,
    csv: Option<&str>,
) -> Result<Query, QueryFault>
    ensures { result ≡ query_told (option_map (λ s. s.now) from.entry) (option_map (λ s. s.now) to.entry)
        (option_map (λ s. s.now) zone.entry) (option_map (λ s. s.now) reference.entry)
        (option_map (λ s. s.now) csv.entry) }
{
    let range = range_told(from, to, zone)?;
    let reference = reference_told(reference)?;
    let selection = Selection { range, reference };
    let layout = layout_told(is_set(csv), zone);
    Ok(Query { selection, layout })
}

// The reference that is asked for, if one is.
fn reference_told(text: Option<&str>) -> Result<Option<Reference>, QueryFault>
    ensures { result ≡ reference_told (option_map (λ s. s.now) text.entry) }
{
    let Some(text) = text else {
        return Ok(None);
    };
    match reference_named(text) {
        Some(reference) => Ok(Some(reference)),
        None => Err(QueryFault::Reference),
    }
}

// The reference that a text names, filled with spaces.
fn reference_named(text: &str) -> Option<Reference>
    ensures { result ≡ reference_named text.now }
{
    reference_of(text.as_bytes())?
}

// How it is written.
fn layout_told(csv: bool, zone: Option<&str>) -> Layout
    ensures { result ≡ layout_told csv (option_map (λ s. s.now) zone.entry) }
{
    if csv {
        let ahead = ahead_in(zone).unwrap_or(0);
        Layout::Sheet { ahead }
    } else {
        Layout::Columns
    }
}

// Whether a flag is set, by the value that clap makes of it.
pub(crate) fn is_set(value: Option<&str>) -> bool
    ensures { result ≡ is_set (option_map (λ s. s.now) value.entry) }
{
    match value {
        Some("true") => true,
        _ => false,
    }
}
