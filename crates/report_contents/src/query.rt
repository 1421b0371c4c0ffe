//! What is asked of a statement.
ghost use Rattle.std.specs.Prelude.{◌≡◌};
ghost use Rattle.report_contents.specs.Queries.{has_reference, is_in, is_selected, whole_query};

use crate::range::Range;
use message_records::Reference;
use walked_rows::StatedPosting;

/// Which of an account's postings a statement lists: those in a range of time, those of a reference, or all.
#[derive(Clone, Copy)]
pub struct Selection {
    pub range: Option<Range>,
    pub reference: Option<Reference>,
}

/// How a statement writes them.
#[derive(Clone, Copy)]
pub enum Layout {
    /// In columns, with the balance at the end, and of a range the balance before it too.
    Columns,
    /// As CSV, with the times of a clock that is so many seconds ahead of UTC.
    Sheet { ahead: i64 },
}

/// What is asked of a statement.
#[derive(Clone, Copy)]
pub struct Query {
    pub selection: Selection,
    pub layout: Layout,
}

impl Query {
    /// All postings, in columns.
    #[must_use]
    pub fn whole() -> Query
        ensures { result ≡ whole_query }
    {
        Query {
            selection: Selection {
                range: None,
                reference: None,
            },
            layout: Layout::Columns,
        }
    }
}

impl Selection {
    /// Whether it has a posting.
    pub(crate) fn has(&self, row: &StatedPosting) -> bool
        ensures { result ≡ is_selected self.now row.now }
    {
        is_in(&self.range, row) && has_reference(&self.reference, &row.reference)
    }
}

// Whether a posting was made in the range, if there is one.
fn is_in(range: &Option<Range>, row: &StatedPosting) -> bool
    ensures { result ≡ is_in range.now row.now }
{
    match range {
        None => true,
        Some(range) => range.has(row),
    }
}

// Whether a posting's reference is the one that is asked for, if one is.
fn has_reference(wanted: &Option<Reference>, own: &Option<Reference>) -> bool
    ensures { result ≡ has_reference wanted.now own.now }
{
    match (wanted, own) {
        (None, _) => true,
        (Some(_), None) => false,
        (Some(wanted), Some(own)) => wanted.text().as_slice() == own.text().as_slice(),
    }
}
