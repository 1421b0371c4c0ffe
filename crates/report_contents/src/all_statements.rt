//! What the statement of an account says among those of all, and whose statements they are.
ghost use Rattle.std.specs.Prelude.{◌≡◌, ◌<◌, ◌-◌, ◌^◌, length};
ghost use Rattle.std.specs.List.{list_any};
ghost use Rattle.report_contents.specs.AllStatements.{form_in, range_or_all, top_of};
ghost use Rattle.report_contents.specs.Queries.{is_selected};
ghost use Rattle.report_contents.specs.Ranges.{HasSummed};

use crate::form::{Form, Style};
use crate::query::{Layout, Query, Selection};
use crate::range::Range;
use crate::range_sums::RangeSums;
use crate::sheet::sheet_heading;
use crate::statement_text::StatementLine;
use arrayvec::ArrayString;
use walked_rows::StatedPosting;

// The range that is asked for, or all time.
fn range_or_all(range: Option<Range>) -> Range
    ensures { result ≡ range_or_all range }
{
    match range {
        None => Range {
            from: 0,
            until: i64::MAX,
        },
        Some(range) => range,
    }
}

// What postings before a range and up to its end add up to.
fn sums_of(range: Range, rows: &[StatedPosting]) -> RangeSums
    ensures { HasSummed range result rows.now }
{
    let mut sums = RangeSums::none(range);
    for row in rows {
        sums.add(row);
    }
    sums
}

impl Layout {
    /// What stands above all statements: of a sheet the names of its columns, else nothing.
    pub fn top(self) -> StatementLine
        ensures { result.bytes ≡ top_of self }
    {
        match self {
            Layout::Sheet { .. } => sheet_heading(),
            Layout::Columns => ArrayString::new(),
        }
    }
}

impl Selection {
    /// Whether it has one of these postings.
    #[must_use]
    pub fn has_any(&self, rows: &[StatedPosting]) -> bool
        ensures { result ≡ list_any (is_selected self.now) rows.now }
    {
        rows.iter().any(|row| self.has(row))
    }
}

impl Form {
    /// The statement of an account that has these postings, as one of a range, or as rows of a sheet.
    #[must_use]
    pub fn of_account(query: &Query, rows: &[StatedPosting]) -> Form
        ensures { result ≡ form_in query.now.layout query.now.selection rows.now }
    {
        let selection = query.selection;
        match query.layout {
            Layout::Sheet { ahead } => Form {
                selection,
                style: Style::Sheet { ahead },
            },
            Layout::Columns => {
                let sums = sums_of(range_or_all(selection.range), rows);
                Form::of_sums(selection, &sums)
            }
        }
    }
}
