//! How a statement of an account is written.
ghost use Rattle.std.specs.Prelude.{◌≡◌, List};
ghost use Rattle.walked_rows.specs.declared.stated.StatedPosting.{StatedPosting};
ghost use Rattle.report_contents.specs.declared.range.Range.{Range};
ghost use Rattle.report_contents.specs.Ranges.{HasSummed};
ghost use Rattle.report_contents.specs.StatementText.{part_of};

use crate::query::Selection;
use crate::range_sums::RangeSums;
use message_records::Cents;

/// What a statement says of an account, and of which of its postings.
#[derive(Clone, Copy)]
pub struct Form {
    pub selection: Selection,
    pub style: Style,
}

/// What it says beside the postings.
#[derive(Clone, Copy)]
pub enum Style {
    /// The balance of the account's row, below them.
    Whole { balance: Cents },
    /// The balances before a range and at its end, in cents, above and below them.
    Part { opening: i128, closing: i128 },
    /// Nothing: it is a sheet of CSV, with the times of a clock that is so many seconds ahead of UTC.
    Sheet { ahead: i64 },
}

impl Form {
    /// The statement of what is selected in the range between the sums.
    #[must_use]
    pub fn of_sums(selection: Selection, sums: &RangeSums) -> Form
        ensures { (range : Range) (rows : List StatedPosting) → HasSummed range sums.now rows
            → result ≡ part_of selection range rows }
    {
        Form {
            selection,
            style: Style::Part {
                opening: sums.before,
                closing: sums.until,
            },
        }
    }
}
