//! The rows of a statement as CSV.
ghost use Rattle.std.specs.Prelude.{◌≡◌, ◌≤◌, ◌+◌, ◌++◌, length, codes, decimal};
ghost use Rattle.std.specs.Fmt.{signed_decimal};
ghost use Rattle.report_contents.specs.Sheet.{sheet_heading, sheet_line};
ghost use Rattle.report_contents.specs.declared.statement_text.TheConstants.{STATEMENT_LINE};

use crate::civil_times::zoned_time;
use crate::sheet_fields::push_amount;
use crate::sheet_times::push_time;
use crate::statement_text::StatementLine;
use arrayvec::ArrayString;
use itoa::Buffer;
use message_records::Cents;
use posting_sheets::reference_field;
use walked_rows::StatedPosting;

/// The first line: the names of the columns.
pub(crate) fn sheet_heading() -> StatementLine
    ensures { result.bytes ≡ sheet_heading }
{
    let mut line = ArrayString::new();
    line.push_str("account,ordinal,time,teller,branch,amount,balance,reference\n");
    line
}

// Appends a number and a comma.
fn push_signed(line: &mut StatementLine, number: i64)
    requires { length line.old.bytes + 21 ≤ STATEMENT_LINE }
    ensures bytes { line.new.bytes ≡ line.old.bytes ++ signed_decimal number ++ codes "," }
    ensures len { length line.new.bytes ≤ length line.old.bytes + 21 }
{
    let mut digits = Buffer::new();
    line.push_str(digits.format(number));
    line.push_str(",");
}

// Appends an ordinal and a comma.
fn push_ordinal(line: &mut StatementLine, number: u64)
    requires { length line.old.bytes + 21 ≤ STATEMENT_LINE }
    ensures bytes { line.new.bytes ≡ line.old.bytes ++ decimal number ++ codes "," }
    ensures len { length line.new.bytes ≤ length line.old.bytes + 21 }
{
    let mut digits = Buffer::new();
    line.push_str(digits.format(number));
    line.push_str(",");
}

/// The line of a posting, by a clock that is so many seconds ahead of UTC, with the running balance.
#[tactic(auto, unfolding(crate::specs::Sheet::sheet_line))]
pub(crate) fn sheet_line(ahead: i64, row: &StatedPosting, balance: Cents) -> StatementLine
    ensures { result.bytes ≡ sheet_line ahead row.now balance }
{
    let StatedPosting {
        posting: row,
        reference,
    } = row;
    let mut line = ArrayString::new();
    push_signed(&mut line, row.account);
    push_ordinal(&mut line, row.ordinal.get());
    push_time(&mut line, &zoned_time(ahead, row.moment));
    line.push_str(",");
    push_signed(&mut line, row.teller);
    push_signed(&mut line, row.branch);
    push_amount(&mut line, row.delta);
    line.push_str(",");
    push_amount(&mut line, balance.get());
    line.push_str(",");
    line.push_str(reference_field(reference).as_str());
    line.push_str("\n");
    line
}
