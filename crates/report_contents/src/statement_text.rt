//! The lines of a statement.
ghost use Rattle.std.specs.Prelude.{◌≡◌, ◌≤◌, ◌+◌, ◌++◌, length};
ghost use Rattle.message_records.specs.declared.limits.TheConstants.{REFERENCE_BYTES};
ghost use Rattle.report_contents.specs.StatementText.{after_others, heading_line, names_line, posting_line};
ghost use Rattle.report_contents.specs.StatementText.{closing_line, heading_of, last_of, line_of, names_of};
ghost use Rattle.report_contents.specs.StatementText.{opening_line, styled_line};

use crate::form::{Form, Style};
use crate::lines::{push_delta, push_filled, push_number};
use crate::sheet::{sheet_heading, sheet_line};
use arrayvec::ArrayString;
use itoa::Buffer;
use message_records::{Account, Cents, Reference};
use posting_sheets::push_text;
use walked_rows::StatedPosting;

/// The most that a line takes.
pub const STATEMENT_LINE: usize = 480;

/// A line of a statement, with its end.
pub type StatementLine = ArrayString<STATEMENT_LINE>;

// How many digits an account has.
const ACCOUNT: usize = 12;

// The widths of the columns.
const ORDINAL: usize = 13;

const MOMENT: usize = 12;

const TELLER: usize = 8;

const BRANCH: usize = 6;

const DELTA: usize = 14;

const BALANCE: usize = 14;

// The first line: which account it is, in twelve digits.
fn statement_heading(account: Account) -> StatementLine
    ensures { result.bytes ≡ heading_line account }
{
    let mut digits = Buffer::new();
    let mut line = ArrayString::new();
    line.push_str("STATEMENT ACCOUNT ");
    push_filled(&mut line, '0', ACCOUNT, digits.format(account.get()));
    line.push_str("\n");
    line
}

// The second line: the names of the columns.
fn statement_names() -> StatementLine
    ensures { result.bytes ≡ names_line }
{
    let mut line = ArrayString::new();
    line.push_str(
        "      ordinal       moment   teller branch          delta        balance reference\n",
    );
    line
}

// Appends a space and the reference, if there is one.
fn push_reference(line: &mut StatementLine, reference: &Option<Reference>)
    requires { length line.old.bytes + REFERENCE_BYTES + 1 ≤ STATEMENT_LINE }
    ensures bytes { line.new.bytes ≡ line.old.bytes ++ after_others reference.now }
    ensures len { length line.new.bytes ≤ length line.old.bytes + REFERENCE_BYTES + 1 }
{
    if let Some(reference) = reference {
        line.push_str(" ");
        push_text(line, reference.text());
    }
}

// The line of a posting with the reference of its request, and the running balance with it.
fn statement_line(row: &StatedPosting, balance: Cents) -> StatementLine
    ensures { result.bytes ≡ posting_line row.now balance }
{
    let StatedPosting {
        posting: row,
        reference,
    } = row;
    let mut line = ArrayString::new();
    push_number(&mut line, ORDINAL, i128::from(row.ordinal.get()));
    line.push_str(" ");
    push_number(&mut line, MOMENT, i128::from(row.moment.get()));
    line.push_str(" ");
    push_number(&mut line, TELLER, i128::from(row.teller));
    line.push_str(" ");
    push_number(&mut line, BRANCH, i128::from(row.branch));
    line.push_str(" ");
    push_delta(&mut line, DELTA, row.delta);
    line.push_str(" ");
    push_number(&mut line, BALANCE, i128::from(balance.get()));
    push_reference(&mut line, reference);
    line.push_str("\n");
    line
}

// The names of the columns, and what the postings before a range add up to.
fn names_and_opening(balance: i128) -> StatementLine
    ensures { result.bytes ≡ names_line ++ opening_line balance }
{
    let mut line = statement_names();
    line.push_str("opening balance                                           ");
    push_number(&mut line, BALANCE, balance);
    line.push_str("\n");
    line
}

// The last line: a balance.
fn statement_closing(balance: i128) -> StatementLine
    ensures { result.bytes ≡ closing_line balance }
{
    let mut line = ArrayString::new();
    line.push_str("closing balance                                           ");
    push_number(&mut line, BALANCE, balance);
    line.push_str("\n");
    line
}

impl Style {
    // The line of a posting with the balance after it.
    fn line(&self, row: &StatedPosting, balance: Cents) -> StatementLine
        ensures { result.bytes ≡ styled_line self.now row.now balance }
    {
        match self {
            Style::Sheet { ahead } => sheet_line(*ahead, row, balance),
            _ => statement_line(row, balance),
        }
    }
}

impl Form {
    /// The first line: which account it is, in twelve digits; of a sheet the names of its columns.
    pub fn heading(&self, account: Account) -> StatementLine
        ensures { result.bytes ≡ heading_of self.now account }
    {
        match self.style {
            Style::Sheet { .. } => sheet_heading(),
            _ => statement_heading(account),
        }
    }

    /// What stands between the heading and the postings: the names of the columns; of a range, also the
    /// balance before it; of a sheet nothing.
    pub fn names(&self) -> StatementLine
        ensures { result.bytes ≡ names_of self.now }
    {
        match self.style {
            Style::Whole { .. } => statement_names(),
            Style::Part { opening, .. } => names_and_opening(opening),
            Style::Sheet { .. } => ArrayString::new(),
        }
    }

    /// The line of a posting with the balance after it, which is empty where it isn't selected.
    pub fn line(&self, row: &StatedPosting, balance: Cents) -> StatementLine
        ensures { result.bytes ≡ line_of self.now row.now balance }
    {
        if self.selection.has(row) {
            self.style.line(row, balance)
        } else {
            ArrayString::new()
        }
    }

    /// The last line: the balance of the account's row; of a range, the balance at its end; of a sheet nothing.
    pub fn closing(&self) -> StatementLine
        ensures { result.bytes ≡ last_of self.now }
    {
        match self.style {
            Style::Whole { balance } => statement_closing(i128::from(balance.get())),
            Style::Part { closing, .. } => statement_closing(closing),
            Style::Sheet { .. } => ArrayString::new(),
        }
    }
}
