//! Why a sheet has no more records, and why replies have no more lines.
ghost use Rattle.std.specs.Prelude.{◌≡◌};
ghost use Rattle.posting_sheets.specs.SheetFaults.{faulty_at};

use crate::field::FieldStart;
use message_records::BadReply;
use std::fmt;

/// Where a row is wrong: it hasn't as many fields as the header, or the first faulty one from the left.
#[derive(Clone, Copy, Debug, PartialEq, Eq)]
pub enum Column {
    /// The row hasn't as many fields as the header.
    Columns,
    /// The account isn't 1 to 12 digits with a value of 1..=`MAX_ACCOUNT`.
    Account,
    /// The teller isn't 1 to 12 digits with a value of 1..=`MAX_TELLER`.
    Teller,
    /// The number isn't 1 to 12 digits with a value of 1..=`MAX_NUMBER`.
    Number,
    /// The delta isn't 1 to 10 digits, with a sign or without one.
    Delta,
    /// The amount isn't 1 to 8 digits, with a sign or without one, and with a point and two digits after them or
    /// without.
    Amount,
    /// The branch isn't 1 to 12 digits with a value of 1..=`MAX_BRANCH`; or there is none, and the teller's isn't in
    /// that range.
    Branch,
    /// The reference has more than `REFERENCE_BYTES` bytes, or one that isn't printable ASCII.
    Reference,
}

/// The column's name, or `columns`.
impl fmt::Display for Column {
    ghost use Rattle.std.specs.Prelude.{Some};
    ghost use Rattle.posting_sheets.specs.SheetFaults.{column_text};

    ghost output = { λ column. Some (column_text column) };

    fn fmt<W: fmt::Write>(&self, f: &mut fmt::Formatter<W>) -> fmt::Result {
        let name = match self {
            Column::Columns => "columns",
            Column::Account => "account",
            Column::Teller => "teller",
            Column::Number => "number",
            Column::Delta => "delta",
            Column::Amount => "amount",
            Column::Branch => "branch",
            Column::Reference => "reference",
        };
        f.write_str(name)
    }
}

/// What is wrong with a row.
#[derive(Clone, Copy, Debug, PartialEq, Eq)]
pub struct BadRow {
    /// Where.
    pub column: Column,
    /// What stands there, or how it begins; nothing where the row hasn't as many fields as the header.
    pub found: FieldStart,
}

impl BadRow {
    // This is what is found in a column.
    pub(crate) fn at(column: Column, field: &[u8]) -> BadRow
        ensures { result ≡ faulty_at column field.now }
    {
        BadRow {
            column,
            found: FieldStart::of(field),
        }
    }
}

/// The column's name, or `columns`.
impl fmt::Display for BadRow {
    ghost use Rattle.std.specs.Prelude.{Some};
    ghost use Rattle.posting_sheets.specs.SheetFaults.{column_text};

    ghost output = { λ bad. Some (column_text bad.column) };

    fn fmt<W: fmt::Write>(&self, f: &mut fmt::Formatter<W>) -> fmt::Result {
        write!(f, "{}", self.column)
    }
}

impl std::error::Error for BadRow {}

/// Why a sheet wasn't translated: its first fault. Rows count from 1 after the header. Unless the sink failed nothing
/// was written.
#[derive(Clone, Copy, Debug, PartialEq, Eq)]
pub enum SheetFault {
    /// The first record isn't the header, or there is none.
    Header,
    /// The row states no posting, and this is what is wrong with it.
    Row(u64, BadRow),
    /// The source failed.
    Read,
    /// The sink failed, or took no byte. A prefix of the records was written.
    Write,
    /// Memory was refused.
    Memory,
}

/// A text of a line: the row, and the column or `columns`.
impl fmt::Display for SheetFault {
    ghost use Rattle.std.specs.Prelude.{Some};
    ghost use Rattle.posting_sheets.specs.SheetFaults.{sheet_text};

    ghost output = { λ fault. Some (sheet_text fault) };

    fn fmt<W: fmt::Write>(&self, f: &mut fmt::Formatter<W>) -> fmt::Result {
        let text = match self {
            SheetFault::Header => "postings header",
            SheetFault::Row(row, bad) => return write!(f, "postings row {row} {bad}"),
            SheetFault::Read => "read failed",
            SheetFault::Write => "write failed",
            SheetFault::Memory => "no memory",
        };
        f.write_str(text)
    }
}

impl std::error::Error for SheetFault {}

/// Why replies weren't translated to the end of their input. Replies count from 1, and so do the rows of a sheet beside
/// them. Unless the sink failed, memory was refused or there is no sheet, the header and the lines of the replies before
/// were written, and nothing else.
#[derive(Clone, Copy, Debug, PartialEq, Eq)]
pub enum RepliesFault {
    /// The input ended so many bytes, 1..=199, into a reply.
    Truncated(u8),
    /// The bytes of this reply are none, and this field is the first that shows it.
    Reply(u64, BadReply),
    /// The source failed.
    Read,
    /// The sink failed, or took no byte. A prefix of the sheet was written.
    Write,
    /// Memory was refused. A prefix of the sheet was written.
    Memory,
    /// The source of the sheet of postings failed. Nothing was written.
    Sheet,
    /// The first record of the sheet of postings isn't the header, or there is none. Nothing was written.
    Header,
    /// The row in the reply's place states no posting, and this is what is wrong with it.
    Row(u64, BadRow),
    /// The row in the reply's place states another posting than the one that the reply answers.
    OtherPosting(u64),
    /// There is no row in the reply's place.
    MoreReplies,
}

/// A text of a line, as `reply 2 faulty tag`.
impl fmt::Display for RepliesFault {
    ghost use Rattle.std.specs.Prelude.{Some};
    ghost use Rattle.posting_sheets.specs.SheetFaults.{replies_text};

    ghost output = { λ fault. Some (replies_text fault) };

    fn fmt<W: fmt::Write>(&self, f: &mut fmt::Formatter<W>) -> fmt::Result {
        let text = match self {
            RepliesFault::Truncated(n) => return write!(f, "the input ends {n} bytes into a reply"),
            RepliesFault::Reply(place, bad) => return write!(f, "reply {place} {bad}"),
            RepliesFault::Read => "read failed",
            RepliesFault::Write => "write failed",
            RepliesFault::Memory => "no memory",
            RepliesFault::Sheet => "postings unreadable",
            RepliesFault::Header => "postings header",
            RepliesFault::Row(row, bad) => return write!(f, "postings row {row} {bad}"),
            RepliesFault::OtherPosting(row) => return write!(f, "row {row} is another posting"),
            RepliesFault::MoreReplies => "more replies than rows",
        };
        f.write_str(text)
    }
}

impl std::error::Error for RepliesFault {}
