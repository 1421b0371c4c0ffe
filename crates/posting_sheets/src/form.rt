//! Which columns a sheet has, and how it writes money.
ghost use Rattle.std.specs.Prelude.{◌≡◌};
ghost use Rattle.csv.specs.Records.{fields_of};
ghost use Rattle.posting_sheets.specs.Sheets.{field, form_of, form_with, has_both, has_branch, has_reference};
ghost use Rattle.posting_sheets.specs.Sheets.{is_header, money_named, plain};

use crate::money::Money;
use csv::ByteRecord;

/// How a row writes money, how many fields it has, and the places of its branch and its reference. Where a sheet has
/// no such column, its place is after the last field.
#[derive(Clone, Copy)]
pub(crate) struct Form {
    pub(crate) money: Money,
    pub(crate) columns: usize,
    pub(crate) branch: usize,
    pub(crate) reference: usize,
}

impl Form {
    fn plain(money: Money) -> Form
        ensures { result ≡ plain money }
    {
        Form {
            money,
            columns: 4,
            branch: 4,
            reference: 4,
        }
    }

    fn has_branch(money: Money) -> Form
        ensures { result ≡ has_branch money }
    {
        Form {
            money,
            columns: 5,
            branch: 4,
            reference: 5,
        }
    }

    fn has_reference(money: Money) -> Form
        ensures { result ≡ has_reference money }
    {
        Form {
            money,
            columns: 5,
            branch: 5,
            reference: 4,
        }
    }

    fn has_both(money: Money) -> Form
        ensures { result ≡ has_both money }
    {
        Form {
            money,
            columns: 6,
            branch: 4,
            reference: 5,
        }
    }
}

/// The field at a place, which is empty where the record has none there.
pub(crate) fn field(fields: &ByteRecord, place: usize) -> &[u8]
    ensures { result.now ≡ field place (fields_of fields.now) }
{
    match fields.get(place) {
        Some(field) => field,
        None => b"",
    }
}

// Whether the record is the header of a form whose last columns have these names. One that isn't there has none.
fn is_header(form: Form, branch: &[u8], reference: &[u8], fields: &ByteRecord) -> bool
    ensures { result ≡ is_header form branch.now reference.now (fields_of fields.now) }
{
    fields.len() == form.columns
        && field(fields, 0) == b"account".as_slice()
        && field(fields, 1) == b"teller".as_slice()
        && field(fields, 2) == b"number".as_slice()
        && field(fields, form.branch) == branch
        && field(fields, form.reference) == reference
}

// How the rows write money, by the name of the fourth column.
fn money_named(name: &[u8]) -> Option<Money>
    ensures { result ≡ money_named name.now }
{
    if name == b"delta".as_slice() {
        Some(Money::Cents)
    } else if name == b"amount".as_slice() {
        Some(Money::Decimals)
    } else {
        None
    }
}

// The form of rows that write money so whose header the record is, if it is one.
fn form_with(fields: &ByteRecord, money: Money) -> Option<Form>
    ensures { result ≡ form_with (fields_of fields.now) money }
{
    if is_header(Form::plain(money), b"", b"", fields) {
        Some(Form::plain(money))
    } else if is_header(Form::has_branch(money), b"branch", b"", fields) {
        Some(Form::has_branch(money))
    } else if is_header(Form::has_reference(money), b"", b"reference", fields) {
        Some(Form::has_reference(money))
    } else if is_header(Form::has_both(money), b"branch", b"reference", fields) {
        Some(Form::has_both(money))
    } else {
        None
    }
}

/// The form whose header the record is, if it is one.
pub(crate) fn form_of(fields: &ByteRecord) -> Option<Form>
    ensures { result ≡ form_of (fields_of fields.now) }
{
    form_with(fields, money_named(field(fields, 3))?)
}
