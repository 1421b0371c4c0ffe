//! The request that a row of a sheet states.
ghost use Rattle.std.specs.Prelude.{◌≡◌, ◌≤◌, ◌<◌, ◌^◌, nat_abs, length, IfSome};
ghost use Rattle.std.specs.Option.{ok_or};
ghost use Rattle.csv.specs.Records.{fields_of};
ghost use Rattle.posting_sheets.specs.Sheets.{branch_of, cents_of, cents_written, delta_of, number_up_to};
ghost use Rattle.posting_sheets.specs.Sheets.{money_column, number_within, reference_of, request_of_fields, request_of_row};
ghost use Rattle.posting_sheets.specs.SheetFaults.{faulty_at};

use crate::fault::{BadRow, Column};
use crate::field::filled;
use crate::form::{Form, field};
use crate::money::Money;
use csv::ByteRecord;
use message_records::{
    Branch, Cents, MAX_DELTA, REFERENCE_BYTES, Reference, Request, Teller, Whole, read_digits,
};
use posting_core::branch_of_teller;

// The number that 1 to so many digits write.
fn number_up_to(digits: &[u8], most: usize) -> Option<u64>
    requires { most ≤ 12 }
    ensures value { result ≡ number_up_to most digits.now }
    ensures below { IfSome result (λ n. n < 10 ^ most) }
{
    if digits.is_empty() || digits.len() > most {
        return None;
    }
    read_digits(digits)
}

// The number from 1 on that 1 to 12 digits write.
fn number_within<const MOST: u64>(digits: &[u8]) -> Option<Whole<1, MOST>>
    ensures { result ≡ number_within MOST digits.now }
{
    Whole::new(number_up_to(digits, 12)?)
}

// The cents of a decimal without a sign: 1 to 8 digits, and then nothing, or a point and two digits.
fn cents_of(text: &[u8]) -> Option<u64>
    ensures value { result ≡ cents_of text.now }
    ensures below { IfSome result (λ n. n < 10 ^ 10) }
{
    let (whole, last) = text.split_at(text.len().saturating_sub(3));
    let (point, cents) = last.split_first()?;
    if *point == b'.' && cents.len() == 2 {
        let whole = number_up_to(whole, 8)?;
        Some(whole * 100 + number_up_to(cents, 2)?)
    } else {
        Some(number_up_to(text, 8)? * 100)
    }
}

// The cents that are written so, without a sign.
fn cents_written(money: Money, text: &[u8]) -> Option<u64>
    ensures value { result ≡ cents_written money text.now }
    ensures below { IfSome result (λ n. n < 10 ^ 10) }
{
    match money {
        Money::Cents => number_up_to(text, 10),
        Money::Decimals => cents_of(text),
    }
}

// The amount that is written so, with a sign or without one.
fn delta_of(money: Money, text: &[u8]) -> Option<Cents>
    ensures value { result ≡ delta_of money text.now }
    ensures limit { IfSome result (λ z. nat_abs z ≤ MAX_DELTA) }
{
    let (sign, digits) = text.split_first()?;
    match sign {
        b'-' => Cents::new(-(cents_written(money, digits)? as i64)),
        b'+' => Cents::new(cents_written(money, digits)? as i64),
        _ => Cents::new(cents_written(money, text)? as i64),
    }
}

// The branch that a field writes, and that of the teller where it is empty.
fn branch_of(teller: Teller, text: &[u8]) -> Option<Branch>
    ensures { result ≡ branch_of teller text.now }
{
    if text.is_empty() {
        Branch::new(branch_of_teller(teller))
    } else {
        number_within(text)
    }
}

/// The reference that a text is, filled with spaces, and `Some(None)` where it is empty; none where it is too long or
/// has a byte that isn't printable.
#[must_use]
pub fn reference_of(text: &[u8]) -> Option<Option<Reference>>
    ensures { result ≡ reference_of text.now }
{
    if text.is_empty() {
        return Some(None);
    }
    if text.len() > REFERENCE_BYTES {
        return None;
    }
    Some(Some(Reference::new(&filled(text))?))
}

// What the column is called that writes money so.
fn money_column(money: Money) -> Column
    ensures { result ≡ money_column money }
{
    match money {
        Money::Cents => Column::Delta,
        Money::Decimals => Column::Amount,
    }
}

// What a field states, or which one is wrong.
fn stated<T>(value: Option<T>, column: Column, field: &[u8]) -> Result<T, BadRow>
    ensures { result ≡ ok_or value (faulty_at column field.now) }
{
    match value {
        Some(value) => Ok(value),
        None => Err(BadRow::at(column, field)),
    }
}

// Field by field from the left, up to the first that is wrong.
#[tactic(auto, unfolding(crate::specs::Sheets::request_of_fields))]
fn request_of_fields(form: Form, fields: &ByteRecord) -> Result<Request, BadRow>
    ensures { result ≡ request_of_fields form (fields_of fields.now) }
{
    let text = field(fields, 0);
    let account = stated(number_within(text), Column::Account, text)?;
    let text = field(fields, 1);
    let teller = stated(number_within(text), Column::Teller, text)?;
    let text = field(fields, 2);
    let number = stated(number_within(text), Column::Number, text)?;
    let money = field(fields, 3);
    let column = money_column(form.money);
    let delta = stated(delta_of(form.money, money), column, money)?;
    let text = field(fields, form.branch);
    let branch = stated(branch_of(teller, text), Column::Branch, text)?;
    let text = field(fields, form.reference);
    let reference = stated(reference_of(text), Column::Reference, text)?;
    // Ten digits are within the limit.
    stated(
        Request::new(account, teller, branch, number, delta, reference),
        column,
        money,
    )
}

/// The request that a row states.
pub(crate) fn request_of_row(form: Form, fields: &ByteRecord) -> Result<Request, BadRow>
    ensures { result ≡ request_of_row form (fields_of fields.now) }
{
    if fields.len() != form.columns {
        return Err(BadRow::at(Column::Columns, b""));
    }
    request_of_fields(form, fields)
}
