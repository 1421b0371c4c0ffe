//! Reads the bytes of a request and of a reply.
ghost use Rattle.std.specs.Prelude.{◌≡◌, ◌≤◌, ◌<◌, ◌^◌, ◌-◌, length, is_some, is_ok, IsNone, IfSome, IfOk};
ghost use Rattle.std.specs.Prelude.{IfErr, Ok, nat_abs, option_and_then};
ghost use Rattle.std.specs.Str.{bytes_eq};
ghost use Rattle.message_records.specs.believed.Ranges.{whole_within};
ghost use Rattle.message_records.specs.believed.Outcomes.{has_balance, outcome_with};
ghost use Rattle.message_records.specs.Outcomes.{has_request};
ghost use Rattle.message_records.specs.believed.Records.{RequestFields, ReplyFields};
ghost use Rattle.message_records.specs.Records.{IsRequest, IsReply};
ghost use Rattle.message_records.specs.believed.Spelling.{request_spelling, filled, reply_spelling};
ghost use Rattle.message_records.specs.believed.Reading.{number_of, signed_of, fields_of, request_of};
ghost use Rattle.message_records.specs.believed.Reading.{plain_request_of, referenced_request_of};
ghost use Rattle.message_records.specs.Reading.{no_fields_of, shown_request_of, balance_of, reply_of};

use crate::fault::{Bad, BadReply};
use crate::limits::{MAX_BALANCE, REPLY_BYTES, REQUEST_BYTES};
use crate::numbers::{Cents, Whole};
use crate::records::{Outcome, Reply, Request};
use crate::reference::Reference;

/// The first bytes of a request without a reference.
pub(crate) const REQUEST_TAG: &[u8; 4] = b"DC01";

/// The first bytes of a request with a reference.
pub(crate) const REFERENCED_TAG: &[u8; 4] = b"DC02";

const REQUEST_FILLER: [u8; 49] = [b' '; 49];

const REFERENCED_FILLER: [u8; 29] = [b' '; 29];

/// The first bytes of a reply.
pub(crate) const REPLY_TAG: &[u8; 4] = b"DR01";

const REPLY_FILLER: [u8; 118] = [b' '; 118];

const SPACES: [u8; 16] = [b' '; 16];

/// The request that the bytes spell, or the first faulty field from the left.
pub fn decode_request(bytes: &[u8; REQUEST_BYTES]) -> Result<Request, Bad>
    // What is read is spelled so.
    ensures found { IfOk result (λ r. IsRequest r × (bytes.now ≡ request_spelling r)) }
    // What is spelled so is read.
    ensures only { (r : RequestFields) → IsRequest r → bytes.now ≡ request_spelling r → result ≡ Ok r }
    // Which field is the first faulty one.
    ensures exact { result ≡ request_of bytes.now }
{
    read_request(bytes)
}

// The tag says whether it has a reference.
#[tactic(auto, unfolding(crate::specs::believed::Reading::request_of))]
fn read_request(bytes: &[u8; REQUEST_BYTES]) -> Result<Request, Bad>
    ensures { result ≡ request_of bytes.now }
{
    if bytes[..4] == REFERENCED_TAG[..] {
        read_referenced(bytes)
    } else {
        read_plain(bytes)
    }
}

// Field by field from the left, up to the first faulty one.
#[tactic(auto, unfolding(crate::specs::believed::Reading::plain_request_of))]
fn read_plain(bytes: &[u8; REQUEST_BYTES]) -> Result<Request, Bad>
    ensures { result ≡ plain_request_of bytes.now }
{
    if bytes[..4] != REQUEST_TAG[..] {
        return Err(Bad::Tag);
    }
    let request = read_fields(&bytes[4..51])?;
    if bytes[51..] != REQUEST_FILLER[..] {
        return Err(Bad::Filler);
    }
    Ok(request)
}

// Field by field from the left, up to the first faulty one, with a reference after the amount.
#[tactic(auto, unfolding(crate::specs::believed::Reading::referenced_request_of))]
fn read_referenced(bytes: &[u8; REQUEST_BYTES]) -> Result<Request, Bad>
    ensures { result ≡ referenced_request_of bytes.now }
{
    if bytes[..4] != REFERENCED_TAG[..] {
        return Err(Bad::Tag);
    }
    let request = read_fields(&bytes[4..51])?;
    let reference = Reference::new(&bytes[51..71]).ok_or(Bad::Reference)?;
    if bytes[71..] != REFERENCED_FILLER[..] {
        return Err(Bad::Filler);
    }
    Ok(request.referenced(reference))
}

/// The reply that the bytes spell, or the first faulty field from the left.
pub fn decode_reply(bytes: &[u8; REPLY_BYTES]) -> Result<Reply, BadReply>
    // What is read is spelled so.
    ensures found { IfOk result (λ r. IsReply r × (bytes.now ≡ reply_spelling r)) }
    // What is spelled so is read.
    ensures only { (r : ReplyFields) → IsReply r → bytes.now ≡ reply_spelling r → result ≡ Ok r }
    // Which field is the first faulty one.
    ensures exact { result ≡ reply_of bytes.now }
{
    read_reply(bytes)
}

// Field by field from the left, up to the first faulty one.
#[tactic(auto, using(crate::proofs::Composed::name_short))]
fn read_reply(bytes: &[u8; REPLY_BYTES]) -> Result<Reply, BadReply>
    ensures { result ≡ reply_of bytes.now }
{
    if bytes[..4] != REPLY_TAG[..] {
        return Err(BadReply::Tag);
    }
    let outcome = read_outcome(&bytes[4..6]).ok_or(BadReply::Outcome)?;
    let request = read_shown(outcome, &bytes[6..53])?;
    let balance = read_balance(outcome, &bytes[53..66])?;
    if !is_filled(&bytes[66..82], outcome.name().as_bytes()) {
        return Err(BadReply::Name);
    }
    if bytes[82..] != REPLY_FILLER[..] {
        return Err(BadReply::Filler);
    }
    // What the outcome asked for belongs to it.
    Reply::new(outcome, request, balance).ok_or(BadReply::Outcome)
}

// The outcome that has the code.
fn read_outcome(digits: &[u8]) -> Option<Outcome>
    requires { length digits.now ≤ 12 }
    ensures { result ≡ option_and_then outcome_with (number_of digits.now) }
{
    Outcome::with_code(read_digits(digits)?)
}

// The request that a reply with this outcome shows.
fn read_shown(outcome: Outcome, bytes: &[u8]) -> Result<Option<Request>, BadReply>
    requires { length bytes.now ≡ 47 }
    ensures value { result ≡ shown_request_of outcome bytes.now }
    ensures shown { IfOk result (λ r. is_some r ≡ has_request outcome) }
{
    match outcome {
        Outcome::Malformed => read_no_fields(bytes),
        _ => {
            let request = read_fields(bytes)?;
            Ok(Some(request))
        }
    }
}

// Zeros in the place of each field.
#[tactic(auto, unfolding(crate::specs::Reading::no_fields_of))]
fn read_no_fields(bytes: &[u8]) -> Result<Option<Request>, BadReply>
    requires { length bytes.now ≡ 47 }
    ensures value { result ≡ no_fields_of bytes.now }
    ensures shown { IfOk result (λ r. IsNone r) }
{
    expect_text(&bytes[..12], b"000000000000", BadReply::Account)?;
    expect_text(&bytes[12..20], b"00000000", BadReply::Teller)?;
    expect_text(&bytes[20..26], b"000000", BadReply::Branch)?;
    expect_text(&bytes[26..36], b"0000000000", BadReply::Number)?;
    expect_text(&bytes[36..47], b"+0000000000", BadReply::Delta)?;
    Ok(None)
}

// The balance that a reply with this outcome has.
fn read_balance(outcome: Outcome, bytes: &[u8]) -> Result<Option<Cents>, BadReply>
    requires { length bytes.now ≡ 13 }
    ensures value { result ≡ balance_of outcome bytes.now }
    ensures shown { IfOk result (λ z. is_some z ≡ has_balance outcome) }
{
    match outcome {
        Outcome::Posted => {
            let balance = read_amount(bytes).ok_or(BadReply::Balance)?;
            Ok(Some(balance))
        }
        _ => {
            expect_text(bytes, b"+000000000000", BadReply::Balance)?;
            Ok(None)
        }
    }
}

// These bytes and no others.
fn expect_text(bytes: &[u8], text: &[u8], fault: BadReply) -> Result<(), BadReply>
    ensures same { is_ok result ≡ bytes_eq bytes.now text.now }
    ensures fault { IfErr result (λ e. e ≡ fault) }
{
    if *bytes == *text { Ok(()) } else { Err(fault) }
}

// Whether the bytes are the text, filled with spaces on the right.
fn is_filled(bytes: &[u8], text: &[u8]) -> bool
    requires bytes { length bytes.now ≡ 16 }
    requires text { length text.now ≤ 16 }
    ensures { result ≡ bytes_eq bytes.now (filled 16 text.now) }
{
    let end = text.len();
    bytes[..end] == text[..] && bytes[end..] == SPACES[end..]
}

// The five fields that a request and a reply have in common, of a request without a reference.
#[tactic(auto, unfolding(crate::specs::believed::Reading::fields_of))]
fn read_fields(bytes: &[u8]) -> Result<Request, Bad>
    requires { length bytes.now ≡ 47 }
    ensures { result ≡ fields_of bytes.now }
{
    let account = read_number(&bytes[..12]).ok_or(Bad::Account)?;
    let teller = read_number(&bytes[12..20]).ok_or(Bad::Teller)?;
    let branch = read_number(&bytes[20..26]).ok_or(Bad::Branch)?;
    let number = read_number(&bytes[26..36]).ok_or(Bad::Number)?;
    let delta = read_amount(&bytes[36..47]).ok_or(Bad::Delta)?;
    // Ten digits are within the limit.
    Request::new(account, teller, branch, number, delta, None).ok_or(Bad::Delta)
}

// A number from 1 on.
fn read_number<const MOST: u64>(digits: &[u8]) -> Option<Whole<1, MOST>>
    requires { length digits.now ≤ 12 }
    ensures { result ≡ option_and_then (whole_within 1 MOST) (number_of digits.now) }
{
    Whole::new(read_digits(digits)?)
}

/// The number that up to twelve digits write; none where a byte is no digit. No byte at all writes 0.
#[must_use]
pub fn read_digits(digits: &[u8]) -> Option<u64>
    requires { length digits.now ≤ 12 }
    ensures value { result ≡ number_of digits.now }
    ensures below { IfSome result (λ n. n < 10 ^ length digits.now) }
    ensures most { IfSome result (λ n. n ≤ MAX_BALANCE) }
{
    let mut number = 0;
    for digit in digits {
        if !digit.is_ascii_digit() {
            return None;
        }
        number = number * 10 + u64::from(digit - b'0');
    }
    Some(number)
}

// The amount that a sign and up to twelve digits write. Zero has one sign.
fn read_amount(bytes: &[u8]) -> Option<Cents>
    requires { length bytes.now ≤ 13 }
    ensures value { result ≡ signed_of bytes.now }
    ensures limit { IfSome result (λ z. nat_abs z < 10 ^ (length bytes.now - 1)) }
{
    let (sign, digits) = bytes.split_first()?;
    let amount = read_digits(digits)? as i64;
    match sign {
        b'+' => Cents::new(amount),
        b'-' if amount != 0 => Cents::new(-amount),
        _ => None,
    }
}
