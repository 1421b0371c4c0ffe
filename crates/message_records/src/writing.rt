//! Writes the bytes of a request and of a reply.
ghost use Rattle.std.specs.Prelude.{◌≡◌, ◌≤◌, ◌+◌, ◌++◌, pos, length, IfSome, Ok, nat_abs, unwrap_or};
ghost use Rattle.message_records.specs.believed.Records.{unreferenced};
ghost use Rattle.message_records.specs.Records.{IsReference};
ghost use Rattle.message_records.specs.Records.{IsRequest};
ghost use Rattle.message_records.specs.believed.Spelling.{signed, no_fields, fields_spelling, request_spelling};
ghost use Rattle.message_records.specs.believed.Spelling.{tag_of, reference_text};
ghost use Rattle.message_records.specs.believed.Spelling.{reply_spelling};
ghost use Rattle.message_records.specs.believed.Reading.{request_of};
ghost use Rattle.message_records.specs.Reading.{reply_of};

use crate::draft::Draft;
use crate::limits::{MAX_BALANCE, REFERENCE_BYTES, REPLY_BYTES, REQUEST_BYTES};
use crate::numbers::Cents;
use crate::reading::{REFERENCED_TAG, REPLY_TAG, REQUEST_TAG};
use crate::records::{Reply, Request};

// Zeros in the place of each field of a request.
const NO_FIELDS: &[u8; 47] = b"000000000000000000000000000000000000+0000000000";

/// The bytes of the request: ASCII, with spaces after the fields.
#[must_use]
pub fn encode_request(request: &Request) -> [u8; REQUEST_BYTES]
    ensures spelling { result ≡ request_spelling request.now }
    // They are read as this request.
    ensures read_again { request_of result ≡ Ok request.now }
{
    let mut draft = Draft::new();
    draft.put_text(tag_of(request));
    put_fields(&mut draft, request);
    put_reference(&mut draft, request);
    draft.finish()
}

// The first bytes of a request, by whether it has a reference.
fn tag_of(request: &Request) -> &'static [u8; 4]
    ensures value { result.now ≡ tag_of request.now.reference }
    ensures len { length result.now ≡ 4 }
{
    match request.reference() {
        Some(_) => REFERENCED_TAG,
        None => REQUEST_TAG,
    }
}

// The reference, where there is one.
fn put_reference<const SIZE: usize>(draft: &mut Draft<SIZE>, request: &Request)
    requires { length draft.old + REFERENCE_BYTES ≤ SIZE }
    ensures value { draft.new ≡ draft.old ++ reference_text request.now.reference }
    ensures is_reference { IfSome request.now.reference IsReference }
{
    if let Some(reference) = request.reference() {
        draft.put_text(reference.text());
    }
}

/// The bytes of the reply: ASCII, with spaces after the fields.
#[must_use]
pub fn encode_reply(reply: &Reply) -> [u8; REPLY_BYTES]
    ensures spelling { result ≡ reply_spelling reply.now }
    // They are read as this reply.
    ensures read_again { reply_of result ≡ Ok reply.now }
{
    let (request, balance) = reply.shown();
    let outcome = reply.outcome();
    let mut draft = Draft::new();
    draft.put_text(REPLY_TAG);
    draft.put_number(2, u64::from(outcome.code()));
    put_shown(&mut draft, request);
    put_balance(&mut draft, balance);
    draft.put_text(outcome.name().as_bytes());
    draft.finish()
}

// The five fields that a request and a reply have in common.
fn put_fields<const SIZE: usize>(draft: &mut Draft<SIZE>, request: &Request)
    requires { length draft.old + 47 ≤ SIZE }
    ensures value { draft.new ≡ draft.old ++ fields_spelling request.now }
    ensures len { length draft.new ≡ length draft.old + 47 }
    ensures in_range { IsRequest (unreferenced request.now) }
{
    draft.put_number(12, request.account().get());
    draft.put_number(8, request.teller().get());
    draft.put_number(6, request.branch().get());
    draft.put_number(10, request.number().get());
    draft.put_amount(10, request.delta().get());
}

// The fields of the request, zeros where there is none.
fn put_shown<const SIZE: usize>(draft: &mut Draft<SIZE>, request: Option<Request>)
    requires { length draft.old + 47 ≤ SIZE }
    ensures value { draft.new ≡ draft.old ++ fields_spelling (unwrap_or request no_fields) }
    ensures len { length draft.new ≡ length draft.old + 47 }
    ensures in_range { IfSome request (λ r. IsRequest (unreferenced r)) }
{
    match request {
        Some(request) => put_fields(draft, &request),
        None => draft.put_text(NO_FIELDS),
    }
}

// The balance, zero where there is none.
fn put_balance<const SIZE: usize>(draft: &mut Draft<SIZE>, balance: Option<Cents>)
    requires { length draft.old + 13 ≤ SIZE }
    ensures value { draft.new ≡ draft.old ++ signed 12 (unwrap_or balance (pos 0)) }
    ensures len { length draft.new ≡ length draft.old + 13 }
    ensures in_range { IfSome balance (λ z. nat_abs z ≤ MAX_BALANCE) }
{
    match balance {
        Some(balance) => draft.put_amount(12, balance.get()),
        None => draft.put_amount(12, 0),
    }
}
