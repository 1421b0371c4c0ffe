//! The message at the front of the bytes that were read.
ghost use Rattle.std.specs.Prelude.{◌≡◌, ◌≤◌, ◌<◌, ◌-◌, ◌==◌, ℕ, List, All, length, map, take, drop};
ghost use Rattle.std.specs.Prelude.{bytes_eq, codes};
ghost use Rattle.httparse.specs.Spans.{IsRequestWithin, IsRequestOf};
ghost use Rattle.counter_http.specs.Next.{IsNextMessage};

use crate::fields::{ask_to_close, length_of_body};
use crate::limits::{MAX_FIELDS, MAX_HEAD};
use httparse::Status;
use httparse::spans::{EMPTY_HEADER_SPAN, HeaderSpan, RequestSpans, parse_request};

/// A message, as it was read.
#[derive(Clone, Copy)]
pub(crate) struct Whole<'b> {
    pub method: &'b [u8],
    pub target: &'b [u8],
    pub body: &'b [u8],
    /// The connection ends after its answer.
    pub closes: bool,
    /// How many bytes it has.
    pub length: usize,
}

/// What is at the front of what was read.
#[derive(Clone, Copy)]
pub(crate) enum Next<'b> {
    /// A whole message.
    Message(Whole<'b>),
    /// Bytes are missing. Where none follow it is answered by a 400, with its body or without.
    Unfinished(bool),
    /// It is answered by a 400, whatever bytes follow.
    Refused(bool),
}

/// What is at the front of what was read.
pub(crate) fn next_message<'b>(buf: &'b [u8]) -> Next<'b>
    ensures { IsNextMessage buf.now result }
{
    if buf.is_empty() {
        return Next::Unfinished(true);
    }
    let mut fields = [EMPTY_HEADER_SPAN; MAX_FIELDS];
    match parse_request(buf, &mut fields) {
        Ok(Status::Complete(head)) if head.len <= MAX_HEAD => { after_head(buf, head, &fields) }
        Ok(Status::Partial) if buf.len() < MAX_HEAD => Next::Unfinished(true),
        _ => Next::Refused(true),
    }
}

// A method by which only the head of an answer is asked for.
pub(crate) fn is_head(method: &[u8]) -> bool
    ensures { result ≡ bytes_eq method.now (codes "HEAD") }
{
    method == b"HEAD".as_slice()
}

// What is after a head.
fn after_head<'b>(buf: &'b [u8], head: RequestSpans, fields: &[HeaderSpan]) -> Next<'b>
    requires within { IsRequestWithin buf.now fields.now head }
    requires head { IsRequestOf buf.now fields.now head }
    requires room { length fields.now ≡ MAX_FIELDS }
    requires bytes { head.len ≤ MAX_HEAD }
    ensures { IsNextMessage buf.now result }
{
    let method = head.method.of(buf);
    let fields = &fields[..head.headers];
    let shows_body = !is_head(method);
    let Some(length) = length_of_body(buf, fields) else {
        return Next::Refused(shows_body);
    };
    let after = &buf[head.len..];
    if after.len() < length {
        return Next::Unfinished(shows_body);
    }
    Next::Message(Whole {
        method,
        target: head.path.of(buf),
        body: &after[..length],
        closes: head.version == 0 || ask_to_close(buf, fields),
        length: head.len + length,
    })
}
