//! An answer of HTTP, of which all bytes are there or more have to come.
ghost use Rattle.std.specs.Prelude.{◌≡◌, ◌≤◌, IfOk, IfSome, drop, length};
ghost use Rattle.shared_log.specs.etcd.Answers.{IsAnswer, IsBody};

use crate::log::LogFault;
use http1::Limits;
use http1::decode::{Decoded, Decoder};
use http1::fields::KnownFields;
use http1::framing::{Framing, MethodKind, response_framing};
use httparse::Status;
use httparse::spans::{EMPTY_HEADER_SPAN, parse_response};
use std::alloc::Global;

// How many fields a head, and how many trailers an answer may have.
const MOST_FIELDS: usize = 32;

const LIMITS: Limits = Limits {
    max_head_len: 16384,
    max_extensions_len: 1024,
    max_trailers_len: 1024,
};

// The bytes behind the first so many.
fn behind<'b>(bytes: &'b [u8], count: usize) -> &'b [u8]
    requires { count ≤ length bytes.now }
    ensures { result.now ≡ drop count bytes.now }
{
    &bytes[count..]
}

// The body that these bytes are, in a framing; none where more have to come.
fn whole_body(alloc: Global, framing: Framing, bytes: &[u8]) -> Result<Option<Vec<u8>>, LogFault>
    ensures { IfOk result (λ found. IfSome found (λ body. IsBody framing bytes.now body.items)) }
{
    let mut decoder = Decoder::new(framing, &LIMITS);
    let mut trailers = [EMPTY_HEADER_SPAN; MOST_FIELDS];
    let mut body = Vec::new(alloc);
    let mut rest = bytes;
    'pieces: for _ in 0..u64::MAX {
        match decoder.decode(rest, &mut trailers) {
            Ok(Decoded::NeedMore(_)) => return Ok(None),
            Ok(Decoded::Data(span)) => {
                if body.extend_from_slice(span.of(rest)).is_err() {
                    return Err(LogFault::Unanswered);
                }
                rest = behind(rest, span.end);
            }
            Ok(Decoded::End { len, .. }) if len == rest.len() => return Ok(Some(body)),
            _ => return Err(LogFault::Unanswered),
        }
    }
    Err(LogFault::Unanswered)
}

/// The body of the answer of status 200 that these bytes are; none where more have to come.
///
/// # Errors
///
/// [`LogFault::Unanswered`]: it is no such answer, or more bytes came than it has.
pub(crate) fn whole_answer(alloc: Global, bytes: &[u8]) -> Result<Option<Vec<u8>>, LogFault>
    ensures { IfOk result (λ found. IfSome found (λ body. IsAnswer bytes.now body.items)) }
{
    let mut fields = [EMPTY_HEADER_SPAN; MOST_FIELDS];
    let head = match parse_response(bytes, &mut fields) {
        Ok(Status::Complete(head)) if head.code == 200 => head,
        Ok(Status::Partial) => return Ok(None),
        _ => return Err(LogFault::Unanswered),
    };
    let known = KnownFields::from_spans(bytes, &fields[..head.headers]);
    match response_framing(MethodKind::Other, 200, head.version, &known) {
        Ok(framing) => whole_body(alloc, framing, &bytes[head.len..]),
        Err(_) => Err(LogFault::Unanswered),
    }
}
