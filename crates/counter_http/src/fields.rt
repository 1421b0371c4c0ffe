//! What the fields of a head say of the body's length and of the connection.
ghost use Rattle.std.specs.Prelude.{◌≡◌, ◌≤◌, ◌==◌, All, length, map, codes, IfSome};
ghost use Rattle.httparse.specs.Grammar.{is_ows, trim_ows};
ghost use Rattle.httparse.specs.Spans.{IsHeaderWithin, header_bytes};
ghost use Rattle.counter_http.specs.believed.Fields.{stated_length, body_length, is_alike, is_close, has_close};
ghost use Rattle.counter_http.specs.believed.Fields.{asks_to_close};

use crate::limits::MAX_BODY;
use httparse::spans::HeaderSpan;

// Two texts are the same but for the case of their ASCII letters.
fn are_alike(text: &[u8], other: &[u8]) -> bool
    ensures { result ≡ is_alike text.now other.now }
{
    text.eq_ignore_ascii_case(other)
}

// The number that the digits write, none where they aren't digits or the number is too large.
fn length_stated(digits: &[u8]) -> Option<usize>
    ensures { result ≡ stated_length digits.now }
{
    let mut number = 0;
    for digit in digits {
        if !digit.is_ascii_digit() {
            return None;
        }
        number = (number * 10 + usize::from(*digit - b'0')).min(MAX_BODY + 1);
    }
    if digits.is_empty() || number > MAX_BODY {
        return None;
    }
    Some(number)
}

/// How long the body is, none where the fields can't say it or name another coding.
pub(crate) fn length_of_body(buf: &[u8], fields: &[HeaderSpan]) -> Option<usize>
    requires { All (IsHeaderWithin (length buf.now)) fields.now }
    ensures length { result ≡ body_length (map (header_bytes buf.now) fields.now) }
    ensures few { IfSome result (λ n. n ≤ MAX_BODY) }
{
    let mut stated = None;
    for field in fields {
        let name = field.name.of(buf);
        if are_alike(name, b"transfer-encoding") {
            return None;
        }
        if are_alike(name, b"content-length") {
            if stated.is_some() {
                return None;
            }
            stated = Some(length_stated(field.value.of(buf))?);
        }
    }
    Some(stated.unwrap_or(0))
}

// White space that may stand around a value.
fn is_white(byte: u8) -> bool
    ensures { result ≡ is_ows byte }
{
    byte == b' ' || byte == b'\t'
}

// The text without the spaces and tabs at both ends.
fn trimmed(text: &[u8]) -> &[u8]
    ensures { result.now ≡ trim_ows text.now }
{
    let mut start = 0;
    let mut end = text.len();
    while start < end && is_white(text[start]) {
        start += 1;
    }
    while start < end && is_white(text[end - 1]) {
        end -= 1;
    }
    &text[start..end]
}

// One of the parts between the commas is `close`.
fn lists_close(value: &[u8]) -> bool
    ensures { result ≡ has_close value.now }
{
    value
        .split(|byte| *byte == b',')
        .any(|part| are_alike(trimmed(part), b"close"))
}

/// Whether some field `Connection` asks for the connection to end.
pub(crate) fn ask_to_close(buf: &[u8], fields: &[HeaderSpan]) -> bool
    requires { All (IsHeaderWithin (length buf.now)) fields.now }
    ensures { result ≡ asks_to_close (map (header_bytes buf.now) fields.now) }
{
    for field in fields {
        if are_alike(field.name.of(buf), b"connection") && lists_close(field.value.of(buf)) {
            return true;
        }
    }
    false
}
