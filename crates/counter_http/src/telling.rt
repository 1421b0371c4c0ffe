//! The bytes of an answer, which leave in one write where they are few: a client then waits for one packet.
ghost use Rattle.std.specs.Prelude.{◌≡◌, ◌++◌, ℕ, List, [], Option, length, take, OnOk};
ghost use Rattle.std.specs.Io.KnownBytes.{Appends};
ghost use Rattle.posting_core.specs.EndCalls.{WriteCall};
ghost use Rattle.counter_http.specs.believed.Answers.{answer_text};
ghost use Rattle.counter_http.specs.Ends.{HasSent, HasTaken};
ghost use Rattle.counter_http.specs.Telling.{IsWrittenOrHeld, said, first_lines, last_lines};

use arrayvec::ArrayVec;
use http::StatusCode;
use posting_core::Sink;
use posting_core::transfer::{WriteFailed, write_each, write_out};

// How many bytes are held before they are written: more than a head and a reply have together.
const HELD: usize = 512;

/// What is answered.
#[derive(Clone, Copy)]
pub(crate) struct Response<'a> {
    pub status: StatusCode,
    pub media: &'a [u8],
    /// The methods that the route takes, where they are listed.
    pub allow: Option<&'a [u8]>,
    pub body: &'a [u8],
}

// Tells more of a text, where the writer took all of it so far, and answers whether it still does. What has
// no room is written at once, after what was held.
fn put<W: Sink>(writer: &mut W, held: &mut ArrayVec<u8, HELD>, going: bool, bytes: &[u8]) -> bool
    ensures text { (before : Option (List ℕ)) (text : List ℕ) → IsWrittenOrHeld before
        (W.contents writer.old) going held.old.items text
        → IsWrittenOrHeld before (W.contents writer.new) result held.new.items (text ++ bytes.now) }
    ensures ends { (before : Option (List WriteCall)) → HasTaken going before (W.calls writer.old)
        → HasTaken result before (W.calls writer.new) }
{
    if !going {
        return false;
    }
    if held.try_extend_from_slice(bytes).is_ok() {
        return true;
    }
    if write_each(writer, held.as_slice()).is_err() {
        return false;
    }
    held.clear();
    write_each(writer, bytes).is_ok()
}

// Tells the lines before a body's length.
fn put_first<W: Sink>(
    writer: &mut W,
    held: &mut ArrayVec<u8, HELD>,
    response: &Response<'_>,
) -> bool
    requires { held.old.items ≡ [] }
    ensures text { IsWrittenOrHeld (W.contents writer.old) (W.contents writer.new) result held.new.items
        (first_lines
        (said response.now)) }
    ensures ends { HasTaken result (W.calls writer.old) (W.calls writer.new) }
{
    let going = put(writer, held, true, b"HTTP/1.1 ");
    let going = put(writer, held, going, response.status.as_str().as_bytes());
    let going = put(writer, held, going, b" ");
    let phrase = response.status.canonical_reason().unwrap_or("");
    let going = put(writer, held, going, phrase.as_bytes());
    let going = put(writer, held, going, b"\r\nContent-Type: ");
    let going = put(writer, held, going, response.media);
    put(writer, held, going, b"\r\nContent-Length: ")
}

// Tells the lines after a body's length, where the writer took all before them.
fn put_last<W: Sink>(
    writer: &mut W,
    held: &mut ArrayVec<u8, HELD>,
    going: bool,
    response: &Response<'_>,
    closes: bool,
) -> bool
    ensures text { (before : Option (List ℕ)) (text : List ℕ) → IsWrittenOrHeld before
        (W.contents writer.old) going held.old.items text
        → IsWrittenOrHeld before (W.contents writer.new) result held.new.items (text
        ++ last_lines (said response.now) closes) }
    ensures ends { (before : Option (List WriteCall)) → HasTaken going before (W.calls writer.old)
        → HasTaken result before (W.calls writer.new) }
{
    let going = put(writer, held, going, b"\r\n");
    let going = match response.allow {
        Some(methods) => {
            let going = put(writer, held, going, b"Allow: ");
            let going = put(writer, held, going, methods);
            put(writer, held, going, b"\r\n")
        }
        None => going,
    };
    let going = if closes {
        put(writer, held, going, b"Connection: close\r\n")
    } else {
        going
    };
    put(writer, held, going, b"\r\n")
}

// Sends what is held, where the writer took all before it, and flushes it.
fn send<W: Sink>(writer: &mut W, held: &ArrayVec<u8, HELD>, going: bool) -> Result<(), WriteFailed>
    ensures text { (before : Option (List ℕ)) (text : List ℕ) → IsWrittenOrHeld before
        (W.contents writer.old) going held.now.items text
        → (n : ℕ) × Appends before (W.contents writer.new) (take n text) × OnOk result (n ≡ length text) }
    ensures ends { (before : Option (List WriteCall)) → HasTaken going before (W.calls writer.old)
        → HasSent result before (W.calls writer.new) }
{
    if !going {
        return Err(WriteFailed);
    }
    write_out(writer, held.as_slice())
}

/// Writes an answer, with its body or without, after which the connection ends or goes on, and flushes it.
pub(crate) fn tell<W: Sink>(
    writer: &mut W,
    response: &Response<'_>,
    shows_body: bool,
    closes: bool,
) -> Result<(), WriteFailed>
    ensures written { (n : ℕ) × Appends (W.contents writer.old) (W.contents writer.new) (take n (answer_text
        (said response.now) shows_body closes))
        × OnOk result (n ≡ length (answer_text (said response.now) shows_body closes)) }
    ensures ends { HasSent result (W.calls writer.old) (W.calls writer.new) }
{
    let mut held = ArrayVec::new();
    let going = put_first(writer, &mut held, response);
    let mut digits = itoa::Buffer::new();
    let length = digits.format(response.body.len());
    let going = put(writer, &mut held, going, length.as_bytes());
    let going = put_last(writer, &mut held, going, response, closes);
    let going = if shows_body {
        put(writer, &mut held, going, response.body)
    } else {
        going
    };
    send(writer, &held, going)
}
