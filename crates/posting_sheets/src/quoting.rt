//! A reference as a field of CSV.
ghost use Rattle.std.specs.Prelude.{◌≡◌, ◌≤◌, ◌<◌, ◌+◌, ◌*◌, ◌++◌, ◌∷◌, [], length, IsTrue};
ghost use Rattle.csv.specs.Writing.{default_writer, escaped, field_text, needs_quotes};
ghost use Rattle.message_records.specs.believed.Records.{is_printable};
ghost use Rattle.posting_sheets.specs.References.{reference_field, trimmed};
ghost use Rattle.posting_sheets.specs.declared.quoting.TheConstants.{REFERENCE_FIELD};

use arrayvec::ArrayString;
use message_records::{REFERENCE_BYTES, Reference};

/// The most that the field of a reference takes: each byte twice, and two quotes.
pub const REFERENCE_FIELD: usize = 2 * REFERENCE_BYTES + 2;

/// The field of a reference.
pub type ReferenceField = ArrayString<REFERENCE_FIELD>;

/// Appends a text of printable ASCII.
pub fn push_text<const SIZE: usize>(line: &mut ArrayString<SIZE>, text: &[u8])
    requires ascii { IsTrue (is_printable text.now) }
    requires room { length line.old.bytes + length text.now ≤ SIZE }
    ensures { line.new.bytes ≡ line.old.bytes ++ text.now }
{
    for byte in text {
        line.push(char::from(*byte));
    }
}

// A text without the spaces at its end.
fn trimmed(text: &[u8]) -> &[u8]
    requires { IsTrue (is_printable text.now) }
    ensures value { result.now ≡ trimmed text.now }
    ensures printable { IsTrue (is_printable result.now) }
    ensures len { length result.now ≤ length text.now }
{
    let mut len = text.len();
    'spaces: for _ in 0..text.len() {
        if text[len - 1] != b' ' {
            return &text[..len];
        }
        len -= 1;
    }
    &text[..0]
}

// Whether a field has a byte that calls for quotes.
fn needs_quotes(text: &[u8]) -> bool
    ensures { result ≡ needs_quotes default_writer text.now }
{
    for byte in text {
        if matches!(*byte, b',' | b'"' | b'\r' | b'\n') {
            return true;
        }
    }
    false
}

// Appends a byte; a quote twice.
#[tactic(auto, unfolding(csv::specs::Writing::escaped))]
fn push_escaped_byte(line: &mut ReferenceField, byte: u8)
    requires ascii { byte < 128 }
    requires room { length line.old.bytes + 2 ≤ REFERENCE_FIELD }
    ensures bytes { line.new.bytes ≡ line.old.bytes ++ escaped default_writer (byte ∷ []) }
    ensures len { length line.new.bytes ≤ length line.old.bytes + 2 }
{
    if byte == b'"' {
        line.push_str("\"\"");
    } else {
        line.push(char::from(byte));
    }
}

// Appends a text with each quote in it twice.
fn push_escaped(line: &mut ReferenceField, text: &[u8])
    requires ascii { IsTrue (is_printable text.now) }
    requires room { length line.old.bytes + 2 * length text.now ≤ REFERENCE_FIELD }
    ensures bytes { line.new.bytes ≡ line.old.bytes ++ escaped default_writer text.now }
    ensures len { length line.new.bytes ≤ length line.old.bytes + 2 * length text.now }
{
    for byte in text {
        push_escaped_byte(line, *byte);
    }
}

// Appends a text as a field, in quotes where it has to be.
fn push_field(line: &mut ReferenceField, text: &[u8])
    requires ascii { IsTrue (is_printable text.now) }
    requires room { length line.old.bytes + 2 * length text.now + 2 ≤ REFERENCE_FIELD }
    ensures bytes { line.new.bytes ≡ line.old.bytes ++ field_text default_writer text.now }
    ensures len { length line.new.bytes ≤ length line.old.bytes + 2 * length text.now + 2 }
{
    if needs_quotes(text) {
        line.push_str("\"");
        push_escaped(line, text);
        line.push_str("\"");
    } else {
        push_text(line, text);
    }
}

/// The field of a reference: empty where there is none, without the spaces at its end, and in quotes where it has a
/// comma or a quote.
#[must_use]
#[tactic(auto, unfolding(crate::specs::References::reference_field))]
pub fn reference_field(reference: &Option<Reference>) -> ReferenceField
    ensures { result.bytes ≡ reference_field reference.now }
{
    let mut field = ArrayString::new();
    if let Some(reference) = reference {
        push_field(&mut field, trimmed(reference.text()));
    }
    field
}
