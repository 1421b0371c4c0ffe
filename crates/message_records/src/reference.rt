//! What a request is referred to by.
ghost use Rattle.std.specs.Prelude.{◌≡◌, length, IsTrue};
ghost use Rattle.message_records.specs.believed.Records.{is_printable, reference_from};

use crate::limits::REFERENCE_BYTES;
use std::marker::Model;

/// What a request is referred to by: [`REFERENCE_BYTES`] bytes of printable ASCII, from the space to `~`. All
/// spaces are a reference too.
#[derive(Clone, Copy, Debug, PartialEq, Eq)]
pub struct Reference {
    text: [u8; REFERENCE_BYTES],
}

impl Model for Reference {
    ghost use Rattle.std.specs.Prelude.{ℕ, List, ◌≡◌, length, IsTrue};
    ghost use Rattle.message_records.specs.declared.limits.TheConstants.{REFERENCE_BYTES};
    ghost use Rattle.message_records.specs.believed.Records.{is_printable};

    ghost Value = { List ℕ };

    ghost view = { λ r. r.text };

    ghost invariant = { λ r. (length r.text ≡ REFERENCE_BYTES) × IsTrue (is_printable r.text) };

    ghost inverse = { λ text. record { text = text } };
}

impl Reference {
    /// The reference that the bytes are; none where they aren't so many, or one of them isn't printable.
    #[must_use]
    pub fn new(text: &[u8]) -> Option<Self>
        ensures { result ≡ reference_from text.now }
    {
        if text.len() != REFERENCE_BYTES || !is_printable(text) {
            return None;
        }
        let mut bytes = [b' '; REFERENCE_BYTES];
        bytes.copy_from_slice(text);
        Some(Reference { text: bytes })
    }

    /// Its bytes.
    #[must_use]
    pub fn text(&self) -> &[u8; REFERENCE_BYTES]
        ensures value { result.now ≡ self.now }
        ensures len { length result.now ≡ REFERENCE_BYTES }
        ensures printable { IsTrue (is_printable result.now) }
    {
        &self.text
    }
}

// Tests whether each byte is printable ASCII.
fn is_printable(text: &[u8]) -> bool
    ensures { result ≡ is_printable text.now }
{
    for byte in text {
        if !(b' '..=b'~').contains(byte) {
            return false;
        }
    }
    true
}
