//! How a field begins, to be shown to whoever wrote it.
ghost use Rattle.std.specs.Prelude.{◌≡◌, ◌≤◌, List, length, min, nat_lt, take, ℕ};
ghost use Rattle.message_records.specs.believed.Spelling.{filled};
ghost use Rattle.message_records.specs.declared.limits.TheConstants.{REFERENCE_BYTES};
ghost use Rattle.posting_sheets.specs.SheetFaults.{field_start};

use message_records::REFERENCE_BYTES;

/// The first `REFERENCE_BYTES` bytes of a field, or all where it has fewer, and how many it has.
#[derive(Clone, Copy, Debug, PartialEq, Eq)]
pub struct FieldStart {
    bytes: [u8; REFERENCE_BYTES],
    length: usize,
}

// The text, filled with spaces.
pub(crate) fn filled(text: &[u8]) -> [u8; REFERENCE_BYTES]
    requires { length text.now ≤ REFERENCE_BYTES }
    ensures { result ≡ filled REFERENCE_BYTES text.now }
{
    let mut bytes = [b' '; REFERENCE_BYTES];
    bytes[..text.len()].copy_from_slice(text);
    bytes
}

impl FieldStart {
    /// How this field begins.
    #[must_use]
    pub fn of(field: &[u8]) -> FieldStart
        ensures { result ≡ field_start field.now }
    {
        FieldStart {
            bytes: filled(&field[..field.len().min(REFERENCE_BYTES)]),
            length: field.len(),
        }
    }

    /// Its first bytes.
    #[must_use]
    pub fn as_bytes(&self) -> &[u8]
        ensures { (field : List ℕ) → self.now ≡ field_start field → result.now ≡ take (min (length field) REFERENCE_BYTES) field }
    {
        &self.bytes[..self.length.min(REFERENCE_BYTES)]
    }

    /// Whether it goes on after them.
    #[must_use]
    pub fn goes_on(&self) -> bool
        ensures { (field : List ℕ) → self.now ≡ field_start field → result ≡ nat_lt REFERENCE_BYTES (length field) }
    {
        self.length > REFERENCE_BYTES
    }
}
