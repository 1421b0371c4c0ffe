//! Rows in vectors, which are found by walking.
ghost use Rattle.std.specs.Prelude.{◌≡◌, ◌<◌, ◌≤◌, ◌+◌, ◌++◌, ◌∷◌, [], ℕ, vec_len, vec_capacity};
ghost use Rattle.posting_rules.specs.believed.LookUps.{kept_in, reference_in};
ghost use Rattle.posting_batch.specs.Judging.{reference_after};

use message_records::{Number, Reference, Teller};
use posting_rules::{Kept, Ordinal, ReferenceRow, RequestRow};

/// A row that comes with the opening of a branch.
pub(crate) trait NewRow {
    // The greatest number.
    ghost most: { ℕ };

    ghost row_of: { ℕ → Self };

    /// The row of a number, with a balance of zero.
    fn numbered(number: u64) -> Self
        requires above { 1 ≤ number }
        requires below { number ≤ most }
        ensures { result ≡ row_of number };
}

/// The reference of the decided request under an ordinal.
pub(crate) fn reference_at(rows: &[ReferenceRow], ordinal: u64) -> Option<Reference>
    ensures { result ≡ reference_in rows.now ordinal }
{
    rows.iter()
        .find(|row| row.ordinal.get() == ordinal)
        .map(|row| row.reference)
}

/// The request that is kept under a teller and a number, with its reference.
pub(crate) fn kept_at(
    rows: &[RequestRow],
    references: &[ReferenceRow],
    teller: Teller,
    number: Number,
) -> Option<Kept>
    ensures { result ≡ kept_in rows.now references.now teller number }
{
    rows.iter()
        .find(|row| row.teller == teller && row.number == number)
        .map(|row| row
            .decision
            .kept_with(reference_at(references, row.ordinal.get())))
}

/// Puts a row after the others, for which there is room, so that the push takes no memory and succeeds.
pub(crate) fn put<T: Drop>(rows: &mut Vec<T>, row: T)
    requires { vec_len rows.old < vec_capacity rows.old }
    ensures items { rows.new.items ≡ rows.old.items ++ row ∷ [] }
    ensures len { vec_len rows.new ≡ vec_len rows.old + 1 }
    ensures capacity { vec_capacity rows.old ≤ vec_capacity rows.new }
{
    let _ = rows.push(row);
}

/// Puts the reference of a decided request after the others, where it has one, for which there is room.
pub(crate) fn put_reference(
    rows: &mut Vec<ReferenceRow>,
    ordinal: Ordinal,
    reference: Option<Reference>,
)
    requires { vec_len rows.old < vec_capacity rows.old }
    ensures items { rows.new.items ≡ reference_after ordinal reference rows.old.items }
    ensures len { vec_len rows.new ≤ vec_len rows.old + 1 }
    ensures capacity { vec_capacity rows.old ≤ vec_capacity rows.new }
{
    if let Some(reference) = reference {
        put(rows, ReferenceRow { ordinal, reference });
    }
}
