//! Numbers that closed books decided.
ghost use Rattle.std.specs.Prelude.{◌≡◌, ◌≤◌, Some, None, if◌then◌else◌};
ghost use Rattle.std.specs.List.{list_any};
ghost use Rattle.posting_rules.specs.believed.Closings.{books_of, is_closing, is_run, meets, run_of, seal};
ghost use Rattle.posting_rules.specs.Closings.{closing_for, covers};
ghost use Rattle.posting_rules.specs.believed.Commands.{IsRun, number_key};

use crate::judgments::Books;
use crate::limits::NUMBERS_PER_TELLER;
use crate::numbering::number_key;
use crate::rows::ClosingRow;
use message_records::{Number, Teller};

/// The answer to a closing of numbers, or to a seal.
#[derive(Clone, Copy, Debug, PartialEq, Eq)]
pub enum Closing {
    /// They are closed from now on.
    Closed,
    /// They were closed together before.
    Already,
    /// Some of them were closed before, and no more are closed now.
    Overlaps,
}

// Tests whether these are keys of two numbers of one teller, the first not above the last.
fn is_run(first: u64, last: u64) -> bool
    ensures { result ≡ is_run first last }
{
    first <= last
        && NUMBERS_PER_TELLER <= first
        && 0 < first % NUMBERS_PER_TELLER
        && first / NUMBERS_PER_TELLER == last / NUMBERS_PER_TELLER
}

impl ClosingRow {
    /// The row that seals the books.
    #[must_use]
    pub fn seal() -> Self
        ensures { result ≡ seal }
    {
        ClosingRow { last: 0, first: 0 }
    }

    /// The numbers between two keys, or the seal from 0 to 0; none where they are keys of different tellers, or in the
    /// wrong order, or no keys.
    #[must_use]
    pub fn of_keys(first: u64, last: u64) -> Option<Self>
        ensures { result ≡ if is_closing first last then Some (run_of first last) else None }
    {
        if (first == 0 && last == 0) || is_run(first, last) {
            Some(ClosingRow { last, first })
        } else {
            None
        }
    }

    /// The numbers of a teller from the first to the last.
    #[must_use]
    pub fn of_numbers(teller: Teller, first: Number, last: Number) -> Self
        requires { first ≤ last }
        ensures row { result ≡ run_of (number_key teller first) (number_key teller last) }
        ensures run { IsRun result.first result.last }
    {
        ClosingRow {
            last: number_key(teller, last),
            first: number_key(teller, first),
        }
    }

    // Tests whether it has a number between two keys.
    fn meets(&self, first: u64, last: u64) -> bool
        ensures { result ≡ meets first last self.now }
    {
        self.first <= last && first <= self.last
    }

    // Tests whether it has every number between two keys.
    fn covers(&self, first: u64, last: u64) -> bool
        ensures { result ≡ covers first last self.now }
    {
        self.first <= first && last <= self.last
    }
}

// Tests whether a run has a number between two keys.
fn any_meets(runs: &[ClosingRow], first: u64, last: u64) -> bool
    ensures { result ≡ list_any (meets first last) runs.now }
{
    runs.iter().any(|run| run.meets(first, last))
}

// Tests whether a run has every number between two keys.
fn any_covers(runs: &[ClosingRow], first: u64, last: u64) -> bool
    ensures { result ≡ list_any (covers first last) runs.now }
{
    runs.iter().any(|run| run.covers(first, last))
}

/// What closed books say of a teller's number.
#[must_use]
pub fn books_of(runs: &[ClosingRow], teller: Teller, number: Number) -> Books
    ensures { result ≡ books_of runs.now teller number }
{
    let key = number_key(teller, number);
    if any_meets(runs, key, key) {
        Books::Closed
    } else if any_meets(runs, 0, 0) {
        Books::Sealed
    } else {
        Books::Current
    }
}

/// What is answered to a closing of the numbers between two keys.
#[must_use]
pub fn closing_for(runs: &[ClosingRow], first: u64, last: u64) -> Closing
    ensures { result ≡ closing_for runs.now first last }
{
    if first <= last && !any_meets(runs, first, last) {
        Closing::Closed
    } else if any_covers(runs, first, last) {
        Closing::Already
    } else {
        Closing::Overlaps
    }
}
