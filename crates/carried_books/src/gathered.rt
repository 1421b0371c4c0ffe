//! Runs of numbers that are gathered from rows, one after another.
ghost use Rattle.std.specs.Prelude.{◌≡◌, ◌≤◌, ◌++◌, ◌||◌, ◌∷◌, [], pos, true, false, map, IfNone, IfOk, IfSome, OnOk};
ghost use Rattle.std.specs.List.{AllByRecursion};
ghost use Rattle.walked_rows.specs.Requests.{IsFrom};
ghost use Rattle.carried_books.specs.Gathered.{Gathers};
ghost use Rattle.carried_books.specs.Gathering.{HasNoNumber, has_seal, is_carried, number_in, run_in};
ghost use Rattle.posting_rules.specs.Numbers.{SameNumbers};

use message_records::{Branch, Number, Teller, Whole};
use posting_rules::{ClosingRow, NUMBERS_PER_TELLER, NumberRuns, branch_of_teller, number_key};
use std::alloc::{AllocError, Global};
use walked_rows::{StoredClosing, StoredRequest};

// The number, unless it is out of the range.
fn whole<const LEAST: u64, const MOST: u64>(number: i64) -> Option<Whole<LEAST, MOST>>
    ensures some { IfSome result (λ n. (number ≡ pos n) × (LEAST ≤ n) × (n ≤ MOST)) }
    ensures none { IfNone result (IsFrom LEAST MOST number → ⊥) }
{
    if number < 0 {
        return None;
    }
    Whole::new(number as u64)
}

/// The number of a kept request, as a run; none where the row is that of no request.
pub(crate) fn number_in(row: &StoredRequest) -> Option<ClosingRow>
    ensures some { IfSome result (λ run. run ≡ number_in row.now) }
    ensures none { IfNone result (HasNoNumber row.now) }
{
    let teller: Teller = whole(row.teller)?;
    let number: Number = whole(row.number)?;
    let key = number_key(teller, number);
    Some(ClosingRow {
        last: key,
        first: key,
    })
}

/// The keys of numbers in a row of closed ones.
pub(crate) fn run_in(row: &StoredClosing) -> ClosingRow
    ensures { result ≡ run_in row.now }
{
    if row.first < 0 {
        return ClosingRow { last: 0, first: 1 };
    }
    ClosingRow {
        last: row.last.get(),
        first: (row.first as u64).max(1),
    }
}

/// Tests whether the key 0 is in the row, which is the seal's.
pub(crate) fn has_seal(row: &StoredClosing) -> bool
    ensures { result ≡ has_seal row.now }
{
    row.first == 0
}

/// Runs of numbers that were gathered, in whatever order, and whether a row was the seal.
#[derive(Drop)]
pub(crate) struct Gathered {
    pub(crate) sealed: bool,
    pub(crate) runs: Vec<ClosingRow>,
}

/// Numbers that a bank has, and whether it is sealed.
#[derive(Drop)]
pub(crate) struct Used {
    pub(crate) sealed: bool,
    pub(crate) numbers: NumberRuns,
}

impl Gathered {
    /// None yet.
    pub(crate) fn none(alloc: Global) -> Gathered
        ensures sealed { result.sealed ≡ false }
        ensures runs { result.runs.items ≡ [] }
    {
        Gathered {
            sealed: false,
            runs: Vec::new(alloc),
        }
    }

    /// Adds a run, and whether its row is the seal.
    pub(crate) fn add(&mut self, run: ClosingRow, seal: bool) -> Result<(), AllocError>
        ensures { OnOk result (Gathers self.old self.new seal (run ∷ [])) }
    {
        self.runs.push(run)?;
        self.sealed = self.sealed || seal;
        Ok(())
    }

    /// The numbers of all runs.
    pub(crate) fn into_used(self, alloc: Global) -> Result<Used, AllocError>
        ensures sealed { IfOk result (λ used. used.sealed ≡ self.sealed) }
        ensures numbers { IfOk result (λ used. SameNumbers used.numbers self.runs.items) }
    {
        let Gathered { sealed, runs } = self;
        let numbers = NumberRuns::of(alloc, runs)?;
        Ok(Used { sealed, numbers })
    }
}

// Tests whether a kept number is of a teller of the desk, or was used.
fn is_carried(desk: Branch, used: &NumberRuns, run: &ClosingRow) -> bool
    ensures { result ≡ true → is_carried desk used.now run.now ≡ true }
{
    let of_desk = match Teller::new(run.first / NUMBERS_PER_TELLER) {
        Some(teller) => branch_of_teller(teller) == desk.get(),
        None => false,
    };
    of_desk || used.has(run.first)
}

/// The key of the first kept number that is neither of a teller of the desk, nor was used.
pub(crate) fn stray_number(desk: Branch, used: &NumberRuns, kept: &[ClosingRow]) -> Option<u64>
    ensures { IfNone result (AllByRecursion (λ run. is_carried desk used.now run ≡ true) kept.now) }
{
    for run in kept {
        if !is_carried(desk, used, run) {
            return Some(run.first);
        }
    }
    None
}
