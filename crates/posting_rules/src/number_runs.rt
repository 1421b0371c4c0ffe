//! Numbers of tellers by their keys, as runs that don't touch. The function `first_runs` of `counter_tests`, which a test
//! runs, brings together the keys 7, 8, 3 and 8, and returns the first number that they have and the run from 7 to 8
//! hasn't, which is 3:
//!
//! ```rust
//! use posting_rules::{ClosingRow, NumberRuns};
//! use std::alloc::{AllocError, Global};
//!
//! pub fn first_runs(alloc: Global) -> Result<Option<u64>, AllocError> {
//!     let mut used = Vec::new(alloc);
//!     for key in [7, 8, 3, 8] {
//!         used.push(ClosingRow {
//!             last: key,
//!             first: key,
//!         })?;
//!     }
//!     let mut closed = Vec::new(alloc);
//!     closed.push(ClosingRow { last: 8, first: 7 })?;
//!     let used = NumberRuns::of(alloc, used)?;
//!     let closed = NumberRuns::of(alloc, closed)?;
//!     Ok(used.first_difference(&closed))
//! }
//! ```
ghost use Rattle.std.specs.Prelude.{◌≡◌, ◌<◌, true, ◌≤◌, ◌+◌, ◌++◌, ◌||◌, ℕ, List, Option, IfOk, IfSome, MatchOption, OnOk, []};
ghost use Rattle.std.specs.Prelude.{nat_le, slice_get};
ghost use Rattle.posting_rules.specs.declared.rows.ClosingRow.{ClosingRow as Run};
ghost use Rattle.posting_rules.specs.believed.Closings.{books_of, is_closed_in, meets};
ghost use Rattle.posting_rules.specs.Numbers.{BeginsBy, ComesAfter, DifferAt, NextAbove, NoneAbove, RiseFrom, SameNumbers, apart_at, as_list};

use crate::judgments::Books;
use crate::numbering::number_key;
use crate::rows::ClosingRow;
use message_records::{Number, Teller};
use std::alloc::{AllocError, Global};
use std::marker::Model;

/// Numbers of tellers by their keys: runs by rising keys, between two of which lies a number that none has. So the same
/// numbers are always the same runs.
#[derive(Drop)]
pub struct NumberRuns {
    runs: Vec<ClosingRow>,
}

impl Model for NumberRuns {
    ghost Value = { List Run };

    ghost view = { λ numbers. numbers.runs.items };

    ghost invariant = { λ numbers. RiseFrom 0 numbers.runs.items };
}

// Runs that are done, and one after them that the next may still make longer.
#[derive(Drop)]
struct Joining {
    done: Vec<ClosingRow>,
    longer: Option<ClosingRow>,
}

// Tests whether a run that begins no earlier than another one overlaps it, or begins right after it.
fn touches(run: &ClosingRow, next: &ClosingRow) -> bool
    ensures { result ≡ nat_le next.now.first (run.now.last + 1) }
{
    next.first <= run.last || next.first - run.last == 1
}

impl Joining {
    // None yet.
    fn none(alloc: Global) -> Joining
        ensures done { ComesAfter result.done.items result.longer }
        ensures none { result.done.items ++ as_list result.longer ≡ [] }
    {
        Joining {
            done: Vec::new(alloc),
            longer: None,
        }
    }

    // Adds the numbers of the next run, which begins no earlier.
    fn add(&mut self, next: ClosingRow) -> Result<(), AllocError>
        requires done { ComesAfter self.old.done.items self.old.longer }
        requires order { BeginsBy next.first self.old.longer }
        ensures done { OnOk result (ComesAfter self.new.done.items self.new.longer) }
        ensures order { OnOk result (BeginsBy next.first self.new.longer) }
        ensures numbers { OnOk result ((x : ℕ) → is_closed_in (self.new.done.items ++ as_list self.new.longer) x
            ≡ (is_closed_in (self.old.done.items ++ as_list self.old.longer) x || meets x x next)) }
    {
        if next.last < next.first {
            return Ok(());
        }
        let Some(run) = self.longer else {
            self.longer = Some(next);
            return Ok(());
        };
        if touches(&run, &next) {
            self.longer = Some(ClosingRow {
                last: run.last.max(next.last),
                first: run.first,
            });
            return Ok(());
        }
        self.done.push(run)?;
        self.longer = Some(next);
        Ok(())
    }

    // All of them.
    fn finish(self) -> Result<NumberRuns, AllocError>
        requires { ComesAfter self.done.items self.longer }
        ensures { IfOk result (λ numbers. numbers ≡ self.done.items ++ as_list self.longer) }
    {
        let Joining { mut done, longer } = self;
        let Some(run) = longer else {
            return Ok(NumberRuns { runs: done });
        };
        done.push(run)?;
        Ok(NumberRuns { runs: done })
    }
}

// The run at a place, if there is one.
fn run_at(runs: &[ClosingRow], place: usize) -> Option<ClosingRow>
    ensures { result ≡ slice_get runs.now place }
{
    runs.get(place).copied()
}

// A number that one of two runs has and the other hasn't, where they begin together or nothing before does.
fn apart_at(one: Option<ClosingRow>, other: Option<ClosingRow>) -> Option<u64>
    ensures { result ≡ apart_at one other }
{
    match (one, other) {
        (Some(one), Some(other)) => {
            if one.first != other.first {
                Some(one.first.min(other.first))
            } else if one.last < other.last {
                Some(one.last + 1)
            } else if other.last < one.last {
                Some(other.last + 1)
            } else {
                None
            }
        }
        (Some(run), None) | (None, Some(run)) => Some(run.first),
        (None, None) => None,
    }
}

impl NumberRuns {
    /// The numbers of these runs, which come in whatever order and may overlap. One whose first number is above its last
    /// has none. It takes memory for as many runs once more.
    pub fn of(alloc: Global, runs: Vec<ClosingRow>) -> Result<NumberRuns, AllocError>
        ensures { IfOk result (λ numbers. SameNumbers numbers runs.items) }
    {
        let mut runs = runs;
        runs.sort_unstable_by_key(|run| run.first);
        let mut joining = Joining::none(alloc);
        for run in &runs {
            joining.add(*run)?;
        }
        joining.finish()
    }

    /// Tests whether it has the number of a key.
    #[must_use]
    pub fn has(&self, key: u64) -> bool
        ensures { result ≡ is_closed_in self.now key }
    {
        let place = self.runs.partition_point(|run| run.last < key);
        match run_at(&self.runs, place) {
            Some(run) => run.first <= key,
            None => false,
        }
    }

    /// What closed books say of a teller's number, where these are the numbers that they decided.
    #[must_use]
    pub fn books(&self, teller: Teller, number: Number) -> Books
        ensures { result ≡ books_of self.now teller number }
    {
        if self.has(number_key(teller, number)) {
            Books::Closed
        } else if self.has(0) {
            Books::Sealed
        } else {
            Books::Current
        }
    }

    /// The least number that it has above a key, if there is one.
    #[must_use]
    pub fn next_above(&self, key: u64) -> Option<u64>
        ensures { MatchOption result (NoneAbove self.now key) (NextAbove self.now key) }
    {
        let place = self.runs.partition_point(|run| run.last <= key);
        let run = run_at(&self.runs, place)?;
        if run.first > key {
            return Some(run.first);
        }
        match key.checked_add(1) {
            Some(next) => Some(next),
            None => None,
        }
    }

    /// The first number that one of them has and the other hasn't, if there is one.
    pub fn first_difference(&self, other: &NumberRuns) -> Option<u64>
        ensures { MatchOption result (SameNumbers self.now other.now) (DifferAt self.now other.now) }
    {
        let (one, two) = (self.runs.as_slice(), other.runs.as_slice());
        let most = one.len().max(two.len());
        for place in 0..most {
            match apart_at(run_at(one, place), run_at(two, place)) {
                Some(number) => return Some(number),
                None => {}
            }
        }
        None
    }
}
