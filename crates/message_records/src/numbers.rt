//! Whole numbers and amounts that are kept in their ranges.
ghost use Rattle.std.specs.Prelude.{◌≡◌, ◌≤◌, ◌≤ℤ◌, pos, neg_ℤ, nat_abs};
ghost use Rattle.message_records.specs.believed.Ranges.{whole_within, cents_within};

use crate::limits::{MAX_ACCOUNT, MAX_BALANCE, MAX_BRANCH, MAX_MOMENT, MAX_NUMBER, MAX_TELLER};
use std::fmt;
use std::marker::Model;

/// A whole number from `LEAST` to `MOST`.
#[derive(Clone, Copy, Debug, PartialEq, Eq, PartialOrd, Ord, Hash)]
pub struct Whole<const LEAST: u64, const MOST: u64> {
    value: u64,
}

/// The number of an account: 1..=`MAX_ACCOUNT`.
pub type Account = Whole<1, MAX_ACCOUNT>;

/// The number of a teller: 1..=`MAX_TELLER`.
pub type Teller = Whole<1, MAX_TELLER>;

/// The number of a branch: 1..=`MAX_BRANCH`.
pub type Branch = Whole<1, MAX_BRANCH>;

/// A teller's own number for a request: 1..=`MAX_NUMBER`.
pub type Number = Whole<1, MAX_NUMBER>;

/// A count of whole seconds since 1970-01-01T00:00:00Z: 0..=`MAX_MOMENT`, to the end of the year 9999.
pub type Moment = Whole<0, MAX_MOMENT>;

impl<const LEAST: u64, const MOST: u64> Model for Whole<LEAST, MOST> {
    ghost use Rattle.std.specs.Prelude.{ℕ, ◌≤◌};

    ghost Value = { ℕ };

    ghost view = { λ n. n.value };

    ghost invariant = { λ n. (LEAST ≤ n.value) × (n.value ≤ MOST) };

    ghost inverse = { λ n. record { value = n } };
}

impl<const LEAST: u64, const MOST: u64> Whole<LEAST, MOST> {
    /// The number; none where it is out of the range.
    #[must_use]
    pub fn new(value: u64) -> Option<Self>
        ensures { result ≡ whole_within LEAST MOST value }
    {
        if LEAST <= value && value <= MOST {
            Some(Whole { value })
        } else {
            None
        }
    }

    /// The number, within its range.
    #[must_use]
    pub fn get(self) -> u64
        ensures value { result ≡ self.entry }
        ensures least { LEAST ≤ result }
        ensures most { result ≤ MOST }
    {
        self.value
    }
}

/// The number in decimal digits.
impl<const LEAST: u64, const MOST: u64> fmt::Display for Whole<LEAST, MOST> {
    ghost use Rattle.std.specs.Prelude.{Some};
    ghost use Rattle.std.specs.Fmt.{decimal};

    ghost output = { λ n. Some (decimal n) };

    fn fmt<W: fmt::Write>(&self, f: &mut fmt::Formatter<W>) -> fmt::Result {
        let value = self.value;
        write!(f, "{value}")
    }
}

/// An amount of money in cents, within `MAX_BALANCE` of zero (TPC-B 1.2 asks for ten digits and a sign).
#[derive(Clone, Copy, Debug, PartialEq, Eq, PartialOrd, Ord, Hash)]
pub struct Cents {
    value: i64,
}

impl Model for Cents {
    ghost use Rattle.std.specs.Prelude.{ℤ, pos, neg_ℤ, ◌≤ℤ◌};
    ghost use Rattle.message_records.specs.declared.limits.TheConstants.{MAX_BALANCE};

    ghost Value = { ℤ };

    ghost view = { λ a. a.value };

    ghost invariant = { λ a. (neg_ℤ (pos MAX_BALANCE) ≤ℤ a.value) × (a.value ≤ℤ pos MAX_BALANCE) };

    ghost inverse = { λ z. record { value = z } };
}

impl Cents {
    // The greatest amount, and the least with the other sign.
    const LIMIT: i64 = MAX_BALANCE as i64;

    /// No money.
    #[must_use]
    pub fn zero() -> Self
        ensures { result ≡ pos 0 }
    {
        Cents { value: 0 }
    }

    /// The amount, in cents; none where it is further from zero than `MAX_BALANCE`.
    #[must_use]
    pub fn new(value: i64) -> Option<Self>
        ensures { result ≡ cents_within MAX_BALANCE value }
    {
        if -Self::LIMIT <= value && value <= Self::LIMIT {
            Some(Cents { value })
        } else {
            None
        }
    }

    /// The cents, within `MAX_BALANCE` of zero.
    #[must_use]
    pub fn get(self) -> i64
        ensures value { result ≡ self }
        ensures least { neg_ℤ (pos MAX_BALANCE) ≤ℤ result }
        ensures most { result ≤ℤ pos MAX_BALANCE }
    {
        self.value
    }
}

/// The amount in cents, with a minus where it is below zero.
impl fmt::Display for Cents {
    ghost use Rattle.std.specs.Prelude.{Some};
    ghost use Rattle.std.specs.Fmt.{signed_decimal};

    ghost output = { λ z. Some (signed_decimal z) };

    fn fmt<W: fmt::Write>(&self, f: &mut fmt::Formatter<W>) -> fmt::Result {
        let value = self.value;
        write!(f, "{value}")
    }
}
