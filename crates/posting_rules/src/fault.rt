//! Why a counter refuses a call.
ghost use Rattle.std.specs.Prelude.{◌≡◌};
ghost use Rattle.posting_rules.specs.declared.fault.Fault.TheVariants.{Memory};
ghost use Rattle.posting_rules.specs.FaultTexts.{number_of_rule};

use std::alloc::{AllocError, AllocFailed};
use std::fmt;

/// A rule that every log's tables keep, and that the rows which were met break.
#[derive(Clone, Copy, Debug, PartialEq, Eq)]
pub enum Rule {
    /// `meta` has exactly one row, and the number of decided requests is within 0..=1,000,000,000,000.
    Meta,
    /// A teller has its branch, and a branch its ten tellers.
    Teller,
    /// A branch has just the accounts within its count.
    Account,
    /// A balance is within the limits, and that of an account isn't below the floor of its branch.
    Balance,
    /// A kept request is one that can be kept.
    Request,
    /// A value has its column's type, and a key, a count of accounts or a moment is in its range.
    Value,
    /// A key that a new row needs is free.
    Key,
    /// The floor of a branch is within -999,999,999,999..=0 cents.
    Floor,
    /// A reference is 20 bytes of printable ASCII.
    Reference,
    /// Closed numbers are numbers of one teller, and none of them is closed twice; or they are the seal.
    Closing,
}

impl Rule {
    /// The number of the rule: 1..=10.
    #[must_use]
    pub fn number(self) -> u8
        ensures { result ≡ number_of_rule self }
    {
        match self {
            Rule::Meta => 1,
            Rule::Teller => 2,
            Rule::Account => 3,
            Rule::Balance => 4,
            Rule::Request => 5,
            Rule::Value => 6,
            Rule::Key => 7,
            Rule::Floor => 8,
            Rule::Reference => 9,
            Rule::Closing => 10,
        }
    }
}

/// Why a counter refuses a call, and what holds after it.
#[derive(Clone, Copy, Debug, PartialEq, Eq)]
pub enum Fault {
    /// Memory was refused. The bank is unchanged, and can be used.
    Memory,
    /// The store failed in this call. The bank is down.
    Store,
    /// The bank went down earlier, and nothing was tried.
    Down,
    /// Rows were met that no log leads to. No table was changed, and the bank is down.
    Damaged(Rule),
}

/// A text of a line, as `store fault` and `damaged rule 3`.
impl fmt::Display for Fault {
    ghost use Rattle.std.specs.Prelude.{Some};
    ghost use Rattle.posting_rules.specs.FaultTexts.{fault_text};

    ghost output = { λ fault. Some (fault_text fault) };

    fn fmt<W: fmt::Write>(&self, f: &mut fmt::Formatter<W>) -> fmt::Result {
        let text = match self {
            Fault::Memory => "no memory",
            Fault::Store => "store fault",
            Fault::Down => "down",
            Fault::Damaged(rule) => {
                let number = rule.number();
                return write!(f, "damaged rule {number}");
            }
        };
        f.write_str(text)
    }
}

impl std::error::Error for Fault {}

impl From<AllocError> for Fault {
    ghost from_gives = { λ _ fault. fault ≡ Memory };

    fn from(_: AllocError) -> Self {
        Fault::Memory
    }
}

impl<T: Drop> From<AllocFailed<T>> for Fault {
    ghost from_gives = { λ _ fault. fault ≡ Memory };

    fn from(_: AllocFailed<T>) -> Self {
        Fault::Memory
    }
}
