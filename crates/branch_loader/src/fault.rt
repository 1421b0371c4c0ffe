//! Why a source or a list is no plan.
use std::fmt;

/// Why a plan was refused: the first fault of its source. Rows count from 1 after the header. There is no
/// plan then, and nothing was opened.
#[derive(Clone, Copy, Debug, PartialEq, Eq)]
pub enum PlanFault {
    /// The first record isn't the header, or there is none.
    Header,
    /// The row hasn't as many fields as the header.
    Columns(u64),
    /// The row's branch isn't 1 to 9 digits with a value of 1..=`LAST_BRANCH`.
    Branch(u64),
    /// The row's count of accounts isn't 1 to 9 digits with a value of 1..=`MAX_ACCOUNTS`.
    Accounts(u64),
    /// The row's floor isn't empty, a zero of 1 to 12 digits, or `-` and 1 to 12 digits.
    Floor(u64),
    /// An earlier row names the row's branch.
    Twice(u64),
    /// The source failed.
    Csv,
    /// Memory was refused.
    Memory,
}

/// A text of a line, as `plan row 2 branch`.
impl fmt::Display for PlanFault {
    ghost use Rattle.std.specs.Prelude.{Some};
    ghost use Rattle.branch_loader.specs.Faults.{plan_text};

    ghost output = { λ fault. Some (plan_text fault) };

    fn fmt<W: fmt::Write>(&self, f: &mut fmt::Formatter<W>) -> fmt::Result {
        let (row, fault) = match self {
            PlanFault::Header => return write!(f, "plan header"),
            PlanFault::Columns(row) => (row, "columns"),
            PlanFault::Branch(row) => (row, "branch"),
            PlanFault::Accounts(row) => (row, "accounts"),
            PlanFault::Floor(row) => (row, "floor"),
            PlanFault::Twice(row) => (row, "twice"),
            PlanFault::Csv => return write!(f, "plan unreadable"),
            PlanFault::Memory => return write!(f, "no memory"),
        };
        write!(f, "plan row {row} {fault}")
    }
}

impl std::error::Error for PlanFault {}
