//! Why no bank is made or found where its tables are kept.
ghost use Rattle.std.specs.Prelude.{◌≡◌};

use crate::fault::{Fault, Rule};
use std::fmt;

/// One of the tables of a bank.
#[derive(Clone, Copy, Debug, PartialEq, Eq)]
pub enum BankTable {
    Meta,
    Branch,
    Teller,
    Account,
    History,
    Request,
    Floor,
    Reference,
    Closing,
}

impl BankTable {
    ghost use Rattle.posting_rules.specs.FaultTexts.{name_of_table};

    /// Its name where the tables are kept.
    #[must_use]
    pub fn name(self) -> &'static str
        ensures { result.now ≡ name_of_table self }
    {
        match self {
            BankTable::Meta => "meta",
            BankTable::Branch => "branch",
            BankTable::Teller => "teller",
            BankTable::Account => "account",
            BankTable::History => "history",
            BankTable::Request => "request",
            BankTable::Floor => "branch_floor",
            BankTable::Reference => "request_reference",
            BankTable::Closing => "closing",
        }
    }
}

/// Why no bank is made where its tables are to be kept, or none is found there. `{}` writes it in a few words,
/// as `version 2` or `damaged rule 1`.
#[derive(Clone, Copy, Debug, PartialEq, Eq)]
pub enum OpenFault {
    /// The store failed: for memory, the disk, a size (also that of the schema) or a limit of steps. It says
    /// nothing of what the file has.
    Store,
    /// Where a bank is made: one of its tables is there, or a statement that makes one is refused.
    NotBlank,
    /// Where a bank is looked for, as all that follow: none of its tables is there.
    Blank,
    /// Some of its tables are there, and some aren't.
    Foreign,
    /// Its tables are there, and `meta` has this version, which isn't ours.
    Version(i64),
    /// Its tables are there, and this is the first that is defined otherwise than a bank makes it.
    OtherTable(BankTable),
    /// The row of `meta` is missing or its count of requests is out of range (`Rule::Meta`), or it has a
    /// value of another type (`Rule::Value`).
    Damaged(Rule),
}

impl fmt::Display for OpenFault {
    ghost use Rattle.std.specs.Prelude.{Some};
    ghost use Rattle.posting_rules.specs.FaultTexts.{open_text};

    ghost output = { λ fault. Some (open_text fault) };

    fn fmt<W: fmt::Write>(&self, f: &mut fmt::Formatter<W>) -> fmt::Result {
        let text = match self {
            OpenFault::Store => "store fault",
            OpenFault::NotBlank => "already a bank",
            OpenFault::Blank => "no bank",
            OpenFault::Foreign => "foreign tables",
            OpenFault::Version(version) => return write!(f, "version {version}"),
            OpenFault::OtherTable(table) => {
                let name = table.name();
                return write!(f, "table {name} is defined otherwise");
            }
            OpenFault::Damaged(rule) => {
                let fault = Fault::Damaged(*rule);
                return write!(f, "{fault}");
            }
        };
        f.write_str(text)
    }
}

impl std::error::Error for OpenFault {}
