//! Why a call on the tables fails.
ghost use Rattle.std.specs.Prelude.{◌≡◌};
ghost use Rattle.sql_meanings.specs.believed.StatementAnswers.{is_taken_key as says_taken};
ghost use Rattle.store_rows.specs.Faults.{added as told_as};
ghost use Rattle.store_rows.specs.declared.fault.TableFault.TheVariants.{Sqlite};

use posting_rules::Rule;
use sqlite::{Constraint, Error, ErrorCode};
use std::fmt;

/// Why a call on the tables fails.
#[derive(Clone, Copy, Debug, PartialEq, Eq)]
pub enum TableFault {
    /// A call of `sqlite` answered this error.
    Sqlite(Error),
    /// A stored value is outside what its type holds, or the key of a new row is taken. Nothing was changed.
    Damaged(Rule),
}

impl From<Error> for TableFault {
    ghost from_gives = { λ e fault. fault ≡ Sqlite e };

    fn from(e: Error) -> Self {
        TableFault::Sqlite(e)
    }
}

impl fmt::Display for TableFault {
    ghost use Rattle.store_rows.specs.Faults.{fault_text};

    // What `sqlite` prints of its own errors is not stated there, and so not here.
    ghost output = { fault_text };

    fn fmt<W: fmt::Write>(&self, f: &mut fmt::Formatter<W>) -> fmt::Result {
        match self {
            TableFault::Sqlite(e) => write!(f, "sqlite: {e}"),
            TableFault::Damaged(rule) => {
                let number = rule.number();
                write!(f, "damaged rule {number}")
            }
        }
    }
}

impl std::error::Error for TableFault {}

// Whether the error says that a key is taken.
fn is_taken_key(e: &Error) -> bool
    ensures { result ≡ says_taken e.now }
{
    matches!(
        e,
        Error::SqliteFailure(ErrorCode::ConstraintViolation(Constraint::PrimaryKey))
    )
}

// What the answer of an INSERT means.
pub(crate) fn added(answer: Result<usize, Error>) -> Result<(), TableFault>
    ensures { result ≡ told_as answer }
{
    match answer {
        Ok(_) => Ok(()),
        Err(e) if is_taken_key(&e) => Err(TableFault::Damaged(Rule::Key)),
        Err(e) => Err(TableFault::Sqlite(e)),
    }
}
