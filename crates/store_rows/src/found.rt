//! A row that was asked for, as the value that it holds.
ghost use Rattle.store_rows.specs.Failures.{ReadsAnswer};
ghost use Rattle.store_rows.specs.TableAnswers.{Gives};
ghost use Rattle.store_rows.specs.believed.Readings.{Reading};

use crate::columns::cents_at;
use crate::fault::TableFault;
use message_records::{Cents, MAX_BALANCE};
use posting_rules::Rule;
use sqlite::{Error, Row};

/// The value that a row holds.
pub(crate) trait FromRow: Copy {
    /// What its columns are read as.
    ghost read: { Reading Self };

    /// Reads the columns.
    fn from_row(row: &Row) -> Result<Self, TableFault>
        ensures { Gives (read row.now) result };
}

/// The balance of a row that shows it alone.
impl FromRow for Cents {
    ghost use Rattle.store_rows.specs.believed.Readings.{balance_of};

    ghost read = { balance_of };

    fn from_row(row: &Row) -> Result<Self, TableFault> {
        cents_at(row, 0, Rule::Balance, MAX_BALANCE)
    }
}

/// The value of the row that a query answered, if it found one.
pub(crate) fn found<R: FromRow>(answer: Result<Row, Error>) -> Result<Option<R>, TableFault>
    ensures { ReadsAnswer R.read answer result }
{
    match answer {
        Ok(row) => Ok(Some(R::from_row(&row)?)),
        Err(Error::QueryReturnedNoRows) => Ok(None),
        Err(e) => Err(TableFault::Sqlite(e)),
    }
}
