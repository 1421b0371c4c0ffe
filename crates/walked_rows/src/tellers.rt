//! The rows of `teller`.
use crate::limits::LAST_TELLER;
use crate::numbers::{number_at, whole_at};
use crate::statements::rows_shown;
use crate::stored_row::{RowsRead, StoredRow};
use message_records::{Account, Whole};
use sqlite::{Alter, Connection, Row, params};
use store_rows::{TELLERS_FROM, TableFault};

/// A row of `teller`: 1..=`LAST_TELLER`, and its balance, whatever it is.
#[derive(Clone, Copy, PartialEq, Eq)]
pub struct StoredTeller {
    pub teller: Whole<1, LAST_TELLER>,
    pub balance: i64,
}

impl Default for StoredTeller {
    fn default() -> Self {
        StoredTeller {
            teller: Whole::new(1).unwrap(),
            balance: 0,
        }
    }
}

impl StoredRow for StoredTeller {
    ghost use Rattle.walked_rows.specs.Stored.{teller_kind};

    ghost kind = { teller_kind };

    fn of(row: &Row) -> Result<Self, TableFault> {
        Ok(StoredTeller {
            teller: whole_at(row, 0)?,
            balance: number_at(row, 1)?,
        })
    }

    fn seek<S: Alter>(conn: &mut Connection<S>, _of: Option<Account>, from: i64) -> RowsRead {
        rows_shown(conn, TELLERS_FROM, params![from])
    }

    fn key(&self) -> u64 {
        self.teller.get()
    }
}
