//! The rows of `closing`.
use crate::numbers::{number_at, whole_at};
use crate::statements::rows_shown;
use crate::stored_row::{RowsRead, StoredRow};
use message_records::{Account, Whole};
use posting_rules::LAST_KEY;
use sqlite::{Alter, Connection, Row, params};
use store_rows::{CLOSINGS_FROM, TableFault};

/// A row of `closing`: the key of the last of some numbers that closed books decided, 0..=`LAST_KEY`, and that of the
/// first, whatever it is.
#[derive(Clone, Copy, PartialEq, Eq)]
pub struct StoredClosing {
    pub last: Whole<0, LAST_KEY>,
    pub first: i64,
}

impl Default for StoredClosing {
    fn default() -> Self {
        StoredClosing {
            last: Whole::new(0).unwrap(),
            first: 0,
        }
    }
}

impl StoredRow for StoredClosing {
    ghost use Rattle.walked_rows.specs.StoredBeside.{closing_kind};

    ghost kind = { closing_kind };

    fn of(row: &Row) -> Result<Self, TableFault> {
        Ok(StoredClosing {
            last: whole_at(row, 0)?,
            first: number_at(row, 1)?,
        })
    }

    fn seek<S: Alter>(conn: &mut Connection<S>, _of: Option<Account>, from: i64) -> RowsRead {
        rows_shown(conn, CLOSINGS_FROM, params![from])
    }

    fn key(&self) -> u64 {
        self.last.get()
    }
}
