//! The rows of `history`.
use crate::numbers::{number_at, whole_at};
use crate::statements::rows_shown;
use crate::stored_row::{RowsRead, StoredRow};
use message_records::{Account, Moment, Whole};
use posting_rules::Ordinal;
use sqlite::{Alter, Connection, Row, params};
use store_rows::{POSTINGS_FROM, POSTINGS_OF, TableFault};

/// A row of `history`: the ordinal of its request and its moment within their ranges, and the other numbers,
/// whatever they are.
#[derive(Clone, Copy, PartialEq, Eq)]
pub struct StoredPosting {
    pub ordinal: Ordinal,
    pub account: i64,
    pub teller: i64,
    pub branch: i64,
    pub delta: i64,
    pub moment: Moment,
}

impl Default for StoredPosting {
    fn default() -> Self {
        StoredPosting {
            ordinal: Whole::new(1).unwrap(),
            account: 0,
            teller: 0,
            branch: 0,
            delta: 0,
            moment: Whole::new(1).unwrap(),
        }
    }
}

impl StoredRow for StoredPosting {
    ghost use Rattle.walked_rows.specs.Stored.{posting_kind};

    ghost kind = { posting_kind };

    fn of(row: &Row) -> Result<Self, TableFault> {
        Ok(StoredPosting {
            ordinal: whole_at(row, 0)?,
            account: number_at(row, 1)?,
            teller: number_at(row, 2)?,
            branch: number_at(row, 3)?,
            delta: number_at(row, 4)?,
            moment: whole_at(row, 5)?,
        })
    }

    fn seek<S: Alter>(conn: &mut Connection<S>, of: Option<Account>, from: i64) -> RowsRead {
        match of {
            None => rows_shown(conn, POSTINGS_FROM, params![from]),
            Some(account) => {
                let account = account.get() as i64;
                rows_shown(conn, POSTINGS_OF, params![account, from])
            }
        }
    }

    fn key(&self) -> u64 {
        self.ordinal.get()
    }
}
