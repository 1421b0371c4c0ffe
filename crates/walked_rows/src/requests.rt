//! The rows of `request`.
use crate::numbers::{number_at, whole_at};
use crate::statements::rows_shown;
use crate::stored_row::{RowsRead, StoredRow};
use message_records::{Account, Whole};
use posting_rules::Ordinal;
use sqlite::{Alter, Connection, Row, params};
use store_rows::{REQUESTS_FROM, TableFault};

/// A row of `request`: its ordinal within the range, and the other numbers, whatever they are. The outcome is
/// a code.
#[derive(Clone, Copy, PartialEq, Eq)]
pub struct StoredRequest {
    pub ordinal: Ordinal,
    pub teller: i64,
    pub number: i64,
    pub account: i64,
    pub branch: i64,
    pub delta: i64,
    pub outcome: i64,
    pub balance: i64,
}

impl Default for StoredRequest {
    fn default() -> Self {
        StoredRequest {
            ordinal: Whole::new(1).unwrap(),
            teller: 0,
            number: 0,
            account: 0,
            branch: 0,
            delta: 0,
            outcome: 0,
            balance: 0,
        }
    }
}

impl StoredRow for StoredRequest {
    ghost use Rattle.walked_rows.specs.Stored.{request_kind};

    ghost kind = { request_kind };

    fn of(row: &Row) -> Result<Self, TableFault> {
        Ok(StoredRequest {
            ordinal: whole_at(row, 0)?,
            teller: number_at(row, 1)?,
            number: number_at(row, 2)?,
            account: number_at(row, 3)?,
            branch: number_at(row, 4)?,
            delta: number_at(row, 5)?,
            outcome: number_at(row, 6)?,
            balance: number_at(row, 7)?,
        })
    }

    fn seek<S: Alter>(conn: &mut Connection<S>, _of: Option<Account>, from: i64) -> RowsRead {
        rows_shown(conn, REQUESTS_FROM, params![from])
    }

    fn key(&self) -> u64 {
        self.ordinal.get()
    }
}
