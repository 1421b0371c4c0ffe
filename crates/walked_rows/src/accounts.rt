//! The rows of `account`.
use crate::limits::LAST_ACCOUNT;
use crate::numbers::{number_at, whole_at};
use crate::statements::rows_shown;
use crate::stored_row::{RowsRead, StoredRow};
use message_records::{Account, Whole};
use sqlite::{Alter, Connection, Row, params};
use store_rows::{ACCOUNTS_FROM, TableFault};

/// A row of `account`: 1..=`LAST_ACCOUNT`, and its balance, whatever it is.
#[derive(Clone, Copy, PartialEq, Eq)]
pub struct StoredAccount {
    pub account: Whole<1, LAST_ACCOUNT>,
    pub balance: i64,
}

impl Default for StoredAccount {
    fn default() -> Self {
        StoredAccount {
            account: Whole::new(1).unwrap(),
            balance: 0,
        }
    }
}

impl StoredRow for StoredAccount {
    ghost use Rattle.walked_rows.specs.Stored.{account_kind};

    ghost kind = { account_kind };

    fn of(row: &Row) -> Result<Self, TableFault> {
        Ok(StoredAccount {
            account: whole_at(row, 0)?,
            balance: number_at(row, 1)?,
        })
    }

    fn seek<S: Alter>(conn: &mut Connection<S>, _of: Option<Account>, from: i64) -> RowsRead {
        rows_shown(conn, ACCOUNTS_FROM, params![from])
    }

    fn key(&self) -> u64 {
        self.account.get()
    }
}
