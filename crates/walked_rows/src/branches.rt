//! The rows of `branch`.
use crate::limits::MAX_COUNTED;
use crate::numbers::{number_at, whole_at};
use crate::statements::rows_shown;
use crate::stored_row::{RowsRead, StoredRow};
use message_records::{Account, Whole};
use posting_rules::LAST_BRANCH;
use sqlite::{Alter, Connection, Row, params};
use store_rows::{BRANCHES_FROM, TableFault};

/// A row of `branch`: 1..=`LAST_BRANCH`, how many accounts it has, 1..=`MAX_COUNTED`, and its balance,
/// whatever it is.
#[derive(Clone, Copy, PartialEq, Eq)]
pub struct StoredBranch {
    pub branch: Whole<1, LAST_BRANCH>,
    pub accounts: Whole<1, MAX_COUNTED>,
    pub balance: i64,
}

impl Default for StoredBranch {
    fn default() -> Self {
        StoredBranch {
            branch: Whole::new(1).unwrap(),
            accounts: Whole::new(1).unwrap(),
            balance: 0,
        }
    }
}

impl StoredRow for StoredBranch {
    ghost use Rattle.walked_rows.specs.Stored.{branch_kind};

    ghost kind = { branch_kind };

    fn of(row: &Row) -> Result<Self, TableFault> {
        Ok(StoredBranch {
            branch: whole_at(row, 0)?,
            accounts: whole_at(row, 1)?,
            balance: number_at(row, 2)?,
        })
    }

    fn seek<S: Alter>(conn: &mut Connection<S>, _of: Option<Account>, from: i64) -> RowsRead {
        rows_shown(conn, BRANCHES_FROM, params![from])
    }

    fn key(&self) -> u64 {
        self.branch.get()
    }
}
