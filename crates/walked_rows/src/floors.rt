//! The rows of `branch_floor`.
use crate::numbers::{number_at, whole_at};
use crate::statements::rows_shown;
use crate::stored_row::{RowsRead, StoredRow};
use message_records::{Account, Whole};
use posting_rules::LAST_BRANCH;
use sqlite::{Alter, Connection, Row, params};
use store_rows::{FLOORS_FROM, TableFault};

/// A row of `branch_floor`: 1..=`LAST_BRANCH`, and the lowest balance that the accounts of the branch may
/// have, in cents, whatever it is.
#[derive(Clone, Copy, PartialEq, Eq)]
pub struct StoredFloor {
    pub branch: Whole<1, LAST_BRANCH>,
    pub lowest: i64,
}

impl Default for StoredFloor {
    fn default() -> Self {
        StoredFloor {
            branch: Whole::new(1).unwrap(),
            lowest: 0,
        }
    }
}

impl StoredRow for StoredFloor {
    ghost use Rattle.walked_rows.specs.StoredBeside.{floor_kind};

    ghost kind = { floor_kind };

    fn of(row: &Row) -> Result<Self, TableFault> {
        Ok(StoredFloor {
            branch: whole_at(row, 0)?,
            lowest: number_at(row, 1)?,
        })
    }

    fn seek<S: Alter>(conn: &mut Connection<S>, _of: Option<Account>, from: i64) -> RowsRead {
        rows_shown(conn, FLOORS_FROM, params![from])
    }

    fn key(&self) -> u64 {
        self.branch.get()
    }
}
