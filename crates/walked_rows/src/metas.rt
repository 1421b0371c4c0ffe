//! The rows of `meta`.
use crate::numbers::{number_at, whole_at};
use crate::statements::rows_shown;
use crate::stored_row::{RowsRead, StoredRow};
use message_records::{Account, Whole};
use sqlite::{Alter, Connection, Row, params};
use store_rows::{METAS_FROM, TableFault};

/// A row of `meta`, whose id is 1: the version of the tables, and how many requests are decided, whatever
/// they are.
#[derive(Clone, Copy, PartialEq, Eq)]
pub struct StoredMeta {
    pub id: Whole<1, 1>,
    pub version: i64,
    pub decided: i64,
}

impl Default for StoredMeta {
    fn default() -> Self {
        StoredMeta {
            id: Whole::new(1).unwrap(),
            version: 0,
            decided: 0,
        }
    }
}

impl StoredRow for StoredMeta {
    ghost use Rattle.walked_rows.specs.StoredBeside.{meta_kind};

    ghost kind = { meta_kind };

    fn of(row: &Row) -> Result<Self, TableFault> {
        Ok(StoredMeta {
            id: whole_at(row, 0)?,
            version: number_at(row, 1)?,
            decided: number_at(row, 2)?,
        })
    }

    fn seek<S: Alter>(conn: &mut Connection<S>, _of: Option<Account>, from: i64) -> RowsRead {
        rows_shown(conn, METAS_FROM, params![from])
    }

    fn key(&self) -> u64 {
        self.id.get()
    }
}
