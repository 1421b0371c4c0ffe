//! The rows of `request_reference`.
use crate::numbers::whole_at;
use crate::references::reference_at;
use crate::statements::rows_shown;
use crate::stored_row::{RowsRead, StoredRow};
use message_records::{Account, REFERENCE_BYTES, Reference, Whole};
use posting_rules::Ordinal;
use sqlite::{Alter, Connection, Row, params};
use store_rows::{REFERENCES_FROM, TableFault};

/// A row of `request_reference`: the ordinal of its request within the range, and the reference.
#[derive(Clone, Copy, PartialEq, Eq)]
pub struct StoredReference {
    pub ordinal: Ordinal,
    pub reference: Reference,
}

impl Default for StoredReference {
    fn default() -> Self {
        StoredReference {
            ordinal: Whole::new(1).unwrap(),
            reference: Reference::new(&[b' '; REFERENCE_BYTES]).unwrap(),
        }
    }
}

impl StoredRow for StoredReference {
    ghost use Rattle.walked_rows.specs.References.{reference_kind};

    ghost kind = { reference_kind };

    fn of(row: &Row) -> Result<Self, TableFault> {
        Ok(StoredReference {
            ordinal: whole_at(row, 0)?,
            reference: reference_at(row, 1)?,
        })
    }

    fn seek<S: Alter>(conn: &mut Connection<S>, _of: Option<Account>, from: i64) -> RowsRead {
        rows_shown(conn, REFERENCES_FROM, params![from])
    }

    fn key(&self) -> u64 {
        self.ordinal.get()
    }
}
