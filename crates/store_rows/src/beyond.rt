//! Rows under ordinals beyond the count of requests.
ghost use Rattle.std.specs.Prelude.{◌≤◌, Ok};
ghost use Rattle.store_rows.specs.Beyond.{beyond};
ghost use Rattle.store_rows.specs.Calls.{LooksUp};
ghost use Rattle.store_rows.specs.declared.statements.TheConstants.{MAX_KEY};

use crate::fault::TableFault;
use crate::found::{FromRow, found};
use crate::statements::row_under;
use crate::texts::{NEXT_POSTING, NEXT_REFERENCE, NEXT_REQUEST};
use sqlite::{Alter, Row, Transaction};

/// A table whose rows stand under the ordinals of requests.
#[derive(Clone, Copy)]
pub enum Numbered {
    Requests,
    Postings,
    References,
}

/// That there is a row, whatever it holds.
impl FromRow for () {
    ghost use Rattle.std.specs.Prelude.{Ok};

    ghost read = { λ _. Ok tt };

    fn from_row(_row: &Row) -> Result<Self, TableFault> {
        Ok(())
    }
}

/// Whether a row of the table has an ordinal beyond this one.
pub fn find_beyond<S: Alter>(
    tx: &mut Transaction<'_, S>,
    table: Numbered,
    last: u64,
) -> Result<Option<()>, TableFault>
    requires { last ≤ MAX_KEY }
    ensures { LooksUp S.Store tx.old tx.new (beyond table last) (λ _. Ok tt) result }
{
    match table {
        Numbered::Requests => found(row_under(tx, NEXT_REQUEST, last)),
        Numbered::Postings => found(row_under(tx, NEXT_POSTING, last)),
        Numbered::References => found(row_under(tx, NEXT_REFERENCE, last)),
    }
}
