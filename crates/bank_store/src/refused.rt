//! Why no bank is made or found over a connection.
ghost use Rattle.std.specs.Prelude.{◌≡◌};
ghost use Rattle.bank_store.specs.OpenFaults.{of_the_store, unmade_by, unmoved_by, unread_by, IsUnmade, RowIsUnread};

use posting_rules::{OpenFault, Rule};
use sqlite::{Alter, Connection, Error, ErrorCode};
use std::fmt;
use store_rows::TableFault;

/// The connection in which no bank was made or found, and why.
pub struct Refused<S: Alter> {
    /// Why.
    pub fault: OpenFault,
    /// The connection, outside a transaction. It shows what it showed before, as long as its store is open.
    pub conn: Connection<S>,
}

/// Why; the connection is left out.
impl<S: Alter> fmt::Debug for Refused<S> {
    fn fmt<W: fmt::Write>(&self, f: &mut fmt::Formatter<W>) -> fmt::Result {
        f.debug_struct("Refused")
            .field("fault", &self.fault)
            .finish_non_exhaustive()
    }
}

// Whether the error is the store's own, so that it says nothing of what the file has.
fn is_of_the_store(e: &Error) -> bool
    ensures { result ≡ of_the_store e.now }
{
    matches!(
        e,
        Error::SqliteFailure(
            ErrorCode::OutOfMemory
                | ErrorCode::SystemIoFailure
                | ErrorCode::DatabaseCorrupt
                | ErrorCode::DiskFull
                | ErrorCode::TooBig
                | ErrorCode::SchemaTooBig
                | ErrorCode::Closed
                | ErrorCode::OperationInterrupted
        )
    )
}

/// The fault for an error that came while the tables were made: `Store` or `NotBlank`.
pub(crate) fn unmade(e: &Error) -> OpenFault
    ensures answers { result ≡ unmade_by e.now }
    ensures fault { IsUnmade result }
{
    if is_of_the_store(e) {
        OpenFault::Store
    } else {
        OpenFault::NotBlank
    }
}

/// The fault for an error that came while a table was made that an earlier version lacks: `Store` or `Foreign`.
pub(crate) fn unmoved(e: &Error) -> OpenFault
    ensures { result ≡ unmoved_by e.now }
{
    if is_of_the_store(e) {
        OpenFault::Store
    } else {
        OpenFault::Foreign
    }
}

/// The fault for an error that came while the row of the bank was read: `Store` or `Damaged(Rule::Value)`.
pub(crate) fn unread(e: &TableFault) -> OpenFault
    ensures answers { result ≡ unread_by e.now }
    ensures fault { RowIsUnread result }
{
    match e {
        TableFault::Damaged(_) => OpenFault::Damaged(Rule::Value),
        TableFault::Sqlite(_) => OpenFault::Store,
    }
}
