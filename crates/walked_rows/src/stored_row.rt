//! What a row of one table is, as it is stored.
ghost use Rattle.std.specs.Prelude.{◌≡◌, ◌≤◌, pos, List, IfErr, IfOk, MatchResult, filter, map, take};
ghost use Rattle.sqlite.specs.State.{HasCleanDisk};
ghost use Rattle.sqlite.specs.Held.{state};
ghost use Rattle.sql_meanings.specs.believed.Entries.{Entry};
ghost use Rattle.sql_meanings.specs.StatementAnswers.{IsStoreError};
ghost use Rattle.store_rows.specs.believed.Failures.{HasFailed};
ghost use Rattle.store_rows.specs.TableAnswers.{Gives};
ghost use Rattle.store_rows.specs.believed.SeveralRows.{given};
ghost use Rattle.walked_rows.specs.Kinds.{IsRow, Kind};
ghost use Rattle.walked_rows.specs.Leaving.{OnlyReads};
ghost use Rattle.store_rows.specs.View.{HoldsRows};
ghost use Rattle.walked_rows.specs.Rows.{rows_from};

use crate::ahead::AHEAD;
use message_records::Account;
use posting_rules::LAST_KEY;
use sqlite::{Alter, Connection, Error, Row};
use store_rows::TableFault;

/// The rows that a statement found.
pub type RowsRead = Result<Vec<Row>, Error>;

/// A row of one table, as it is stored.
pub trait StoredRow: Copy + Default {
    /// What a walk goes by in its table.
    ghost kind: { Kind Self };

    /// The row that the columns are, or the first rule that one of them breaks.
    fn of(row: &Row) -> Result<Self, TableFault>
        ensures reads { Gives (kind.reading row.now) result }
        ensures is { (e : Entry) → row.now ≡ given e → IsRow kind e → IfOk result (λ r. kind.entry r ≡ e) };

    /// The rows with the least keys from one on, at most `AHEAD`.
    fn seek<S: Alter>(conn: &mut Connection<S>, of: Option<Account>, from: i64) -> RowsRead
        ensures answers { HasCleanDisk (state S.Store conn.new) → (rows : List Entry)
            → HoldsRows (state S.Store conn.old).now kind.table rows
            → MatchResult result (λ found. found.items
            ≡ map given (take AHEAD (rows_from from (filter (kind.is_given of) rows))))
            (IsStoreError (state S.Store conn.old) (state S.Store conn.new)) }
        ensures reads { OnlyReads S.Store conn.old conn.new result }
        // Whatever the file holds.
        ensures failed { HasCleanDisk (state S.Store conn.new)
            → IfErr result (HasFailed (state S.Store conn.old) (state S.Store conn.new)) };

    /// The row's key.
    fn key(&self) -> u64
        ensures key { (kind.entry self.now).key ≡ pos result }
        ensures most { result ≤ LAST_KEY };
}
