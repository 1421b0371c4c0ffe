//! Statements that only show rows.
ghost use Rattle.std.specs.Prelude.{length, IfErr, MatchResult};
ghost use Rattle.sqlite.specs.Listing.{understood};
ghost use Rattle.sqlite.specs.Schema.{Schema};
ghost use Rattle.sqlite.specs.State.{FailsToQuery, HasCleanDisk, Shown};
ghost use Rattle.sqlite.specs.Held.{state};
ghost use Rattle.sqlite.specs.Values.{bound};
ghost use Rattle.sql_meanings.specs.StatementAnswers.{OnlyShows};
ghost use Rattle.sqlite_rules.specs.Lists.{Has};
ghost use Rattle.store_rows.specs.believed.Failures.{HasFailed, queries};
ghost use Rattle.walked_rows.specs.Leaving.{OnlyReads};

use sqlite::types::ValueRef;
use sqlite::{Alter, Connection, Error, Row};

/// The rows that such a statement shows.
pub(crate) fn rows_shown<S: Alter>(
    conn: &mut Connection<S>,
    text: &str,
    params: &[ValueRef<'_>],
) -> Result<Vec<Row>, Error>
    requires ours { Has queries text.now }
    requires only { (schema : Schema)
        → OnlyShows text.now (length (bound params.now)) (understood schema text.now) }
    ensures shown { HasCleanDisk (state S.Store conn.new)
        → MatchResult result (λ found. Shown text.now (bound params.now) (state S.Store conn.old)
        (state S.Store conn.new) found.items)
        (FailsToQuery text.now (bound params.now) (state S.Store conn.old) (state S.Store conn.new)) }
    ensures reads { OnlyReads S.Store conn.old conn.new result }
    ensures failed { HasCleanDisk (state S.Store conn.new)
        → IfErr result (HasFailed (state S.Store conn.old) (state S.Store conn.new)) }
{
    conn.query_all(text, params)
}
