//! The tables that a bank of an earlier version lacks.
ghost use Rattle.std.specs.Prelude.{IfErr, IsTrue};
ghost use Rattle.sqlite.specs.Held.{state};
ghost use Rattle.sqlite.specs.State.{HasCleanDisk};
ghost use Rattle.sql_meanings.specs.Calls.{Inside, Says};
ghost use Rattle.sql_meanings.specs.StatementAnswers.{WritesKept};
ghost use Rattle.store_rows.specs.Failures.{HasFailedAtLast};
ghost use Rattle.store_rows.specs.Migration.{IsEarlier, MakesLacking};

use crate::creation::make_tables;
use sqlite::{Alter, Error, Transaction};

/// The first version of the tables.
pub const EARLIEST: i64 = 1;

/// Makes the tables that an earlier version lacks, beside whatever is there.
pub fn make_lacking<S: Alter>(tx: &mut Transaction<'_, S>, from: u64) -> Result<(), Error>
    requires { IsEarlier from }
    ensures says { Says S.Store tx.old tx.new
        (Inside (λ old new. MakesLacking from old new result))
        (Inside (λ old new. WritesKept old new result)) }
    ensures failed { HasCleanDisk (state S.Store tx.new.conn.now) → IsTrue tx.old.conn.now.in_transaction
        → IfErr result (HasFailedAtLast S.Store tx.old.conn.now tx.new.conn.now) }
{
    make_tables(tx, 5 + from as usize)
}
