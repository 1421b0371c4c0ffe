//! What was written is made to last.
ghost use Rattle.std.specs.Prelude.{◌≡◌, IfErr, IsTrue, OnOk, OnErr, false};
ghost use Rattle.sqlite.specs.Tree.{Trees};
ghost use Rattle.sqlite.specs.State.{HasCleanDisk, Survives};
ghost use Rattle.sqlite.specs.Held.{state};
ghost use Rattle.sqlite.specs.Steps.{FailsToCommit};
ghost use Rattle.posting_rules.specs.believed.Tables.{Tables};
ghost use Rattle.sql_meanings.specs.StatementAnswers.{WriteFails};
ghost use Rattle.store_rows.specs.believed.View.{Shows, ShowsTrees};

use sqlite::{Alter, Error, Transaction};

/// Commits a transaction. Alone among these calls it adds to what a crash may leave, also where it fails. It
/// fails where the store does, or where an earlier failure has ended the transaction.
pub fn commit<S: Alter>(tx: Transaction<'_, S>) -> Result<(), Error>
    ensures ended { tx.exit.0.now.in_transaction ≡ false }
    ensures ok { HasCleanDisk (state S.Store tx.exit.0.now) → (tables : Tables)
        → Shows (state S.Store tx.entry.conn.now).now tables
        → OnOk result (Shows (state S.Store tx.exit.0.now).now tables
        × Shows (state S.Store tx.exit.0.now).committed tables) }
    ensures alone { HasCleanDisk (state S.Store tx.exit.0.now) → (tables : Tables)
        → Shows (state S.Store tx.entry.conn.now).now tables
        → OnOk result ((left : Trees) → (state S.Store tx.exit.0.now).may_leave left
        → ShowsTrees left tables) }
    ensures same { HasCleanDisk (state S.Store tx.exit.0.now)
        → OnOk result ((state S.Store tx.exit.0.now).now ≡ (state S.Store tx.entry.conn.now).now) }
    ensures opened { HasCleanDisk (state S.Store tx.exit.0.now)
        → OnOk result (IsTrue (state S.Store tx.entry.conn.now).is_open) }
    ensures err { HasCleanDisk (state S.Store tx.exit.0.now)
        → OnErr result (WriteFails (state S.Store tx.entry.conn.now) (state S.Store tx.exit.0.now)) }
    ensures cause { HasCleanDisk (state S.Store tx.exit.0.now)
        → IfErr result (FailsToCommit (state S.Store tx.entry.conn.now) (state S.Store tx.exit.0.now)) }
    ensures survives { Survives (state S.Store tx.entry.conn.now) (state S.Store tx.exit.0.now)
        (λ left. (left ≡ (state S.Store tx.entry.conn.now).now.trees)
        × ((tables : Tables) → Shows (state S.Store tx.entry.conn.now).now tables → ShowsTrees left tables)) }
{
    tx.commit()
}
