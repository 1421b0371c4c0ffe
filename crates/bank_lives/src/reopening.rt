//! Taking up a bank after a crash.
ghost use Rattle.std.specs.Prelude.{◌≡◌, ◌∷◌, ℕ, List, IfOk, IfErr, false};
ghost use Rattle.sqlite.specs.Held.{state};
ghost use Rattle.sqlite.specs.State.{HasCleanDisk, Opens};
ghost use Rattle.sqlite.specs.Tree.{Trees};
ghost use Rattle.posting_rules.specs.believed.Commands.{Command};
ghost use Rattle.posting_rules.specs.believed.Counter.{LeavesOnly, ShowsPrefix, StandsAt};
ghost use Rattle.bank_store.specs.Connections.{conn_seen};
ghost use Rattle.bank_store.specs.believed.Seen.{bank_seen};
ghost use Rattle.bank_store.specs.StoreFaults.{KnowsCause};
ghost use Rattle.bank_lives.specs.believed.Lives.{Life};
ghost use Rattle.bank_lives.specs.believed.ManyLives.{Given, IsFoundAfter, Lives};
ghost use Rattle.bank_lives.specs.believed.LifeStates.{LifeState, Of_bank, seen_at};

use bank_store::{Bank, OpenFault, Refused, adopt};
use sqlite::{Alter, Connection};
use std::alloc::Global;
use store_rows::trees_show_law;

/// Takes up the bank over a connection that was opened on what a crash left of another bank.
///
/// `stopped` is that bank at the moment of the crash, after any number of lives and whatever calls it was given in
/// the last. The bank that is found shows the log that the first life began with and then, life by life, a prefix of
/// the commands that were given, which holds every one that was acknowledged. It is the first bank of the next life.
/// In such a log each request is posted once, and every branch has the sum of its tellers (TPC-B clause 2): the laws
/// `each_request_once` and `tables_are_consistent` of `posting_rules`. All this is said of disks that return what was
/// written, as long as nobody else writes the files.
///
/// # Errors
///
/// On such disks only [`OpenFault::Store`](bank_store::OpenFault::Store): a call of `sqlite` failed. The
/// connection comes back outside a transaction, and a crash leaves of it what was left of the bank (`again`), so
/// that the bank can be taken up again over a new one, after any number of such faults.
pub fn reopen<S: Alter + Drop, T: Alter>(
    alloc: Global,
    stopped: &Bank<S>,
    conn: Connection<T>,
) -> Result<Bank<T>, Refused<T>>
    requires { conn.in_transaction ≡ false }
    ensures lives { IfOk result (λ bank. (bank_seen T.Store bank).honest → Opens (state T.Store conn)
        → (bank_seen S.Store stopped.now).honest
        → (bank_seen S.Store stopped.now).left (state T.Store conn).now.trees
        → (start : List Command) (first : LifeState S.Store) (life : Given) (lives : List Given)
        → Lives (seen_at S.Store) start first lives
        → Life (seen_at S.Store) first (Of_bank stopped.now) life.commands life.least
        → IsFoundAfter (bank_seen T.Store bank) start (life ∷ lives)) }
    ensures missed { IfErr result (λ refused. HasCleanDisk (state T.Store refused.conn)
        → Opens (state T.Store conn)
        → (bank_seen S.Store stopped.now).honest
        → (bank_seen S.Store stopped.now).left (state T.Store conn).now.trees
        → (first : _) (log given : List Command) (least : ℕ) → StandsAt (bank_seen S.Store first) log
        → Life (λ bank. bank_seen S.Store bank) first stopped.now given least
        → refused.fault ≡ OpenFault.Store) }
    ensures remains { IfErr result (λ refused. HasCleanDisk (state T.Store refused.conn)
        → Opens (state T.Store conn)
        → (bank_seen S.Store stopped.now).honest
        → (bank_seen S.Store stopped.now).left (state T.Store conn).now.trees
        → (first : _) (log given : List Command) (least : ℕ) → StandsAt (bank_seen S.Store first) log
        → Life (λ bank. bank_seen S.Store bank) first stopped.now given least
        → LeavesOnly (conn_seen T.Store refused.conn) (ShowsPrefix log given least)) }
    ensures again { IfErr result (λ refused. HasCleanDisk (state T.Store refused.conn)
        → Opens (state T.Store conn)
        → (bank_seen S.Store stopped.now).left (state T.Store conn).now.trees
        → (trees : Trees) → (conn_seen T.Store refused.conn).left trees
        → (bank_seen S.Store stopped.now).left trees) }
    ensures up { IfOk result (λ bank. (bank_seen T.Store bank).is_down → ⊥) }
    ensures cause { IfErr result (λ refused. KnowsCause T.Store conn refused.conn refused.fault) }
    ensures idle { IfErr result (λ refused. refused.conn.in_transaction ≡ false) }
{
    trees_show_law(&conn);
    adopt(alloc, conn)
}
