//! Walks and reports in a life. They are given nothing, and a failed one ends the life.
ghost use Rattle.std.specs.Prelude.{◌≡◌, ◌⊎◌, [], List};
ghost use Rattle.sqlite.specs.Held.{state};
ghost use Rattle.sqlite.specs.State.{HasCleanDisk, Survives};
ghost use Rattle.posting_rules.specs.believed.Commands.{Command};
ghost use Rattle.posting_rules.specs.believed.Counter.{LeavesOnly, StandsAt};
ghost use Rattle.posting_rules.specs.believed.Tables.{AreTablesOf};
ghost use Rattle.bank_store.specs.believed.Seen.{bank_seen, connection_of};
ghost use Rattle.bank_store.specs.Seen.{fault_of};
ghost use Rattle.bank_store.specs.Walks.{IsStill};
ghost use Rattle.bank_lives.specs.believed.Lives.{EndsLife, IsCall};

use bank_store::Bank;
use posting_rules::Counter;
use sqlite::Alter;

/// A report that was made at a counter which was up (`audit`, `write_statement`), by what its contract says of
/// a crash. One that was answered takes no commands, and is a call by `calls_law`.
pub fn reports_law<C: Counter>(_counter: &C)
    // It stands where it stood, as it does while its store is open, or a fault brought it down.
    ensures answers { (old new : _) → ((C.seen old).is_down → ⊥) → ((C.seen new).honest → (C.seen old).honest)
        → ((C.seen new).honest → (log : List Command) → StandsAt (C.seen old) log
        → LeavesOnly (C.seen new) (λ t. AreTablesOf t log))
        → ((C.seen new).honest → (log : List Command) → StandsAt (C.seen old) log
        → StandsAt (C.seen new) log ⊎ (C.seen new).is_down)
        → IsCall (C.seen old) (C.seen new) [] 0 }
    // The store failed in it.
    ensures failed { (old new : _) → ((C.seen old).is_down → ⊥) → ((C.seen new).honest → (C.seen old).honest)
        → ((C.seen new).honest → (log : List Command) → StandsAt (C.seen old) log
        → LeavesOnly (C.seen new) (λ t. AreTablesOf t log))
        → EndsLife (C.seen old) (C.seen new) }
    // It tried nothing.
    ensures idle { (it : _) → IsCall (C.seen it) (C.seen it) [] 0 }
    // A life may end with no such failure.
    ensures stopped { (it : _) → EndsLife (C.seen it) (C.seen it) }
{}

/// A step of a walk over a bank that was up (`Walk::next`), as the walk's bank was before it and after it.
pub fn walks_law<S: Alter>(_bank: &Bank<S>)
    ensures stepped { (old new : _) → ((bank_seen S.Store old).is_down → ⊥)
        → (HasCleanDisk (state S.Store (connection_of new))
        → IsStill (state S.Store (connection_of old)) (state S.Store (connection_of new)))
        → fault_of new ≡ fault_of old
        → Survives (state S.Store (connection_of old)) (state S.Store (connection_of new)) (λ _. ⊥)
        → IsCall (bank_seen S.Store old) (bank_seen S.Store new) [] 0 }
    ensures failed { (old new : _)
        → Survives (state S.Store (connection_of old)) (state S.Store (connection_of new)) (λ _. ⊥)
        → EndsLife (bank_seen S.Store old) (bank_seen S.Store new) }
{}
