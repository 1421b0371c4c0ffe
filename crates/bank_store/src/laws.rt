//! Facts that hold without anything being done: what a value's type keeps inside, and what a connection that
//! was just opened stands at. A caller that calls such a function has its clauses at hand.
ghost use Rattle.std.specs.Prelude.{◌≤◌, ◌≤ℤ◌, pos, IfSome, List, ℕ};
ghost use Rattle.sqlite.specs.Held.{state};
ghost use Rattle.sqlite.specs.State.{Opens};
ghost use Rattle.posting_rules.specs.believed.Commands.{Command, AreCommands, IsFloor};
ghost use Rattle.posting_rules.specs.believed.Counter.{StandsAt};
ghost use Rattle.posting_rules.specs.believed.Tables.{Tables, AreTablesOf};
ghost use Rattle.store_rows.specs.believed.View.{ShowsTrees};
ghost use Rattle.bank_store.specs.Connections.{conn_seen};
ghost use Rattle.bank_store.specs.Migration.{ShowsEarlierTrees, StandsEarlier};

use message_records::{Cents, Whole};
use sqlite::{Alter, Connection};
use store_rows::trees_show_law;

/// A number is in its range. A proof sees the number alone, until it is read.
pub(crate) fn range_law<const LEAST: u64, const MOST: u64>(number: Whole<LEAST, MOST>)
    ensures least { LEAST ≤ number.entry }
    ensures most { number.entry ≤ MOST }
{
    let _number = number.get();
}

/// A floor is within the limit of a balance.
pub(crate) fn floor_law(floor: &Option<Cents>)
    requires { IfSome floor.now (λ z. z ≤ℤ pos 0) }
    ensures { IfSome floor.now IsFloor }
{
    if let Some(lowest) = floor {
        let _lowest = lowest.get();
    }
}

/// What a connection shows as it is opened, a crash leaves too: it stands at whatever log its trees show.
pub fn opened_law<S: Alter>(conn: &Connection<S>)
    ensures { Opens (state S.Store conn.now) → (tables : Tables) (log : List Command) → AreCommands log
        → ShowsTrees (state S.Store conn.now).now.trees tables → AreTablesOf tables log
        → StandsAt (conn_seen S.Store conn.now) log }
{
    trees_show_law(conn);
}

/// A connection that was just opened stands so at a bank of an earlier version, too: where the machine stops while it
/// is carried over, it can be carried over again.
pub fn opened_earlier_law<S: Alter>(conn: &Connection<S>)
    ensures { Opens (state S.Store conn.now) → (from : ℕ) (log : List Command)
        → ShowsEarlierTrees from (state S.Store conn.now).now.trees log
        → StandsEarlier from (state S.Store conn.now) log }
{
    // What a schema says of its connection is what this law rests on, so it is asked for.
    let _schema = conn.schema();
}
