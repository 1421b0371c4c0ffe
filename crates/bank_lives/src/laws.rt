//! Laws of a counter's life. Each is a function that does nothing and can't fail: its contract is the law. A
//! caller that calls one has its clauses at hand.
ghost use Rattle.std.specs.Prelude.{◌≡◌, ◌≤◌, ℕ, List, length};
ghost use Rattle.posting_rules.specs.declared.fault.Fault.{Fault as Cause};
ghost use Rattle.posting_rules.specs.declared.fault.Fault.TheVariants.{Down};
ghost use Rattle.posting_rules.specs.believed.Commands.{Command, AreCommands};
ghost use Rattle.posting_rules.specs.believed.Counter.{Takes, Refuses, StandsAt, LeavesOnly, ShowsPrefix};
ghost use Rattle.posting_rules.specs.believed.Tables.{Tables, AreTablesOf};
ghost use Rattle.posting_rules.specs.declared.fault.Rule.{Rule};
ghost use Rattle.store_rows.specs.believed.Rules.{KeepsRule};
ghost use Rattle.store_rows.specs.Rules.{stored_rows};
ghost use Rattle.bank_lives.specs.believed.Lives.{IsCall, Life, given_to};

use posting_rules::Counter;

/// Each call of a counter is a call of its life (`IsCall`), by what the trait `Counter` says of it. One that
/// was answered acknowledges all of its commands, and one that was refused acknowledges none.
pub fn calls_law<C: Counter>(_counter: &C)
    ensures answered { (old new : _) (commands : List Command)
        → Takes (C.seen old) (C.seen new) commands
        → ((C.seen old).is_down → ⊥) → ((C.seen new).honest → (C.seen old).honest)
        → IsCall (C.seen old) (C.seen new) commands (length commands) }
    ensures refused { (fault : Cause) (old new : _) (commands : List Command)
        → Refuses fault (C.seen old) (C.seen new) commands → ((C.seen old).is_down → fault ≡ Down)
        → ((C.seen new).honest → (C.seen old).honest)
        → IsCall (C.seen old) (C.seen new) (given_to fault commands) 0 }
{}

/// At every moment of a life, everything that a crash may leave shows the log that the life began with and a
/// prefix of the commands that were given, which holds every one that was acknowledged (TPC-B,
/// durability). What was acknowledged was given.
pub fn life_law<C: Counter>(counter: &C)
    ensures given { (first : _) (given : List Command) (least : ℕ) → Life C.seen first counter.now given least
        → least ≤ length given }
    ensures survives { (first : _) (log given : List Command) (least : ℕ)
        → Life C.seen first counter.now given least
        → StandsAt (C.seen first) log → (C.seen counter.now).honest
        → LeavesOnly (C.seen counter.now) (ShowsPrefix log given least) }
    // And a crash leaves something, so that there are such tables.
    ensures something { (first : _) (log given : List Command) (least : ℕ)
        → Life C.seen first counter.now given least
        → StandsAt (C.seen first) log → (C.seen counter.now).honest
        → ∥ ((tables : Tables) × ShowsPrefix log given least tables) ∥₁ }
{}

/// The tables of every log of a bank's commands keep each of the ten rules of `Rule`, so that a file which
/// breaks one of them holds no bank.
pub fn rules_law()
    ensures { (tables : Tables) (log : List Command) → AreCommands log → AreTablesOf tables log
        → (rule : Rule) → KeepsRule rule (stored_rows tables) }
{}
