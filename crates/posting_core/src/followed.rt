//! A counter whose log another bank can follow, and whose tellers are asked what they hold.
ghost use Rattle.std.specs.Prelude.{◌≡◌, [], OnOk};
ghost use Rattle.std.specs.Option.{option_map};
ghost use Rattle.posting_rules.specs.believed.Counter.{Answers, IsCounterCall};
ghost use Rattle.posting_rules.specs.Counter.{StaysByTables};
ghost use Rattle.posting_core.specs.believed.LogEntries.{entries_given};
ghost use Rattle.posting_core.specs.believed.Tills.{teller_after};

use message_records::{Cents, Teller};
use posting_rules::{Counter, Fault};

/// How many entries are given at once at most.
pub const ENTRIES_PER_ANSWER: usize = 192;

/// A counter whose log another bank can follow, and whose tellers are asked what they hold.
pub trait Followed: Counter {
    /// The entries of its log after the first so many, one after another, up to `ENTRIES_PER_ANSWER` of them; none
    /// where fewer are kept. It changes nothing.
    fn entries_after(&mut self, after: u64) -> Result<Option<Vec<u8>>, Fault>
        ensures answer { Answers (Self.seen self.old) (Self.seen self.new) result
            (λ log given. option_map (λ bytes. bytes.items) given ≡ entries_given log after) }
        ensures call { IsCounterCall Self.seen Self.contents Self.reason self.old self.new [] result }
        ensures by_tables { OnOk result (StaysByTables (Self.seen self.old) (Self.seen self.new)) }
        ensures spares { Self.spares self.old self.new };

    /// The balance of a teller in cents; none where it isn't open. It changes nothing.
    fn teller_balance(&mut self, teller: Teller) -> Result<Option<Cents>, Fault>
        ensures answer { Answers (Self.seen self.old) (Self.seen self.new) result
            (λ log balance. balance ≡ teller_after log teller) }
        ensures call { IsCounterCall Self.seen Self.contents Self.reason self.old self.new [] result }
        ensures by_tables { OnOk result (StaysByTables (Self.seen self.old) (Self.seen self.new)) }
        ensures spares { Self.spares self.old self.new };
}
