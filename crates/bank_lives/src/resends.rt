//! Records that come again.
ghost use Rattle.std.specs.Prelude.{◌≡◌, ℕ, [], List, get_or, length};
ghost use Rattle.posting_rules.specs.believed.Commands.{Command};
ghost use Rattle.posting_rules.specs.believed.Counter.{ShowMore, ShowsLog};
ghost use Rattle.posting_rules.specs.Resends.{Place, Skips};
ghost use Rattle.posting_rules.specs.believed.Runs.{followed_by, replies_to, ArePosts};

use posting_rules::Counter;

/// Records that come again, in whatever order and number and mixed with new ones, by whichever call they are
/// posted (`submit`, `submit_all`, `post_stream`), where no branch was opened since.
pub fn resends_law<C: Counter>(_counter: &C)
    // Each gets the reply that it got.
    ensures replies { (log p r : List Command) (bytes : List ℕ) → (first : Place bytes p)
        → (again : Place bytes r) → ArePosts p → ArePosts r
        → get_or (replies_to (followed_by log p) r) (length again.before) []
        ≡ get_or (replies_to log p) (length first.before) [] }
    // What is shown are the others alone, in their order.
    ensures tables { (old new : _) (log p r added : List Command) → ShowMore (C.seen old) (C.seen new) r
        → ArePosts p → ArePosts r → Skips p r added → ShowsLog (C.seen old) (followed_by log p)
        → ShowsLog (C.seen new) (followed_by (followed_by log p) added) }
{}
