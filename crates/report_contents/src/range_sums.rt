//! What the postings before a range and up to its end add up to.
ghost use Rattle.std.specs.Prelude.{◌≡◌, ◌≤◌, ◌<◌, ◌+◌, ◌-◌, ◌^◌, ◌+ℤ◌, ◌++◌, ◌∷◌, [], List};
ghost use Rattle.walked_rows.specs.declared.stated.StatedPosting.{StatedPosting};
ghost use Rattle.report_contents.specs.declared.range.Range.{Range};
ghost use Rattle.report_contents.specs.Sums.{IsSmall};

use crate::range::{Range, amount_before};
use walked_rows::StatedPosting;

// A sum of so many amounts, and one more.
fn plus(sum: i128, count: u64, amount: i64) -> i128
    requires small { IsSmall sum count }
    requires few { count < 2 ^ 64 - 1 }
    ensures sum { result ≡ sum +ℤ amount }
    ensures small { IsSmall result (count + 1) }
{
    sum + i128::from(amount)
}

/// What the postings before a range, and those up to its end, add up to, in cents. The sums have 128 bits,
/// which 2^64 - 1 amounts of 64 bits don't leave.
#[derive(Clone, Copy)]
pub struct RangeSums {
    pub range: Range,
    pub count: u64,
    pub before: i128,
    pub until: i128,
    ghost small: { IsSmall before count },
    ghost as_small: { IsSmall until count },
}

impl RangeSums {
    ghost use Rattle.report_contents.specs.Ranges.{HasSummed};

    /// No posting.
    pub fn none(range: Range) -> RangeSums
        ensures { HasSummed range result [] }
    {
        RangeSums {
            range,
            count: 0,
            before: 0,
            until: 0,
        }
    }

    /// Adds a posting.
    pub fn add(&mut self, row: &StatedPosting)
        requires { self.old.count < 2 ^ 64 - 1 }
        ensures { (range : Range) (rows : List StatedPosting) → HasSummed range self.old rows
            → HasSummed range self.new (rows ++ row.now ∷ []) }
    {
        let earlier = amount_before(self.range.from, row);
        let before = plus(self.before, self.count, earlier);
        let so_far = amount_before(self.range.until, row);
        let until = plus(self.until, self.count, so_far);
        *self = RangeSums {
            range: self.range,
            count: self.count + 1,
            before,
            until,
        };
    }
}
