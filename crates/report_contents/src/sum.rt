//! A sum of 64 bit amounts.
ghost use Rattle.std.specs.Prelude.{◌≡◌, ◌≤◌, ◌<◌, ◌+◌, ◌+ℤ◌, pos};
ghost use Rattle.report_contents.specs.declared.limits.TheConstants.{MAX_ROWS};
ghost use Rattle.report_contents.specs.Sums.{IsSmall};

use crate::limits::MAX_ROWS;

/// How many amounts were added, and their sum. It has 128 bits, which `MAX_ROWS` amounts of 64 bits don't
/// leave.
#[derive(Clone, Copy)]
pub struct Sum {
    pub count: u64,
    pub sum: i128,
    ghost few: { count ≤ MAX_ROWS },
    ghost small: { IsSmall sum count },
}

impl Sum {
    pub fn zero() -> Sum
        ensures count { result.count ≡ 0 }
        ensures sum { result.sum ≡ pos 0 }
    {
        Sum { count: 0, sum: 0 }
    }

    pub fn plus(self, amount: i64) -> Sum
        requires { self.count < MAX_ROWS }
        ensures count { result.count ≡ self.count + 1 }
        ensures sum { result.sum ≡ self.sum +ℤ amount }
    {
        Sum {
            count: self.count + 1,
            sum: self.sum + i128::from(amount),
        }
    }
}
