//! The sums of the tellers of each branch.
ghost use Rattle.std.specs.Prelude.{◌≡◌, ◌<◌, ◌≤◌, ◌++◌, ◌∷◌, [], IfOk, List};
ghost use Rattle.std.specs.Prelude.{length};
ghost use Rattle.report_contents.specs.Audit.{teller_sum};
ghost use Rattle.report_contents.specs.declared.limits.TheConstants.{BRANCHES};
ghost use Rattle.walked_rows.specs.declared.tellers.StoredTeller.{StoredTeller};
ghost use Rattle.report_contents.specs.Sums.{AreSmall};

use crate::limits::{BRANCHES, MAX_ROWS};
use crate::sum::Sum;
use message_records::Whole;
use posting_rules::{LAST_BRANCH, TELLERS_PER_BRANCH};
use std::alloc::{AllocError, Global};
use walked_rows::StoredTeller;

/// What tellers add up to: all, and those of each branch. It has room for every branch from its start on.
#[derive(Drop)]
pub struct TellerSums {
    all: Sum,
    // By the branch's number less one.
    by_branch: Vec<i128>,
    ghost every_branch: { length by_branch.items ≡ BRANCHES },
    ghost small: { AreSmall by_branch.items all.count },
}

impl TellerSums {
    ghost use Rattle.report_contents.specs.Added.{HasTellers};

    /// No teller.
    ///
    /// # Errors
    ///
    /// `AllocError` where there is no memory for a sum of each branch.
    pub fn new(alloc: Global) -> Result<TellerSums, AllocError>
        ensures { IfOk result (λ sums. HasTellers sums []) }
    {
        let by_branch = vec![in alloc; 0i128; BRANCHES]?;
        Ok(TellerSums {
            all: Sum::zero(),
            by_branch,
        })
    }

    /// Adds a teller.
    pub fn add(&mut self, teller: StoredTeller)
        requires room { (tellers : List StoredTeller) × HasTellers self.old tellers
            × (length tellers < MAX_ROWS) }
        ensures added { (tellers : List StoredTeller) → HasTellers self.old tellers
            → HasTellers self.new (tellers ++ teller ∷ []) }
    {
        let place = ((teller.teller.get() - 1) / TELLERS_PER_BRANCH) as usize;
        let sum = self.by_branch[place];
        self.by_branch[place] = sum + i128::from(teller.balance);
        self.all = self.all.plus(teller.balance);
    }

    /// The sum of the tellers of a branch.
    pub fn of(&self, branch: Whole<1, LAST_BRANCH>) -> i128
        ensures { (tellers : List StoredTeller) → HasTellers self.now tellers
            → result ≡ teller_sum tellers branch }
    {
        self.by_branch[(branch.get() - 1) as usize]
    }

    /// How many there are, and the sum of all.
    pub(crate) fn all(&self) -> Sum
        ensures { result ≡ self.now.all }
    {
        self.all
    }
}
