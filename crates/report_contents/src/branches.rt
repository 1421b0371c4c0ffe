//! The branches, and those that aren't the sums of their tellers.
ghost use Rattle.std.specs.Prelude.{◌≡◌, ◌<◌, ◌≤◌, ◌++◌, ◌∷◌, [], IfOk, List};
ghost use Rattle.std.specs.Prelude.{length, take};
ghost use Rattle.report_contents.specs.declared.limits.TheConstants.{BRANCHES};
ghost use Rattle.walked_rows.specs.declared.branches.StoredBranch.{StoredBranch};
ghost use Rattle.walked_rows.specs.declared.tellers.StoredTeller.{StoredTeller};

use crate::audit::{BranchLine, BranchLines};
use crate::limits::BRANCHES;
use crate::sum::Sum;
use crate::tellers::TellerSums;
use posting_rules::LAST_BRANCH;
use std::alloc::{AllocError, Global};
use walked_rows::StoredBranch;

/// What branches add up to, and which of them differ from their tellers. It has room for every branch from
/// its prefix on.
#[derive(Drop)]
pub struct BranchSums {
    all: Sum,
    // Room for lines, and how many there are.
    lines: Vec<BranchLine>,
    differing: usize,
    ghost room: { length lines.items ≡ BRANCHES },
    ghost few: { differing ≤ all.count },
}

impl BranchSums {
    ghost use Rattle.report_contents.specs.Added.{HasTellers, HasBranches};

    /// No branch.
    ///
    /// # Errors
    ///
    /// `AllocError` where there is no memory for a line of each branch.
    pub fn new(alloc: Global) -> Result<BranchSums, AllocError>
        ensures { IfOk result (λ sums. (tellers : List StoredTeller) → HasBranches sums tellers []) }
    {
        let nothing = BranchLine {
            branch: 0,
            tellers: 0,
            balance: 0,
        };
        let lines = vec![in alloc; nothing; BRANCHES]?;
        Ok(BranchSums {
            all: Sum::zero(),
            lines,
            differing: 0,
        })
    }

    /// Adds a branch, and compares it with its tellers.
    pub fn add(&mut self, branch: StoredBranch, sums: &TellerSums)
        requires room { (tellers : List StoredTeller) × (branches : List StoredBranch)
            × HasBranches self.old tellers branches
            × (length branches < LAST_BRANCH) }
        ensures added { (tellers : List StoredTeller) (branches : List StoredBranch)
            → HasTellers sums.now tellers → HasBranches self.old tellers branches
            → HasBranches self.new tellers (branches ++ branch ∷ []) }
    {
        let tellers = sums.of(branch.branch);
        let line = BranchLine {
            branch: branch.branch.get(),
            tellers,
            balance: branch.balance,
        };
        self.all = self.all.plus(branch.balance);
        if tellers != i128::from(branch.balance) {
            self.lines[self.differing] = line;
            self.differing += 1;
        }
    }

    /// How many there are, and their sum.
    pub(crate) fn all(&self) -> Sum
        ensures { result ≡ self.now.all }
    {
        self.all
    }

    /// Those that differ.
    pub(crate) fn into_lines(self) -> BranchLines
        ensures { result ≡ take self.differing self.lines.items }
    {
        let BranchSums {
            all: _,
            mut lines,
            differing,
        } = self;
        lines.truncate(differing);
        BranchLines::new(lines)
    }
}
