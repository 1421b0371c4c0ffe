//! The audit of rows that were added up.
ghost use Rattle.std.specs.Prelude.{◌≡◌, map};
ghost use Rattle.report_contents.specs.Added.{IsSum, HasBeside, HasBranches, HasTellers};
ghost use Rattle.report_contents.specs.Audit.{account_balance};
ghost use Rattle.report_contents.specs.Beside.{AuditRows, audit_of_rows};

use crate::audit::Audit;
use crate::branches::BranchSums;
use crate::ordinals::OrdinalSums;
use crate::sum::Sum;
use crate::tellers::TellerSums;

/// The audit of the rows that were added.
pub fn audit_of_sums(
    tellers: &TellerSums,
    branches: BranchSums,
    accounts: Sum,
    ordinals: OrdinalSums,
) -> Audit
    ensures { (rows : AuditRows) → HasTellers tellers.now rows.tellers
        → HasBranches branches rows.tellers rows.branches
        → IsSum accounts (map account_balance rows.accounts)
        → HasBeside ordinals rows.requests rows.history → result ≡ audit_of_rows rows }
{
    Audit {
        branches: branches.all().count,
        tellers: tellers.all().count,
        accounts: accounts.count,
        requests: ordinals.requests(),
        history: ordinals.history().count,
        account_sum: accounts.sum,
        teller_sum: tellers.all().sum,
        branch_sum: branches.all().sum,
        history_sum: ordinals.history().sum,
        unmatched: ordinals.unmatched(),
        lines: branches.into_lines(),
    }
}
