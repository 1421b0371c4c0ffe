//! What an audit adds up.
ghost use Rattle.std.specs.Prelude.{◌≡◌, ◌≤◌, ◌<◌, ◌++◌, ◌∷◌, ℕ, [], List, IfErr, IfOk, length, pos};
ghost use Rattle.report_contents.specs.Beside.{AuditRows, audit_of_rows, no_rows};
ghost use Rattle.bank_reports.specs.Adding.{HasSums};
ghost use Rattle.bank_store.specs.Room.{TakesFewBytes};

use report_contents::{Audit, BranchSums, MAX_ROWS, OrdinalSums, Sum, TellerSums, audit_of_sums};
use std::alloc::{AllocError, Global};
use walked_rows::{
    Joined, StoredAccount, StoredBranch, StoredPosting, StoredRequest, StoredTeller, WalkedRow,
};

/// What the rows of a bank add up to.
#[derive(Drop)]
pub(crate) struct Sums {
    pub(crate) tellers: TellerSums,
    pub(crate) branches: BranchSums,
    pub(crate) accounts: Sum,
    pub(crate) ordinals: OrdinalSums,
}

impl Sums {
    /// No row, with room for every branch.
    pub(crate) fn new(alloc: Global) -> Result<Sums, AllocError>
        ensures { IfOk result (λ sums. HasSums sums no_rows) }
    {
        Ok(Sums {
            tellers: TellerSums::new(alloc)?,
            branches: BranchSums::new(alloc)?,
            accounts: Sum::zero(),
            ordinals: OrdinalSums::none(),
        })
    }

    /// The audit of the rows that were added.
    pub(crate) fn into_audit(self) -> Audit
        ensures { (rows : AuditRows) → HasSums self rows → result ≡ audit_of_rows rows }
    {
        let Sums {
            tellers,
            branches,
            accounts,
            ordinals,
        } = self;
        audit_of_sums(&tellers, branches, accounts, ordinals)
    }
}

/// A row that an audit adds up.
pub(crate) trait Summed: WalkedRow {
    /// The rows of an audit, with these as the rows of this kind.
    ghost with_rows: { AuditRows → List Self → AuditRows };

    /// How many rows of this kind there can be.
    ghost most: { ℕ };

    /// The key of the row.
    fn number(&self) -> u64
        ensures key { Self.key (Self.item self.now) ≡ pos result }
        ensures least { 1 ≤ result }
        ensures most { result ≤ most }
        ensures within { result ≤ MAX_ROWS };

    /// Adds the row to the sums.
    fn add_to(self, sums: &mut Sums)
        requires { (rows : AuditRows) × (given : List Self) × HasSums sums.old (with_rows rows given)
            × (length given < most) }
        ensures { (rows : AuditRows) (given : List Self) → HasSums sums.old (with_rows rows given)
            → HasSums sums.new (with_rows rows (given ++ self ∷ [])) };

    /// There is room for a walk over rows of this kind.
    ghost few_bytes: { TakesFewBytes Self.row };
}

impl Summed for StoredTeller {
    ghost use Rattle.std.proofs.Common.{lit<};
    ghost use Rattle.bank_reports.specs.Adding.{with_tellers};
    ghost use Rattle.walked_rows.specs.declared.limits.TheConstants.{LAST_TELLER};

    ghost with_rows = { with_tellers };

    ghost most = { LAST_TELLER };

    ghost few_bytes = { (lit< tt, lit< tt) };

    fn number(&self) -> u64 {
        self.teller.get()
    }

    fn add_to(self, sums: &mut Sums) {
        sums.tellers.add(self);
    }
}

impl Summed for StoredBranch {
    ghost use Rattle.std.proofs.Common.{lit<};
    ghost use Rattle.bank_reports.specs.Adding.{with_branches};
    ghost use Rattle.posting_rules.specs.declared.limits.TheConstants.{LAST_BRANCH};

    ghost with_rows = { with_branches };

    ghost most = { LAST_BRANCH };

    ghost few_bytes = { (lit< tt, lit< tt) };

    fn number(&self) -> u64 {
        self.branch.get()
    }

    fn add_to(self, sums: &mut Sums) {
        sums.branches.add(self, &sums.tellers);
    }
}

impl Summed for StoredAccount {
    ghost use Rattle.std.proofs.Common.{lit<};
    ghost use Rattle.bank_reports.specs.Adding.{with_accounts};
    ghost use Rattle.walked_rows.specs.declared.limits.TheConstants.{LAST_ACCOUNT};

    ghost with_rows = { with_accounts };

    ghost most = { LAST_ACCOUNT };

    ghost few_bytes = { (lit< tt, lit< tt) };

    fn number(&self) -> u64 {
        self.account.get()
    }

    fn add_to(self, sums: &mut Sums) {
        sums.accounts = sums.accounts.plus(self.balance);
    }
}

impl Summed for Joined<StoredRequest, StoredPosting> {
    ghost use Rattle.std.proofs.Common.{lit<};
    ghost use Rattle.bank_reports.specs.Adding.{with_requests};
    ghost use Rattle.report_contents.specs.declared.limits.TheConstants.{MAX_ROWS};

    ghost with_rows = { with_requests };

    ghost most = { MAX_ROWS };

    ghost few_bytes = { (lit< tt, lit< tt) };

    fn number(&self) -> u64 {
        self.stored.ordinal.get()
    }

    fn add_to(self, sums: &mut Sums) {
        let Joined { stored, beside } = self;
        sums.ordinals.add_request(stored, beside);
    }
}

impl Summed for Joined<StoredPosting, StoredRequest> {
    ghost use Rattle.std.proofs.Common.{lit<};
    ghost use Rattle.bank_reports.specs.Adding.{with_history};
    ghost use Rattle.report_contents.specs.declared.limits.TheConstants.{MAX_ROWS};

    ghost with_rows = { with_history };

    ghost most = { MAX_ROWS };

    ghost few_bytes = { (lit< tt, lit< tt) };

    fn number(&self) -> u64 {
        self.stored.ordinal.get()
    }

    fn add_to(self, sums: &mut Sums) {
        let Joined { stored, beside } = self;
        sums.ordinals.add_posting(stored, beside);
    }
}
