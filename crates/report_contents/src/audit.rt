//! What an audit says.
ghost use Rattle.std.specs.Prelude.{◌≡◌};
ghost use Rattle.report_contents.specs.Audit.{is_sound};

use std::marker::Model;

/// A branch whose balance isn't the sum of the balances of its tellers.
#[derive(Clone, Copy)]
pub struct BranchLine {
    /// The branch's number.
    pub branch: u64,
    /// What its tellers' balances add up to, in cents.
    pub tellers: i128,
    /// Its own balance, in cents.
    pub balance: i64,
}

/// Branches that differ from their tellers, ascending.
#[derive(Drop)]
pub struct BranchLines {
    rows: Vec<BranchLine>,
}

impl Model for BranchLines {
    ghost use Rattle.std.specs.Prelude.{List};
    ghost use Rattle.report_contents.specs.declared.audit.BranchLine.{BranchLine as Line};

    ghost Value = { List Line };

    ghost view = { λ l. l.rows.items };
}

impl BranchLines {
    pub(crate) fn new(rows: Vec<BranchLine>) -> Self
        ensures { result ≡ rows.items }
    {
        BranchLines { rows }
    }

    /// The lines.
    pub fn as_slice(&self) -> &[BranchLine]
        ensures { result.now ≡ self.now }
    {
        &self.rows
    }
}

/// The numbers of an audit: how many rows the tables have, what they add up to, and where they differ.
#[derive(Drop)]
pub struct Audit {
    /// How many rows each table has.
    pub branches: u64,
    pub tellers: u64,
    pub accounts: u64,
    pub requests: u64,
    pub history: u64,
    /// The sums of the balances of accounts, tellers and branches, and of the deltas of history, in cents.
    pub account_sum: i128,
    pub teller_sum: i128,
    pub branch_sum: i128,
    pub history_sum: i128,
    /// How many ordinals have a posted request or a posting, but not both, or two that differ.
    pub unmatched: u64,
    /// The branches that aren't the sums of their tellers.
    pub lines: BranchLines,
}

impl Audit {
    /// Whether the consistency condition holds of the tables (TPC-B clause 2).
    pub fn is_consistent(&self) -> bool
        ensures { result ≡ is_sound self.now }
    {
        self.teller_sum == self.account_sum
            && self.branch_sum == self.account_sum
            && self.history_sum == self.account_sum
            && self.lines.as_slice().is_empty()
            && self.unmatched == 0
    }
}
