//! Postings of all accounts, gathered in memory.
ghost use Rattle.std.specs.Prelude.{◌≡◌, [], All, IfErr, IfOk};
ghost use Rattle.std.specs.Bool.{MatchBool};
ghost use Rattle.posting_rules.specs.declared.fault.Fault.TheVariants.{Memory};
ghost use Rattle.bank_reports.specs.AllPostings.{IsNoAccount, IsOfAccount};
ghost use Rattle.bank_reports.specs.Gathering.{IsByAccount};

use crate::fault::ReportFault;
use crate::visitors::Visitor;
use message_records::MAX_ACCOUNT;
use posting_core::Sink;
use posting_rules::{Fault, Rule};
use std::alloc::Global;
use walked_rows::StatedPosting;

/// The postings that were visited so far.
#[derive(Drop)]
pub(crate) struct Gathered {
    rows: Vec<StatedPosting>,
}

// Whether a posting is of an account, by its number.
fn is_of_account(row: &StatedPosting) -> bool
    ensures { MatchBool result (IsOfAccount row.now) (IsNoAccount row.now.posting.account) }
{
    let number = row.posting.account;
    if number < 1 {
        return false;
    }
    number <= MAX_ACCOUNT as i64
}

impl Gathered {
    /// No posting is gathered yet.
    pub(crate) fn none(alloc: Global) -> Gathered
        ensures { result.rows.items ≡ [] }
    {
        Gathered {
            rows: Vec::new(alloc),
        }
    }

    /// The gathered postings by their accounts, those of each in the order in which they were visited.
    pub(crate) fn by_account(self) -> Result<Vec<StatedPosting>, Fault>
        requires { All IsOfAccount self.rows.items }
        ensures sorted { IfOk result (λ rows. IsByAccount self.rows.items rows.items) }
        ensures refused { IfErr result (λ fault. fault ≡ Memory) }
    {
        let mut rows = self.rows;
        rows.sort_by_key(|row| row.posting.account.unsigned_abs())?;
        Ok(rows)
    }
}

/// Each posting is kept, and nothing is written.
impl Visitor for Gathered {
    ghost use Rattle.std.specs.Prelude.{⊤};
    ghost use Rattle.bank_reports.specs.Gathering.{HasGathered, RefusesRow};

    ghost Visited = { HasGathered };

    ghost Refused = { RefusesRow };

    ghost TakesMemory = { ⊤ };

    fn visit<W: Sink>(&mut self, row: &StatedPosting, writer: &mut W) -> Result<(), ReportFault> {
        if !is_of_account(row) {
            return Err(ReportFault::Bank(Fault::Damaged(Rule::Value)));
        }
        match self.rows.push(*row) {
            Ok(()) => Ok(()),
            Err(_) => Err(ReportFault::Bank(Fault::Memory)),
        }
    }
}
