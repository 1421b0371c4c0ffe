//! A pass over all rows of a kind.
ghost use Rattle.std.specs.Prelude.{◌≡◌, [], List, IfOk, map};
ghost use Rattle.sqlite.specs.State.{HasCleanDisk};
ghost use Rattle.report_contents.specs.Beside.{AuditRows};
ghost use Rattle.bank_store.specs.believed.Seen.{database_of, file_of};
ghost use Rattle.bank_reports.specs.Adding.{AddsToSums, HasSums};
ghost use Rattle.bank_reports.specs.Leaving.{ReadsTable, as_report};

use crate::gathered::add_rows;
use crate::sums::{Summed, Sums};
use bank_store::{Bank, each_row};
use posting_rules::Fault;
use sqlite::Alter;

/// Adds all rows of a kind that a bank has. A fault leaves the bank as it was.
pub(crate) fn add_each<S: Alter, R: Summed>(
    bank: &mut Bank<S>,
    sums: &mut Sums,
) -> Result<(), Fault>
    requires { (rows : AuditRows) × HasSums sums.old (R.Summed.with_rows rows []) }
    ensures added { IfOk result
        (λ _. (given : List R) × AddsToSums R.Summed.with_rows sums.old sums.new given
        × (HasCleanDisk (file_of bank.new) → (all : List R.WalkedRow.Item)
        → R.WalkedRow.HasItems (database_of S.Store bank.old) all
        → map R.WalkedRow.item given ≡ all)) }
    ensures reads { ReadsTable S.Store R.WalkedRow.HasItems R.WalkedRow.Breaks bank.old bank.new (as_report result) }
{
    let mut walk = each_row::<S, R>(bank)?;
    add_rows(&mut walk, sums)
}
