//! Rows of a walk that are added up.
ghost use Rattle.std.specs.Prelude.{◌≡◌, [], List, IfOk, map};
ghost use Rattle.sqlite.specs.State.{HasCleanDisk};
ghost use Rattle.report_contents.specs.Beside.{AuditRows};
ghost use Rattle.walked_rows.specs.Rows.{LEAST};
ghost use Rattle.bank_store.specs.Walking.{ComesFrom, HasToldFault, items_to_come, lent, lent_state, loan_of};
ghost use Rattle.bank_reports.specs.Adding.{AddsToSums, HasSums};
ghost use Rattle.bank_reports.specs.Leaving.{ReadsRows, as_report};
ghost use Rattle.walked_rows.specs.Broken.{HasBroken};

use crate::sums::{Summed, Sums};
use bank_store::Walk;
use posting_rules::{Fault, Rule};
use sqlite::Alter;

/// Adds the rows that a walk gives. A fault leaves the bank as it was.
pub(crate) fn add_rows<S: Alter, R: Summed>(
    walk: &mut Walk<'_, S, R>,
    sums: &mut Sums,
) -> Result<(), Fault>
    requires has { (rows : AuditRows) × HasSums sums.old (R.Summed.with_rows rows []) }
    requires rises { ComesFrom (λ r. R.WalkedRow.key (R.WalkedRow.item r)) LEAST walk.old }
    requires fresh { HasToldFault walk.old → ⊥ }
    ensures same_reference { loan_of walk.new ≡ loan_of walk.old }
    ensures added { IfOk result (λ _. (given : List R) × AddsToSums R.Summed.with_rows sums.old sums.new given
        × (HasCleanDisk (lent_state S.Store walk.new) → (all : List R.WalkedRow.Item)
        → R.WalkedRow.HasItems (lent_state S.Store walk.old).now all
        → map R.WalkedRow.item given
        ≡ items_to_come R.WalkedRow.key R.WalkedRow.item R.WalkedRow.is_given all walk.old)) }
    ensures reads { ReadsRows S.Store R.WalkedRow.HasItems (λ all rule. HasBroken (R.WalkedRow.Breaks rule)
        (items_to_come R.WalkedRow.key R.WalkedRow.item R.WalkedRow.is_given all walk.old)) ⊥ (lent walk.old)
        (lent walk.new) (as_report result) }
{
    'rows: for _ in 0..u64::MAX {
        let Some(row) = walk.next()? else {
            return Ok(());
        };
        // Only whoever reads a number knows that it's in its range: so there is room for the row.
        let _number = row.number();
        row.add_to(sums);
    }
    // No table has so many keys.
    Err(Fault::Damaged(Rule::Value))
}
