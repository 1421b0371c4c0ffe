//! A row, or a slot, is changed under its key.
ghost use Rattle.std.specs.Prelude.{◌≡◌};
ghost use Rattle.posting_rules.specs.believed.Changes.{row_changed};
ghost use Rattle.posting_batch.specs.Slots.{slots_kept};

use crate::balances::BalanceRow;
use crate::slots::RequestSlot;
use message_records::{Cents, Number, Teller};
use posting_rules::Kept;

/// Gives the row under a number another balance.
pub fn change_at<R: BalanceRow>(rows: &mut [R], number: u64, balance: Cents)
    ensures { rows.new ≡ row_changed R.key (R.with_balance balance) number rows.old }
{
    for row in rows.iter_mut() {
        if row.number() == number {
            row.change(balance);
        }
    }
}

/// Keeps a request under its teller and number.
pub(crate) fn keep_at(slots: &mut [RequestSlot], teller: Teller, number: Number, kept: Kept)
    ensures { slots.new ≡ slots_kept teller number kept slots.old }
{
    for slot in slots.iter_mut() {
        if slot.is_for(teller, number) {
            slot.kept = Some(kept);
        }
    }
}
