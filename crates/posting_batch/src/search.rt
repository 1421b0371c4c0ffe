//! Rows and slots are found by walking: a batch has few of them.
ghost use Rattle.std.specs.Prelude.{◌≡◌};
ghost use Rattle.std.specs.List.{find};
ghost use Rattle.std.specs.Option.{option_map, unwrap_or};
ghost use Rattle.posting_rules.specs.believed.Tables.{row_at};
ghost use Rattle.posting_batch.specs.Slots.{books_in_slots, books_of_slot, slot_balance, kept_in_slots, is_for};
ghost use Rattle.posting_batch.specs.Slots.{kept_of_slot, row_of_slot};
ghost use Rattle.posting_batch.specs.Slots.{in_slot, branch_slot_key, floor_of_slot, floor_slot_key, slot_floor};

use crate::balances::BalanceRow;
use crate::slots::{BranchSlot, FloorSlot, RequestSlot};
use message_records::{Cents, Number, Teller};
use posting_rules::{Books, BranchRow, Kept};

// What the row under a number tells of its balance.
fn told_at<R: BalanceRow>(rows: &[R], number: u64) -> Option<Option<Cents>>
    ensures { result ≡ option_map R.balance_in (row_at R.key rows.now number) }
{
    rows.iter()
        .find(|row| row.number() == number)
        .map(|row| row.balance())
}

/// The balance under a number, none where there is no row.
#[must_use]
pub fn balance_at<R: BalanceRow>(rows: &[R], number: u64) -> Option<Cents>
    ensures { result ≡ slot_balance R.key R.balance_in rows.now number }
{
    told_at(rows, number).flatten()
}

// What the slot of a branch tells of its row.
fn told_branch(slots: &[BranchSlot], number: u64) -> Option<Option<BranchRow>>
    ensures { result ≡ option_map row_of_slot (row_at branch_slot_key slots.now number) }
{
    slots
        .iter()
        .find(|slot| slot.branch == number)
        .map(|slot| slot.stored)
}

/// The row of a branch as its slot was filled; none where it has no row, or no slot.
#[must_use]
pub fn stored_branch(slots: &[BranchSlot], number: u64) -> Option<BranchRow>
    ensures { result ≡ in_slot row_of_slot (row_at branch_slot_key slots.now number) }
{
    told_branch(slots, number).flatten()
}

// What the slot of a floor tells.
fn told_floor(slots: &[FloorSlot], number: u64) -> Option<Option<Cents>>
    ensures { result ≡ option_map floor_of_slot (row_at floor_slot_key slots.now number) }
{
    slots
        .iter()
        .find(|slot| slot.branch == number)
        .map(|slot| slot.floor)
}

/// The floor of a branch's accounts as its slot was filled; none where they have none, or there is no slot.
#[must_use]
pub fn stored_floor(slots: &[FloorSlot], number: u64) -> Option<Cents>
    ensures { result ≡ slot_floor slots.now number }
{
    told_floor(slots, number).flatten()
}

impl RequestSlot {
    ghost use Rattle.posting_batch.specs.Slots.{is_for};

    // Tests whether the slot is that of a teller and a number.
    pub(crate) fn is_for(&self, teller: Teller, number: Number) -> bool
        ensures { result ≡ is_for teller number self.now }
    {
        self.teller == teller && self.number == number
    }
}

// What the slot of a teller and a number tells.
fn told_for(slots: &[RequestSlot], teller: Teller, number: Number) -> Option<Option<Kept>>
    ensures { result ≡ option_map kept_of_slot (find (is_for teller number) slots.now) }
{
    slots
        .iter()
        .find(|slot| slot.is_for(teller, number))
        .map(|slot| slot.kept)
}

/// The request that is kept under a teller and a number.
pub(crate) fn kept_at(slots: &[RequestSlot], teller: Teller, number: Number) -> Option<Kept>
    ensures { result ≡ kept_in_slots slots.now teller number }
{
    told_for(slots, teller, number).flatten()
}

// What the slot of a teller and a number tells of closed books.
fn told_books(slots: &[RequestSlot], teller: Teller, number: Number) -> Option<Books>
    ensures { result ≡ option_map books_of_slot (find (is_for teller number) slots.now) }
{
    slots
        .iter()
        .find(|slot| slot.is_for(teller, number))
        .map(|slot| slot.books)
}

/// What closed books say of a teller's number; nothing where there is no slot.
pub(crate) fn books_at(slots: &[RequestSlot], teller: Teller, number: Number) -> Books
    ensures { result ≡ books_in_slots slots.now teller number }
{
    told_books(slots, teller, number).unwrap_or(Books::Current)
}
