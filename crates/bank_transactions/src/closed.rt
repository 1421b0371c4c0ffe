//! What closed books say of requests, by the closed numbers, which are read once and remembered.
ghost use Rattle.std.specs.Prelude.{◌≡◌, [], IfSome, List, OnOk, map, ⊤};
ghost use Rattle.std.specs.List.{AllByRecursion};
ghost use Rattle.posting_rules.specs.declared.rows.ClosingRow.{ClosingRow as Run};
ghost use Rattle.posting_batch.specs.declared.slots.RequestSlot.{RequestSlot as Slot};
ghost use Rattle.bank_transactions.specs.Doing.{Reads, ReadsWhere};
ghost use Rattle.bank_transactions.specs.Filling.{TellsBooks, books_filled, handing, unbooked};
ghost use Rattle.bank_transactions.specs.Gathering.{Gathers, ReadsAs};
ghost use Rattle.sqlite.specs.Effect.{Database};
ghost use Rattle.bank_transactions.specs.Memory.{Fits, OfClosingTree, Remembers};
ghost use Rattle.bank_transactions.specs.believed.Stored.{HasNumbers};

use crate::Memory;
use crate::gathering::{Gather, gather_closings};
use posting_batch::RequestSlot;
use posting_rules::{Books, ClosingRow, NumberRuns, books_of};
use smallvec::SmallVec;
use sqlite::{Alter, Transaction};
use std::alloc::Global;
use std::slice;
use store_rows::TableFault;

// Closed numbers, as long as there is memory for them.
#[derive(Drop)]
struct Kept {
    rows: Option<Vec<ClosingRow>>,
}

impl Gather for Kept {
    ghost Core = { Unit {0} };

    ghost core = { λ _. tt {0} };

    ghost Told = { λ runs kept. IfSome kept.rows (λ rows. rows.items ≡ runs) };

    fn add(&mut self, row: &ClosingRow) {
        let Some(mut rows) = self.rows.take() else {
            return;
        };
        if rows.push(*row).is_ok() {
            self.rows = Some(rows);
        }
    }
}

/// Something that says what closed books say of a request.
trait Tells {
    ghost told: { Self → Slot → Slot };

    /// The slot with that.
    fn tell(&self, slot: RequestSlot) -> RequestSlot
        ensures { result ≡ told self.now slot };
}

/// Nothing yet.
struct Unread;

impl Tells for Unread {
    ghost told = { λ _ slot. unbooked slot };

    fn tell(&self, slot: RequestSlot) -> RequestSlot {
        RequestSlot {
            books: Books::Current,
            ..slot
        }
    }
}

/// One row more.
impl Tells for ClosingRow {
    ghost use Rattle.bank_transactions.specs.Filling.{told_more};

    ghost told = { told_more };

    fn tell(&self, slot: RequestSlot) -> RequestSlot {
        let own = books_of(slice::from_ref(self), slot.teller, slot.number);
        let books = match own {
            Books::Closed => Books::Closed,
            Books::Sealed if slot.books == Books::Current => Books::Sealed,
            _ => slot.books,
        };
        RequestSlot { books, ..slot }
    }
}

/// All closed numbers.
impl Tells for NumberRuns {
    ghost use Rattle.bank_transactions.specs.Filling.{told_by};

    ghost told = { told_by };

    fn tell(&self, slot: RequestSlot) -> RequestSlot {
        let books = self.books(slot.teller, slot.number);
        RequestSlot { books, ..slot }
    }
}

// Tells it in each slot.
fn tell_all<T: Tells>(teller: &T, slots: &mut [RequestSlot])
    ensures { slots.new ≡ map (T.told teller.now) slots.old }
{
    for slot in slots.iter_mut() {
        *slot = teller.tell(*slot);
    }
}

/// Slots tell of the rows that were read.
impl Gather for SmallVec<RequestSlot, 1> {
    ghost Core = { List Slot };

    ghost core = { λ slots. map unbooked slots.items };

    ghost Told = { λ runs slots. AllByRecursion (TellsBooks runs) slots.items };

    fn add(&mut self, row: &ClosingRow) {
        tell_all(row, self);
    }
}

// Notes closed numbers that were all read, as long as there is memory for them.
fn note_read(memory: &mut Memory, alloc: Global, kept: Kept)
    ensures { (db : Database) (runs : List Run) → IfSome kept.rows (λ rows. rows.items ≡ runs)
        → OfClosingTree (λ rows. ReadsAs rows runs) db → Fits db memory.old → Fits db memory.new }
{
    let Some(rows) = kept.rows else {
        return;
    };
    if let Ok(closed) = NumberRuns::of(alloc, rows) {
        memory.note_closed(closed);
    }
}

// Reads the closed numbers where they aren't remembered, and remembers them if there is memory for them.
fn remember_closed<S: Alter>(
    tx: &mut Transaction<'_, S>,
    memory: &mut Memory,
) -> Result<(), TableFault>
    requires { ∥ Remembers S.Store tx.old.conn.now memory.old ∥₁ }
    ensures says { ReadsWhere S.Store tx.old tx.new (λ _. ⊤) (λ _. tt {0}) result }
    ensures remembers { OnOk result (∥ Remembers S.Store tx.new.conn.now memory.new ∥₁) }
{
    if memory.closed.is_some() {
        return Ok(());
    }
    let Some(alloc) = memory.alloc else {
        return Ok(());
    };
    let mut kept = Kept {
        rows: Some(Vec::new(alloc)),
    };
    gather_closings(tx, &mut kept)?;
    note_read(memory, alloc, kept);
    Ok(())
}

// Tells in each slot what closed books say, by what is remembered of them or by all rows.
fn tell_books<S: Alter>(
    tx: &mut Transaction<'_, S>,
    memory: &Memory,
    slots: &mut SmallVec<RequestSlot, 1>,
) -> Result<(), TableFault>
    requires { ∥ Remembers S.Store tx.old.conn.now memory.now ∥₁ }
    ensures says { ReadsWhere S.Store tx.old tx.new (λ _. ⊤) (λ _. tt {0}) result }
    ensures same { map unbooked slots.new.items ≡ map unbooked slots.old.items }
    ensures closed { OnOk result (Gathers S.Store tx.old tx.new HasNumbers
        (λ runs. AllByRecursion (TellsBooks runs) slots.new.items)) }
{
    match &memory.closed {
        Some(closed) => {
            tell_all(closed, slots);
            Ok(())
        }
        None => {
            tell_all(&Unread, slots);
            gather_closings(tx, slots)
        }
    }
}

/// Fills the slots of requests with what closed books say of them. The tables are asked where it isn't remembered.
pub(crate) fn fill_books<S: Alter>(
    tx: &mut Transaction<'_, S>,
    memory: &mut Memory,
    slots: &mut SmallVec<RequestSlot, 1>,
) -> Result<(), TableFault>
    requires { ∥ Remembers S.Store tx.old.conn.now memory.old ∥₁ }
    ensures says { Reads S.Store tx.old tx.new (λ tables. map (books_filled tables) slots.old.items)
        (handing slots.new.items result) }
    ensures same { map unbooked slots.new.items ≡ map unbooked slots.old.items }
    ensures closed { OnOk result (Gathers S.Store tx.old tx.new HasNumbers
        (λ runs. AllByRecursion (TellsBooks runs) slots.new.items)) }
    ensures remembers { OnOk result (∥ Remembers S.Store tx.new.conn.now memory.new ∥₁) }
{
    remember_closed(tx, memory)?;
    tell_books(tx, memory, slots)
}
