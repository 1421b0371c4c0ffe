//! What a batch has changed is written, each row once.
ghost use Rattle.std.specs.Mem.{type_size};
ghost use Rattle.std.specs.Prelude.{◌*◌, ◌^◌, ◌<◌, [], ◌∷◌, List, IfSome, IsTrue, OnOk};
ghost use Rattle.sqlite.specs.Held.{state};
ghost use Rattle.sqlite.specs.State.{HasCleanDisk};
ghost use Rattle.posting_rules.specs.believed.Tables.{Tables};
ghost use Rattle.posting_batch.specs.Overlay.{tables_over, accounts_over, tellers_over, branches_over};
ghost use Rattle.posting_batch.specs.Overlay.{history_put, requests_put, references_put};
ghost use Rattle.posting_batch.specs.View.{view};
ghost use Rattle.sqlite_rules.specs.Lists.{Has};
ghost use Rattle.store_rows.specs.believed.Failures.{Additions};
ghost use Rattle.posting_batch.specs.Slots.{account_slot_key, branch_slot_key, teller_slot_key};
ghost use Rattle.store_rows.specs.Holders.{HasRow, holder_update, with_balance};
ghost use Rattle.store_rows.specs.Lying.{Counts, holder_key};
ghost use Rattle.store_rows.specs.believed.Inserts.{account_update, branch_update, teller_update};
ghost use Rattle.store_rows.specs.SeveralRows.{PutsNew};
ghost use Rattle.bank_transactions.specs.believed.Additions.{AddsPostings, AddsReferences};
ghost use Rattle.bank_transactions.specs.Additions.{AddsAlike, AddsNew, ChangesEach};
ghost use Rattle.bank_transactions.specs.believed.Additions.{AddsRequests, WritesUnder};
ghost use Rattle.bank_transactions.specs.Additions.{adds_each, changes_each};
ghost use Rattle.bank_transactions.specs.Doing.{Does};
ghost use Rattle.bank_transactions.specs.Running.{RunsIfOk, Writes};
ghost use Rattle.bank_transactions.specs.Memory.{Follows};
ghost use Rattle.bank_transactions.specs.Noted.{KnowsWritten};
ghost use Rattle.bank_transactions.specs.declared.memory.Memory.{Memory};
ghost use Rattle.bank_transactions.specs.InTurn.{InParts, InTurn, accounts_in_turn, branches_in_turn};
ghost use Rattle.bank_transactions.specs.InTurn.{postings_in_parts, postings_in_turn, references_in_turn};
ghost use Rattle.bank_transactions.specs.InTurn.{tellers_in_turn};
ghost use Rattle.bank_transactions.specs.Writing.{MayChangeAccounts, MayChangeTellers, MayChangeBranches};
ghost use Rattle.bank_transactions.specs.Writing.{MayAddPostings, MayAddRequests, MayAddReferences};
ghost use Rattle.bank_transactions.specs.Writing.{MayWrite, MayWriteAfter, after_requests, by_change};

use crate::{Memory, write_balance, write_decided};
use message_records::{Branch, Cents};
use posting_batch::{AccountSlot, BranchSlot, Overlay, TellerSlot};
use posting_rules::{HistoryRow, ReferenceRow, RequestRow};
use sqlite::{Alter, Transaction};
use store_rows::{
    Holder, TableFault, add_eight_postings, add_eight_requests, add_history, add_reference,
    add_request,
};

/// A change of one table: a slot with what it has changed, or a row that is new.
trait Change {
    /// The tables with these changes made.
    ghost made: { List Self → Tables → Tables };

    /// These changes may be made to the tables.
    ghost May: { List Self → Tables → Type 0 };

    /// The rows that these changes put in.
    ghost Adds: { List Self → Additions };

    /// Makes it, in what is remembered too.
    fn make<S: Alter>(
        &self,
        tx: &mut Transaction<'_, S>,
        memory: &mut Memory,
    ) -> Result<(), TableFault>
        ensures writes { Writes S.Store (Adds (self.now ∷ [])) tx.old tx.new (May (self.now ∷ []))
            (made (self.now ∷ [])) result }
        ensures follows { Follows S.Store tx.old tx.new memory.old memory.new result };

    /// They may be made one after another, and come to the same.
    ghost in_turn: { InTurn made May };

    /// Some of them put in no other rows than all.
    ghost alike: { AddsAlike Adds };
}

/// A row that is new, one of many: eight are put in by one statement.
trait NewRow: Change {
    /// Puts eight in.
    fn make_eight<S: Alter>(tx: &mut Transaction<'_, S>, rows: &[Self; 8]) -> Result<(), TableFault>
        ensures writes { Writes S.Store (Self.Adds rows.now) tx.old tx.new (Self.May rows.now) (Self.made rows.now)
            result }
        ensures follows { (memory : Memory) → Follows S.Store tx.old tx.new memory memory result };

    /// They may be put in several at a time, and come to the same.
    ghost in_parts: { InParts Self.made Self.May };
}

// Writes the balance that a holder's row is to have, where a posting changes it, and remembers it.
fn write_change<S: Alter>(
    tx: &mut Transaction<'_, S>,
    memory: &mut Memory,
    holder: &Holder,
    changed: Option<Cents>,
) -> Result<(), TableFault>
    ensures writes { Writes S.Store (WritesUnder (holder_update holder.now) (holder_key holder.now)) tx.old tx.new
        (λ tables. IfSome changed (λ _. HasRow holder.now tables))
        (λ tables. by_change changed (λ balance. with_balance holder.now balance tables) tables) result }
    ensures follows { Follows S.Store tx.old tx.new memory.old memory.new result }
    ensures noted { OnOk result (IfSome changed (KnowsWritten memory.old memory.new holder.now)) }
{
    let Some(balance) = changed else {
        return Ok(());
    };
    write_balance(tx, *holder, balance)?;
    memory.change_balance(holder, balance);
    Ok(())
}

impl Change for AccountSlot {
    ghost made = { accounts_over };

    ghost May = { MayChangeAccounts };

    ghost Adds = { ChangesEach account_update account_slot_key };

    fn make<S: Alter>(
        &self,
        tx: &mut Transaction<'_, S>,
        memory: &mut Memory,
    ) -> Result<(), TableFault> {
        write_change(tx, memory, &Holder::Account(self.account), self.changed)
    }

    ghost in_turn = { accounts_in_turn };

    ghost alike = { changes_each _ _ };
}

impl Change for TellerSlot {
    ghost made = { tellers_over };

    ghost May = { MayChangeTellers };

    ghost Adds = { ChangesEach teller_update teller_slot_key };

    fn make<S: Alter>(
        &self,
        tx: &mut Transaction<'_, S>,
        memory: &mut Memory,
    ) -> Result<(), TableFault> {
        write_change(tx, memory, &Holder::Teller(self.teller), self.changed)
    }

    ghost in_turn = { tellers_in_turn };

    ghost alike = { changes_each _ _ };
}

impl Change for BranchSlot {
    ghost made = { branches_over };

    ghost May = { MayChangeBranches };

    ghost Adds = { ChangesEach branch_update branch_slot_key };

    fn make<S: Alter>(
        &self,
        tx: &mut Transaction<'_, S>,
        memory: &mut Memory,
    ) -> Result<(), TableFault> {
        // A number that is none of branches has no row to change: `May` refuses such a slot by its
        // `AreBranchNumbers`, where it is changed.
        match Branch::new(self.branch) {
            Some(branch) => write_change(tx, memory, &Holder::Branch(branch), self.changed),
            None => Ok(()),
        }
    }

    ghost in_turn = { branches_in_turn };

    ghost alike = { changes_each _ _ };
}

impl Change for HistoryRow {
    ghost made = { history_put };

    ghost May = { MayAddPostings };

    ghost Adds = { λ rows. AddsPostings (Has rows) };

    fn make<S: Alter>(
        &self,
        tx: &mut Transaction<'_, S>,
        _memory: &mut Memory,
    ) -> Result<(), TableFault> {
        add_history(tx, *self)
    }

    ghost in_turn = { postings_in_turn };

    ghost alike = { adds_each _ _ };
}

impl NewRow for HistoryRow {
    fn make_eight<S: Alter>(
        tx: &mut Transaction<'_, S>,
        rows: &[HistoryRow; 8],
    ) -> Result<(), TableFault> {
        add_eight_postings(tx, rows)
    }

    ghost in_parts = { postings_in_parts };
}

impl Change for ReferenceRow {
    ghost made = { references_put };

    ghost May = { MayAddReferences };

    ghost Adds = { λ rows. AddsReferences (Has rows) };

    fn make<S: Alter>(
        &self,
        tx: &mut Transaction<'_, S>,
        _memory: &mut Memory,
    ) -> Result<(), TableFault> {
        add_reference(tx, *self)
    }

    ghost in_turn = { references_in_turn };

    ghost alike = { adds_each _ _ };
}

// Makes changes, one after another.
fn make_all<S: Alter, C: Change>(
    tx: &mut Transaction<'_, S>,
    memory: &mut Memory,
    changes: &[C],
) -> Result<(), TableFault>
    ensures writes { Writes S.Store (C.Adds changes.now) tx.old tx.new (C.May changes.now) (C.made changes.now)
        result }
    ensures follows { Follows S.Store tx.old tx.new memory.old memory.new result }
{
    for change in changes {
        change.make(tx, memory)?;
    }
    Ok(())
}

// Puts rows in, eight by one statement, and the rest one by one.
fn make_rows<S: Alter, R: NewRow>(
    tx: &mut Transaction<'_, S>,
    memory: &mut Memory,
    rows: &[R],
) -> Result<(), TableFault>
    requires { 8 * type_size R.row < 2 ^ 63 }
    ensures writes { Writes S.Store (R.Adds rows.now) tx.old tx.new (R.May rows.now) (R.made rows.now) result }
    ensures follows { Follows S.Store tx.old tx.new memory.old memory.new result }
{
    let mut left = rows;
    while let Some((eight, rest)) = left.split_first_chunk::<8>() {
        R::make_eight(tx, eight)?;
        left = rest;
    }
    make_all(tx, memory, left)
}

// Puts requests in, one by one.
fn put_singly<S: Alter>(tx: &mut Transaction<'_, S>, rows: &[RequestRow]) -> Result<(), TableFault>
    ensures puts { Writes S.Store (AddsRequests (Has rows.now)) tx.old tx.new (MayAddRequests rows.now)
        (requests_put rows.now) result }
    ensures unknown { OnOk result (HasCleanDisk (state S.Store tx.new.conn.now)
        → IsTrue (state S.Store tx.old.conn.now).in_transaction
        → PutsNew (state S.Store tx.old.conn.now).now (state S.Store tx.new.conn.now).now rows.now) }
    ensures follows { (memory : Memory) → Follows S.Store tx.old tx.new memory memory result }
{
    for row in rows {
        add_request(tx, *row)?;
    }
    Ok(())
}

/// Puts the requests of a batch in, eight by one statement, and the rest one by one.
pub(crate) fn put_requests<S: Alter>(
    tx: &mut Transaction<'_, S>,
    rows: &[RequestRow],
) -> Result<(), TableFault>
    ensures puts { Does S.Store (AddsRequests (Has rows.now)) tx.old tx.new (MayAddRequests rows.now)
        (requests_put rows.now) (λ _. tt) result }
    // Whatever rows the file holds.
    ensures ran { RunsIfOk S.Store (AddsRequests (Has rows.now)) tx.old tx.new (MayAddRequests rows.now)
        (requests_put rows.now) result }
    ensures unknown { OnOk result (HasCleanDisk (state S.Store tx.new.conn.now)
        → IsTrue (state S.Store tx.old.conn.now).in_transaction
        → PutsNew (state S.Store tx.old.conn.now).now (state S.Store tx.new.conn.now).now rows.now) }
    ensures follows { (memory : Memory) → Follows S.Store tx.old tx.new memory memory result }
{
    let mut left = rows;
    while let Some((eight, rest)) = left.split_first_chunk::<8>() {
        add_eight_requests(tx, eight)?;
        left = rest;
    }
    put_singly(tx, left)
}

/// Writes the rest of what a batch has changed, each row once, and how many requests are decided. It is remembered.
pub(crate) fn write_after<S: Alter>(
    tx: &mut Transaction<'_, S>,
    memory: &mut Memory,
    overlay: &Overlay,
) -> Result<(), TableFault>
    ensures does { Does S.Store (AddsNew (view overlay.now)) tx.old tx.new (MayWriteAfter (view overlay.now))
        (after_requests (view overlay.now)) (λ _. tt) result }
    // Whatever rows the file holds.
    ensures ran { RunsIfOk S.Store (AddsNew (view overlay.now)) tx.old tx.new (MayWriteAfter (view overlay.now))
        (after_requests (view overlay.now)) result }
    ensures counts { OnOk result (Counts S.Store tx.old tx.new overlay.now.decided) }
    ensures follows { Follows S.Store tx.old tx.new memory.old memory.new result }
{
    make_all(tx, memory, &overlay.accounts)?;
    make_all(tx, memory, &overlay.tellers)?;
    make_all(tx, memory, &overlay.branches)?;
    make_rows(tx, memory, &overlay.history)?;
    make_all(tx, memory, &overlay.references)?;
    write_decided(tx, overlay.decided)?;
    memory.note(overlay.decided);
    Ok(())
}

/// Writes what a batch has changed, each row once, and how many requests are decided. It is remembered.
pub fn write<S: Alter>(
    tx: &mut Transaction<'_, S>,
    memory: &mut Memory,
    overlay: &Overlay,
) -> Result<(), TableFault>
    ensures does { Does S.Store (AddsNew (view overlay.now)) tx.old tx.new (MayWrite (view overlay.now))
        (tables_over (view overlay.now)) (λ _. tt) result }
    // Whatever rows the file holds.
    ensures ran { RunsIfOk S.Store (AddsNew (view overlay.now)) tx.old tx.new (MayWrite (view overlay.now))
        (tables_over (view overlay.now)) result }
    ensures counts { OnOk result (Counts S.Store tx.old tx.new overlay.now.decided) }
    ensures follows { Follows S.Store tx.old tx.new memory.old memory.new result }
{
    put_requests(tx, &overlay.requests)?;
    write_after(tx, memory, overlay)
}
