//! The slots of records are filled from the tables, each key read once.
ghost use Rattle.std.specs.Prelude.{◌≡◌, ⊤, IfOk, List, OnOk, map};
ghost use Rattle.std.specs.List.{AllByRecursion};
ghost use Rattle.std.specs.Option.{option_map};
ghost use Rattle.sqlite.specs.Held.{state};
ghost use Rattle.sqlite.specs.State.{HasCleanDisk};
ghost use Rattle.posting_rules.specs.believed.Numbering.{branch_of_teller, branch_of_account};
ghost use Rattle.posting_rules.specs.believed.Damage.{IsUndamaged};
ghost use Rattle.posting_rules.specs.believed.LookUps.{account_balance_in, balance_of_teller};
ghost use Rattle.posting_rules.specs.believed.Tables.{Tables, row_at, teller_key};
ghost use Rattle.posting_batch.specs.declared.slots.BranchSlot.{BranchSlot};
ghost use Rattle.posting_batch.specs.declared.slots.FloorSlot.{FloorSlot};
ghost use Rattle.posting_batch.specs.Batch.{HasHomes, filled};
ghost use Rattle.bank_transactions.specs.Filling.{RowsAreKnown, known, with_rows};
ghost use Rattle.posting_batch.specs.View.{view};
ghost use Rattle.bank_transactions.specs.Causes.{IsFirstDamaged};
ghost use Rattle.bank_transactions.specs.Doing.{Reads, ReadsBy, ReadsWhere};
ghost use Rattle.store_rows.specs.believed.Rules.{OfRows, StoredRows};
ghost use Rattle.bank_transactions.specs.Filling.{handing, HasBranch, HoldsBranch, TellsBranch};
ghost use Rattle.bank_transactions.specs.Filling.{AreHeld, HasOwnRow, TellsFloor, TellsStored};
ghost use Rattle.bank_transactions.specs.Filling.{TellsBooks, emptied, unbooked};
ghost use Rattle.bank_transactions.specs.Gathering.{Gathers};
ghost use Rattle.bank_transactions.specs.believed.Stored.{HasNumbers};
ghost use Rattle.bank_transactions.specs.believed.Stored.{HoldsAccount, HoldsFloor};
ghost use Rattle.bank_transactions.specs.Memory.{Remembers};
ghost use Rattle.bank_transactions.specs.Stored.{HoldsTellerRow};

use crate::closed::fill_books;
use crate::floors::{balance_and_floor, is_below, known_floor};
use crate::known::{known_balance, known_decided};
use crate::look_ups::known_branch;
use crate::{Memory, kept_request, teller_balances};
use message_records::{Account, Cents, Teller};
use posting_batch::{
    AccountSlot, BranchSlot, FloorSlot, Overlay, RequestSlot, TellerSlot, stored_branch,
    stored_floor,
};
use posting_rules::{BranchRow, branch_of_account, branch_of_teller, place_of_account};
use sqlite::{Alter, Transaction};
use store_rows::{Member, TableFault};

// What a look-up finds.
type Read<T> = Result<T, TableFault>;

/// A slot, and what is in the tables under its key.
trait Slot: Copy {
    /// The slot with what is in the tables under its key.
    ghost filled_from: { Tables → Self → Self };

    /// What slots of branches say of the branch that its key gives, where it gives one.
    ghost Knows: { List BranchSlot → Tables → Self → Type 0 };

    /// The slot without what it is filled with.
    ghost bare: { Self → Self };

    /// What the slots of branches and of floors say of that branch is what the rows hold, whatever they are.
    ghost KnowsRow: { List BranchSlot → List FloorSlot → StoredRows → Self → Type 0 };

    /// The slot has what the rows hold under its key.
    ghost Held: { StoredRows → Self → Type 0 };

    /// What it is filled with is its own, whatever the rows hold.
    ghost Own: { Self → Type 0 };

    /// Fills it, by the slots of branches and of floors. The tables are asked where a row isn't remembered.
    fn fill<S: Alter>(
        self,
        tx: &mut Transaction<'_, S>,
        memory: &mut Memory,
        branches: &[BranchSlot],
        floors: &[FloorSlot],
    ) -> Read<Self>
        requires { ∥ Remembers S.Store tx.old.conn.now memory.old ∥₁ }
        ensures says { ReadsWhere S.Store tx.old tx.new
            (λ tables. IsUndamaged tables × Knows branches.now tables self)
            (λ tables. filled_from tables self) result }
        ensures same { IfOk result (λ slot. bare slot ≡ bare self) }
        ensures stored { IfOk result (λ slot. HasCleanDisk (state S.Store tx.new.conn.now)
            → OfRows (λ rows. KnowsRow branches.now floors.now rows self → Held rows slot)
            (state S.Store tx.old.conn.now).now) }
        ensures own { IfOk result (λ slot. HasCleanDisk (state S.Store tx.new.conn.now) → Own slot) }
        ensures remembers { OnOk result (∥ Remembers S.Store tx.new.conn.now memory.new ∥₁) };
}

impl Slot for BranchSlot {
    ghost use Rattle.posting_batch.specs.Batch.{branch_filled};
    ghost use Rattle.bank_transactions.specs.Filling.{BranchHeld, HasOwnRow, emptied_branch};

    ghost filled_from = { branch_filled };

    ghost Knows = { λ _ _ _. ⊤ };

    ghost bare = { emptied_branch };

    ghost KnowsRow = { λ _ _ _ _. ⊤ };

    ghost Held = { BranchHeld };

    ghost Own = { HasOwnRow };

    fn fill<S: Alter>(
        self,
        tx: &mut Transaction<'_, S>,
        memory: &mut Memory,
        _branches: &[BranchSlot],
        _floors: &[FloorSlot],
    ) -> Read<Self> {
        let stored = known_branch(tx, memory, self.branch)?;
        Ok(BranchSlot { stored, ..self })
    }
}

impl Slot for FloorSlot {
    ghost use Rattle.posting_batch.specs.Batch.{floor_filled};
    ghost use Rattle.bank_transactions.specs.Filling.{FloorHeld, emptied_floor};

    ghost filled_from = { floor_filled };

    ghost Knows = { λ _ _ _. ⊤ };

    ghost bare = { emptied_floor };

    ghost KnowsRow = { λ _ _ _ _. ⊤ };

    ghost Held = { FloorHeld };

    ghost Own = { λ _. ⊤ };

    fn fill<S: Alter>(
        self,
        tx: &mut Transaction<'_, S>,
        memory: &mut Memory,
        _branches: &[BranchSlot],
        _floors: &[FloorSlot],
    ) -> Read<Self> {
        let floor = known_floor(tx, memory, self.branch)?;
        Ok(FloorSlot { floor, ..self })
    }
}

// The balance of a teller, none where it isn't open, looked up together with the row of its branch.
fn teller_beside<S: Alter>(tx: &mut Transaction<'_, S>, teller: Teller) -> Read<Option<Cents>>
    ensures says { Reads S.Store tx.old tx.new
        (λ tables. option_map balance_of_teller (row_at teller_key tables.tellers teller)) result }
    ensures stored { IfOk result (λ balance. HasCleanDisk (state S.Store tx.new.conn.now)
        → OfRows (λ rows. HoldsTellerRow rows teller balance) (state S.Store tx.old.conn.now).now) }
{
    match teller_balances(tx, teller)? {
        Some((balance, _)) => Ok(Some(balance)),
        None => Ok(None),
    }
}

// The balance of a teller, none where it isn't open, by the row of its branch. Where the two don't belong
// together, both are looked up again, so that one read reports it.
fn teller_within<S: Alter>(
    tx: &mut Transaction<'_, S>,
    memory: &mut Memory,
    teller: Teller,
    branch: Option<BranchRow>,
) -> Read<Option<Cents>>
    requires { ∥ Remembers S.Store tx.old.conn.now memory.old ∥₁ }
    ensures says { ReadsWhere S.Store tx.old tx.new (HasBranch branch (branch_of_teller teller))
        (λ tables. option_map balance_of_teller (row_at teller_key tables.tellers teller)) result }
    ensures stored { IfOk result (λ balance. HasCleanDisk (state S.Store tx.new.conn.now)
        → OfRows (λ rows. HoldsBranch rows (branch_of_teller teller) branch
        → HoldsTellerRow rows teller balance) (state S.Store tx.old.conn.now).now) }
    ensures remembers { OnOk result (∥ Remembers S.Store tx.new.conn.now memory.new ∥₁) }
{
    let balance = known_balance(tx, memory, &Member::Teller(teller))?;
    if balance.is_some() != branch.is_some() {
        return teller_beside(tx, teller);
    }
    Ok(balance)
}

// The balance of an account, none where it isn't open, looked up together with the rows of its branch.
fn account_beside<S: Alter>(tx: &mut Transaction<'_, S>, account: Account) -> Read<Option<Cents>>
    ensures says { Reads S.Store tx.old tx.new (λ tables. account_balance_in tables account) result }
    ensures stored { IfOk result (λ balance. HasCleanDisk (state S.Store tx.new.conn.now)
        → OfRows (λ rows. HoldsAccount rows account balance) (state S.Store tx.old.conn.now).now) }
{
    let (balance, _) = balance_and_floor(tx, account)?;
    Ok(balance)
}

// The balance of an account, none where it isn't open. An open one has its place within the count of its branch, and
// isn't below the branch's floor.
fn account_within<S: Alter>(
    tx: &mut Transaction<'_, S>,
    memory: &mut Memory,
    account: Account,
    branch: Option<BranchRow>,
    floor: Option<Cents>,
) -> Read<Option<Cents>>
    requires { ∥ Remembers S.Store tx.old.conn.now memory.old ∥₁ }
    ensures says { ReadsWhere S.Store tx.old tx.new (HasBranch branch (branch_of_account account))
        (λ tables. account_balance_in tables account) result }
    ensures stored { IfOk result (λ balance. HasCleanDisk (state S.Store tx.new.conn.now)
        → OfRows (λ rows. HoldsBranch rows (branch_of_account account) branch
        × HoldsFloor rows (branch_of_account account) floor
        → HoldsAccount rows account balance) (state S.Store tx.old.conn.now).now) }
    ensures remembers { OnOk result (∥ Remembers S.Store tx.new.conn.now memory.new ∥₁) }
{
    let balance = known_balance(tx, memory, &Member::Account(account))?;
    let is_open = match branch {
        Some(branch) => place_of_account(account) <= u64::from(branch.accounts),
        None => false,
    };
    if balance.is_some() != is_open || is_below(&balance, &floor) {
        return account_beside(tx, account);
    }
    Ok(balance)
}

impl Slot for TellerSlot {
    ghost use Rattle.posting_batch.specs.Batch.{teller_filled};
    ghost use Rattle.bank_transactions.specs.Filling.{TellerHeld, emptied_teller};

    ghost filled_from = { teller_filled };

    ghost Knows = { λ slots tables slot. TellsBranch slots tables (branch_of_teller slot.teller) };

    ghost bare = { emptied_teller };

    ghost KnowsRow = { λ slots _ rows slot. TellsStored slots rows (branch_of_teller slot.teller) };

    ghost Held = { TellerHeld };

    ghost Own = { λ _. ⊤ };

    fn fill<S: Alter>(
        self,
        tx: &mut Transaction<'_, S>,
        memory: &mut Memory,
        branches: &[BranchSlot],
        _floors: &[FloorSlot],
    ) -> Read<Self> {
        let branch = stored_branch(branches, branch_of_teller(self.teller));
        let stored = teller_within(tx, memory, self.teller, branch)?;
        Ok(TellerSlot { stored, ..self })
    }
}

impl Slot for AccountSlot {
    ghost use Rattle.posting_batch.specs.Batch.{account_filled};
    ghost use Rattle.bank_transactions.specs.Filling.{AccountHeld, emptied_account};

    ghost filled_from = { account_filled };

    ghost Knows = { λ slots tables slot. TellsBranch slots tables (branch_of_account slot.account) };

    ghost bare = { emptied_account };

    ghost KnowsRow = { λ slots floors rows slot. TellsStored slots rows (branch_of_account slot.account)
        × TellsFloor floors rows (branch_of_account slot.account) };

    ghost Held = { AccountHeld };

    ghost Own = { λ _. ⊤ };

    fn fill<S: Alter>(
        self,
        tx: &mut Transaction<'_, S>,
        memory: &mut Memory,
        branches: &[BranchSlot],
        floors: &[FloorSlot],
    ) -> Read<Self> {
        let number = branch_of_account(self.account);
        let branch = stored_branch(branches, number);
        let floor = stored_floor(floors, number);
        let stored = account_within(tx, memory, self.account, branch, floor)?;
        Ok(AccountSlot { stored, ..self })
    }
}

impl Slot for RequestSlot {
    ghost use Rattle.bank_transactions.specs.Filling.{RequestHeld, kept_filled, unkept};

    ghost filled_from = { kept_filled };

    ghost Knows = { λ _ _ _. ⊤ };

    ghost bare = { unkept };

    ghost KnowsRow = { λ _ _ _ _. ⊤ };

    ghost Held = { RequestHeld };

    ghost Own = { λ _. ⊤ };

    fn fill<S: Alter>(
        self,
        tx: &mut Transaction<'_, S>,
        _memory: &mut Memory,
        _branches: &[BranchSlot],
        _floors: &[FloorSlot],
    ) -> Read<Self> {
        let kept = kept_request(tx, self.teller, self.number)?;
        Ok(RequestSlot { kept, ..self })
    }
}

// Fills slots, by those of branches and of floors.
fn fill_all<S: Alter, T: Slot>(
    tx: &mut Transaction<'_, S>,
    memory: &mut Memory,
    slots: &mut [T],
    branches: &[BranchSlot],
    floors: &[FloorSlot],
) -> Read<()>
    requires { ∥ Remembers S.Store tx.old.conn.now memory.old ∥₁ }
    ensures says { ReadsWhere S.Store tx.old tx.new
        (λ tables. IsUndamaged tables × AllByRecursion (T.Knows branches.now tables) slots.old)
        (λ tables. map (T.filled_from tables) slots.old) (handing slots.new result) }
    ensures same { OnOk result (map T.bare slots.new ≡ map T.bare slots.old) }
    ensures stored { OnOk result (HasCleanDisk (state S.Store tx.new.conn.now)
        → OfRows (λ rows. AllByRecursion (T.KnowsRow branches.now floors.now rows) slots.old
        → AllByRecursion (T.Held rows) slots.new) (state S.Store tx.old.conn.now).now) }
    ensures own { OnOk result (HasCleanDisk (state S.Store tx.new.conn.now) → AllByRecursion T.Own slots.new) }
    ensures remembers { OnOk result (∥ Remembers S.Store tx.new.conn.now memory.new ∥₁) }
{
    for slot in slots.iter_mut() {
        *slot = (*slot).fill(tx, memory, branches, floors)?;
    }
    Ok(())
}

// Fills the slots of an overlay but for what is kept of requests with what is in the tables under their keys, and how
// many requests are decided.
fn fill_rows<S: Alter>(
    tx: &mut Transaction<'_, S>,
    memory: &mut Memory,
    overlay: &mut Overlay,
) -> Result<(), TableFault>
    requires { ∥ Remembers S.Store tx.old.conn.now memory.old ∥₁ }
    ensures new_rows { (overlay.new.history ≡ overlay.old.history)
        × (overlay.new.requests ≡ overlay.old.requests)
        × (overlay.new.references ≡ overlay.old.references) × (overlay.new.kept ≡ overlay.old.kept) }
    ensures says { ReadsBy (IsFirstDamaged S.Store) S.Store tx.old tx.new
        (λ tables. IsUndamaged tables × HasHomes (view overlay.old))
        (λ tables. with_rows tables (view overlay.old)) (handing (view overlay.new) result) }
    ensures same { OnOk result (emptied (view overlay.new) ≡ emptied (view overlay.old)) }
    // Whatever rows the file holds.
    ensures stored { OnOk result (HasCleanDisk (state S.Store tx.new.conn.now)
        → HasHomes (view overlay.old)
        → OfRows (λ rows. RowsAreKnown rows (view overlay.new)) (state S.Store tx.old.conn.now).now) }
    ensures own { OnOk result (HasCleanDisk (state S.Store tx.new.conn.now)
        → AllByRecursion HasOwnRow (view overlay.new).branches) }
    ensures remembers { OnOk result (∥ Remembers S.Store tx.new.conn.now memory.new ∥₁) }
{
    overlay.decided = known_decided(tx, memory)?;
    fill_all(tx, memory, &mut overlay.branches, &[], &[])?;
    fill_all(tx, memory, &mut overlay.floors, &[], &[])?;
    fill_all(tx, memory, &mut overlay.tellers, &overlay.branches, &[])?;
    fill_all(
        tx,
        memory,
        &mut overlay.accounts,
        &overlay.branches,
        &overlay.floors,
    )
}

/// Fills an overlay but for what is kept of requests: each other slot with what is in the tables under its key, how many
/// requests are decided, and what closed books say.
pub(crate) fn fill_known<S: Alter>(
    tx: &mut Transaction<'_, S>,
    memory: &mut Memory,
    overlay: &mut Overlay,
) -> Result<(), TableFault>
    requires { ∥ Remembers S.Store tx.old.conn.now memory.old ∥₁ }
    ensures new_rows { (overlay.new.history ≡ overlay.old.history)
        × (overlay.new.requests ≡ overlay.old.requests)
        × (overlay.new.references ≡ overlay.old.references)
        × (map unbooked overlay.new.kept.items ≡ map unbooked overlay.old.kept.items) }
    ensures says { ReadsBy (IsFirstDamaged S.Store) S.Store tx.old tx.new
        (λ tables. IsUndamaged tables × HasHomes (view overlay.old))
        (λ tables. known tables (view overlay.old)) (handing (view overlay.new) result) }
    ensures same { OnOk result (emptied (view overlay.new) ≡ emptied (view overlay.old)) }
    // Whatever rows the file holds.
    ensures stored { OnOk result (HasCleanDisk (state S.Store tx.new.conn.now)
        → HasHomes (view overlay.old)
        → OfRows (λ rows. RowsAreKnown rows (view overlay.new)) (state S.Store tx.old.conn.now).now) }
    ensures own { OnOk result (HasCleanDisk (state S.Store tx.new.conn.now)
        → AllByRecursion HasOwnRow (view overlay.new).branches) }
    // What closed books say is by the numbers that the rows close.
    ensures closed { OnOk result (Gathers S.Store tx.old tx.new HasNumbers
        (λ runs. AllByRecursion (TellsBooks runs) overlay.new.kept.items)) }
    ensures remembers { OnOk result (∥ Remembers S.Store tx.new.conn.now memory.new ∥₁) }
{
    fill_rows(tx, memory, overlay)?;
    fill_books(tx, memory, &mut overlay.kept)
}

/// Fills an overlay: each slot with what is in the tables under its key, how many requests are decided, and what closed
/// books say.
pub fn fill<S: Alter>(
    tx: &mut Transaction<'_, S>,
    memory: &mut Memory,
    overlay: &mut Overlay,
) -> Result<(), TableFault>
    requires { ∥ Remembers S.Store tx.old.conn.now memory.old ∥₁ }
    ensures new_rows { (overlay.new.history ≡ overlay.old.history)
        × (overlay.new.requests ≡ overlay.old.requests)
        × (overlay.new.references ≡ overlay.old.references) }
    ensures says { ReadsBy (IsFirstDamaged S.Store) S.Store tx.old tx.new
        (λ tables. IsUndamaged tables × HasHomes (view overlay.old))
        (λ tables. filled tables (view overlay.old)) (handing (view overlay.new) result) }
    ensures same { OnOk result (emptied (view overlay.new) ≡ emptied (view overlay.old)) }
    // Whatever rows the file holds.
    ensures stored { OnOk result (HasCleanDisk (state S.Store tx.new.conn.now)
        → HasHomes (view overlay.old)
        → OfRows (λ rows. AreHeld rows (view overlay.new)) (state S.Store tx.old.conn.now).now) }
    ensures own { OnOk result (HasCleanDisk (state S.Store tx.new.conn.now)
        → AllByRecursion HasOwnRow (view overlay.new).branches) }
    // What closed books say is by the numbers that the rows close.
    ensures closed { OnOk result (Gathers S.Store tx.old tx.new HasNumbers
        (λ runs. AllByRecursion (TellsBooks runs) (view overlay.new).kept)) }
    ensures remembers { OnOk result (∥ Remembers S.Store tx.new.conn.now memory.new ∥₁) }
{
    fill_known(tx, memory, overlay)?;
    fill_all(tx, memory, &mut overlay.kept, &[], &[])
}
