//! What is remembered of the rows of a bank's file from one call to the next.
ghost use Rattle.std.specs.Prelude.{◌<◌, ◌≤◌, IfSome};
ghost use Rattle.bank_transactions.specs.Known.{KnowsNothing};
ghost use Rattle.posting_rules.specs.declared.limits.TheConstants.{MAX_DECIDED};
ghost use Rattle.bank_transactions.specs.KnownRows.{AreLow};

use crate::known_rows::Known;
use message_records::{Branch, Cents};
use posting_batch::RequestSlot;
use posting_rules::{BranchRow, FloorRow, NumberRuns};
use std::alloc::Global;
use std::mem;
use store_rows::{Holder, Member};

// How many places a table has: two to the power of this. Keys of rows that are used together are apart: those of
// 1,000 branches, of the tellers of 100, and of 1,600 accounts of each of nine.
const BRANCH_BITS: u32 = 10;

const TELLER_BITS: u32 = 10;

const ACCOUNT_BITS: u32 = 14;

// What stands for the highest number of a teller whose request was tried in vain: above it no number is likely new.
const SENT_AGAIN: u64 = u64::MAX;

// A table of so many places. Where no memory is to be had, nothing is ever known.
fn table<V: Copy>(alloc: Global, bits: u32) -> Known<V>
    requires { bits < 64 }
    ensures { KnowsNothing result }
{
    match Known::with_places(alloc, bits) {
        Ok(known) => known,
        Err(_) => Known::none(),
    }
}

/// What is remembered of the rows that were read or written, so that they aren't asked for again. It holds as long as
/// nobody else writes the file.
pub struct Memory {
    // How many requests are decided.
    pub(crate) decided: Option<u64>,
    // The numbers that are closed, with the key of the seal.
    pub(crate) closed: Option<NumberRuns>,
    // The row of a branch, or that it has none.
    pub(crate) branches: Known<Option<BranchRow>>,
    // The row of a branch's floor, or that it has none.
    pub(crate) floors: Known<Option<FloorRow>>,
    // The balance of a teller's row, or that it has none.
    pub(crate) tellers: Known<Option<Cents>>,
    // The balance of an account's row, or that it has none.
    pub(crate) accounts: Known<Option<Cents>>,
    // The highest number that a teller is known to have sent.
    pub(crate) numbers: Known<u64>,
    // Where memory for the closed numbers comes from, if they are to be remembered.
    pub(crate) alloc: Option<Global>,
    ghost few: { ∥ IfSome decided (λ n. n ≤ MAX_DECIDED) ∥₁ },
    ghost low: { ∥ AreLow floors ∥₁ },
}

// It is written out, so that a caller does not prove again how each part is dropped.
impl Drop for Memory {
    fn drop(self) {
        let Memory {
            decided: _,
            closed: _,
            branches: _,
            floors: _,
            tellers: _,
            accounts: _,
            numbers: _,
            alloc: _,
        } = self;
    }
}

impl Memory {
    ghost use Rattle.std.specs.Prelude.{◌≡◌, ◌≤ℤ◌, pos, Some};
    ghost use Rattle.bank_transactions.specs.Known.{Knows, known_under, places};
    ghost use Rattle.sqlite.specs.Effect.{Database};
    ghost use Rattle.store_rows.specs.believed.BankTables.{branch as branch_table};
    ghost use Rattle.store_rows.specs.believed.BankTables.{floor as floor_table, meta};
    ghost use Rattle.store_rows.specs.Holders.{holder_of, holder_table};
    ghost use Rattle.store_rows.specs.Lying.{BalanceLies, BranchLies, CountLies, FloorLies, LeavesOthers};
    ghost use Rattle.store_rows.specs.Lying.{SetsBalance, holder_key};
    ghost use Rattle.store_rows.specs.declared.holders.Holder.TheVariants as holder;
    ghost use Rattle.store_rows.specs.believed.Inserts.{meta_key};
    ghost use Rattle.bank_transactions.specs.Memory.{Fits, IfSingle, IsBlank, KeepsRoom, NumbersLie, balances_of};
    ghost use Rattle.bank_transactions.specs.Memory.{highest_sent};
    ghost use Rattle.bank_transactions.specs.Memory.{is_above, is_single_above};
    ghost use Rattle.bank_transactions.specs.Noted.{KnowsWritten};

    /// Nothing is remembered yet, and there is room for what will be: some 800 KiB. Where no memory is to be had, no rows
    /// are ever remembered.
    #[must_use]
    pub fn with_room(alloc: Global) -> Self
        ensures { IsBlank result }
    {
        Memory {
            decided: None,
            closed: None,
            branches: table(alloc, BRANCH_BITS),
            floors: table(alloc, BRANCH_BITS),
            tellers: table(alloc, TELLER_BITS),
            accounts: table(alloc, ACCOUNT_BITS),
            numbers: table(alloc, TELLER_BITS),
            alloc: Some(alloc),
        }
    }

    /// Nothing is remembered, and no rows will be. It takes no memory.
    #[must_use]
    pub fn new() -> Self
        ensures { IsBlank result }
    {
        Memory {
            decided: None,
            closed: None,
            branches: Known::none(),
            floors: Known::none(),
            tellers: Known::none(),
            accounts: Known::none(),
            numbers: Known::none(),
            alloc: None,
        }
    }

    /// Forgets all. The room stays.
    pub fn forget(&mut self)
        ensures blank { IsBlank self.new }
        ensures room { KeepsRoom self.old self.new }
    {
        self.decided = None;
        self.closed = None;
        self.branches.forget();
        self.floors.forget();
        self.tellers.forget();
        self.accounts.forget();
        self.numbers.forget();
    }

    /// What is remembered, which is forgotten here.
    pub fn take(&mut self) -> Self
        ensures given { result ≡ self.old }
        ensures blank { IsBlank self.new }
    {
        mem::replace(self, Memory::new())
    }

    /// Notes how many requests are decided, as it was read or written.
    pub(crate) fn note(&mut self, decided: u64)
        requires { decided ≤ MAX_DECIDED }
        ensures noted { self.new.decided ≡ Some decided }
        ensures fits { (was now : Database) → LeavesOthers meta meta_key was now → CountLies now decided
            → Fits was self.old → Fits now self.new }
    {
        self.decided = Some(decided);
    }

    /// Notes the numbers that are closed, as they were read.
    pub(crate) fn note_closed(&mut self, closed: NumberRuns)
        ensures noted { self.new.closed ≡ Some closed }
        ensures fits { (db : Database) → NumbersLie db closed → Fits db self.old → Fits db self.new }
    {
        self.closed = Some(closed);
    }

    /// The row of a branch, if it is known.
    pub(crate) fn branch_row(&self, branch: Branch) -> Option<Option<BranchRow>>
        ensures value { result ≡ known_under self.now.branches branch }
        ensures lies { (db : Database) → Fits db self.now → IfSome result (BranchLies branch db) }
    {
        self.branches.get(branch.get())
    }

    /// Notes the row of a branch, as it was read.
    pub(crate) fn note_branch(&mut self, branch: Branch, row: &Option<BranchRow>)
        ensures noted { 0 < places self.old.branches → Knows self.new.branches branch row.now }
        ensures fits { (was now : Database) → LeavesOthers branch_table branch was now → BranchLies branch now row.now
            → Fits was self.old → Fits now self.new }
    {
        self.branches.put(branch.get(), *row);
    }

    /// The floor of a branch, if it is known.
    pub(crate) fn floor_row(&self, branch: Branch) -> Option<Option<FloorRow>>
        ensures value { result ≡ known_under self.now.floors branch }
        ensures lies { (db : Database) → Fits db self.now → IfSome result (FloorLies branch db) }
        ensures within { IfSome result (λ found. IfSome found (λ row. row.lowest ≤ℤ pos 0)) }
    {
        self.floors.get(branch.get())
    }

    /// Notes the floor of a branch, as it was read.
    pub(crate) fn note_floor(&mut self, branch: Branch, row: &Option<FloorRow>)
        requires { IfSome row.now (λ r. r.lowest ≤ℤ pos 0) }
        ensures noted { 0 < places self.old.floors → Knows self.new.floors branch row.now }
        ensures fits { (was now : Database) → LeavesOthers floor_table branch was now → FloorLies branch now row.now
            → Fits was self.old → Fits now self.new }
    {
        self.floors.put(branch.get(), *row);
    }

    /// The balance of an account or a teller, if it is known.
    pub(crate) fn balance(&self, member: &Member) -> Option<Option<Cents>>
        ensures value { result
            ≡ known_under (balances_of self.now member.now) (holder_key (holder_of member.now)) }
        ensures lies { (db : Database) → Fits db self.now → IfSome result (BalanceLies member.now db) }
    {
        match member {
            Member::Account(account) => self.accounts.get(account.get()),
            Member::Teller(teller) => self.tellers.get(teller.get()),
        }
    }

    /// Notes the balance of an account or a teller, as it was read or written.
    pub(crate) fn note_balance(&mut self, member: &Member, balance: &Option<Cents>)
        ensures noted { 0 < places (balances_of self.old member.now)
            → Knows (balances_of self.new member.now) (holder_key (holder_of member.now)) balance.now }
        ensures fits { (was now : Database)
            → LeavesOthers (holder_table (holder_of member.now)) (holder_key (holder_of member.now)) was now
            → BalanceLies member.now now balance.now → Fits was self.old → Fits now self.new }
    {
        match member {
            Member::Account(account) => self.accounts.put(account.get(), *balance),
            Member::Teller(teller) => self.tellers.put(teller.get(), *balance),
        }
    }

    // Whether a request has a higher number than any that its teller is known to have sent, if one is known.
    fn is_above(&self, slot: &RequestSlot) -> bool
        ensures { result ≡ is_above (known_under self.now.numbers slot.now.teller) slot.now.number }
    {
        match self.numbers.get(slot.teller.get()) {
            Some(highest) => highest < slot.number.get(),
            None => false,
        }
    }

    // Notes the number of a request, if it is the highest that its teller is known to have sent.
    fn note_number(&mut self, slot: &RequestSlot)
        ensures noted { 0 < places self.old.numbers → Knows self.new.numbers slot.now.teller
            (highest_sent (known_under self.old.numbers slot.now.teller) slot.now.number) }
        ensures fits { (db : Database) → Fits db self.old → Fits db self.new }
    {
        let teller = slot.teller.get();
        let number = slot.number.get();
        let highest = match self.numbers.get(teller) {
            Some(highest) if number <= highest && highest != SENT_AGAIN => highest,
            _ => number,
        };
        self.numbers.put(teller, highest);
    }

    /// After a single request that was tried in vain: the next one of its teller is looked up first.
    pub(crate) fn expect_repeat(&mut self, slots: &[RequestSlot])
        ensures noted { IfSingle slots.now
            (λ slot. 0 < places self.old.numbers → Knows self.new.numbers slot.teller SENT_AGAIN) }
        ensures fits { (db : Database) → Fits db self.old → Fits db self.new }
    {
        if let [slot] = slots {
            self.numbers.put(slot.teller.get(), SENT_AGAIN);
        }
    }

    /// Notes the numbers of requests, and answers whether there is a single one, which is likely new: its number is
    /// higher than any that its teller is known to have sent.
    pub(crate) fn note_requests(&mut self, slots: &[RequestSlot]) -> bool
        ensures single { result ≡ is_single_above self.old.numbers slots.now }
        ensures noted { IfSingle slots.now (λ slot. 0 < places self.old.numbers → Knows self.new.numbers slot.teller
            (highest_sent (known_under self.old.numbers slot.teller) slot.number)) }
        ensures fits { (db : Database) → Fits db self.old → Fits db self.new }
    {
        if let [slot] = slots {
            let is_new = self.is_above(slot);
            self.note_number(slot);
            return is_new;
        }
        for slot in slots {
            self.note_number(slot);
        }
        false
    }

    // Changes the balance in the row of a branch, where that is known.
    fn change_branch(&mut self, branch: Branch, balance: Cents)
        ensures noted { KnowsWritten self.old self.new (holder.Branch branch) balance }
        ensures fits { (was now : Database) → LeavesOthers branch_table branch was now
            → SetsBalance (holder.Branch branch) balance was now → Fits was self.old → Fits now self.new }
    {
        let key = branch.get();
        match self.branches.get(key) {
            Some(Some(row)) => self.branches.put(key, Some(BranchRow { balance, ..row })),
            // A row that was written was there.
            Some(None) => self.branches.forget(),
            None => {}
        }
    }

    /// Changes a balance, as it was written.
    pub(crate) fn change_balance(&mut self, holder: &Holder, balance: Cents)
        ensures noted { KnowsWritten self.old self.new holder.now balance }
        ensures fits { (was now : Database) → LeavesOthers (holder_table holder.now) (holder_key holder.now) was now
            → SetsBalance holder.now balance was now → Fits was self.old → Fits now self.new }
    {
        match holder {
            Holder::Account(account) => {
                self.note_balance(&Member::Account(*account), &Some(balance));
            }
            Holder::Teller(teller) => self.note_balance(&Member::Teller(*teller), &Some(balance)),
            Holder::Branch(branch) => self.change_branch(*branch, balance),
        }
    }
}
