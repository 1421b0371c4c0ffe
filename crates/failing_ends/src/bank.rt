//! A bank that fails.
ghost use Rattle.std.specs.Prelude.{◌≡◌, true, false, List, IfErr, OnOk, IsErrOf};
ghost use Rattle.posting_rules.specs.believed.Commands.{Command};
ghost use Rattle.posting_rules.specs.believed.Counter.{Refuses, TellsDamage};
ghost use Rattle.posting_rules.specs.declared.fault.Fault.TheVariants.{Memory, Down};
ghost use Rattle.failing_ends.specs.Failing.{failing_seen};

use message_records::{Account, Branch, Cents, Moment, REPLY_BYTES, REQUEST_BYTES, Teller};
use posting_core::{BranchLine, Counter, Fault, Followed, Opening, PlainBank, RECORDS_PER_BATCH};
use std::alloc::Global;

/// Opens branch 1 with three accounts and branch 2 with two.
pub fn open_both<C: Counter>(bank: &mut C) -> Result<Opening, Fault> {
    bank.open_branch(Branch::new(1).unwrap(), 3, None)?;
    bank.open_branch(Branch::new(2).unwrap(), 2, None)
}

/// The balances of account 1 and of account 100001 in cents.
pub fn balances<C: Counter>(bank: &mut C) -> Option<(i64, i64)> {
    Some((balance_of(bank, 1)?, balance_of(bank, 100_001)?))
}

fn balance_of<C: Counter>(bank: &mut C, account: u64) -> Option<i64> {
    Some(bank.balance(Account::new(account)?).ok()??.get())
}

/// How a bank fails.
#[derive(Clone, Copy, Debug, PartialEq, Eq)]
pub enum Failing {
    /// It lacks memory for a call.
    Memory,
    /// Its store fails, for good. What the call was given is lost.
    Store,
}

/// A bank in memory that takes so many calls, and fails at the next. It has memory for batches of so many records, and
/// for no opening: its branches are opened before.
#[derive(Drop)]
pub struct FailingBank {
    pub bank: PlainBank,
    pub left: u64,
    pub most: usize,
    pub failing: Failing,
    pub down: bool,
}

impl FailingBank {
    /// One with both branches, that takes so many calls and has memory for any batch.
    pub fn new(alloc: Global, left: u64, failing: Failing) -> Result<FailingBank, Fault> {
        let mut bank = PlainBank::new(alloc);
        open_both(&mut bank)?;
        Ok(FailingBank {
            bank,
            left,
            most: RECORDS_PER_BATCH,
            failing,
            down: false,
        })
    }

    // Takes a call, or refuses it.
    fn take_call(&mut self) -> Result<(), Fault>
        ensures bank { self.new.bank ≡ self.old.bank }
        ensures taken { OnOk result (self.old.down ≡ false) }
        ensures up { OnOk result (self.new.down ≡ false) }
        ensures refused { (commands : List Command) → IfErr result
            (λ fault. Refuses fault (failing_seen self.old) (failing_seen self.new) commands) }
        ensures sound { IfErr result (λ fault. TellsDamage fault → ⊥) }
        ensures down { self.old.down ≡ true → IsErrOf result Down }
        ensures untried { IsErrOf result Down → self.new ≡ self.old }
    {
        if self.down {
            return Err(Fault::Down);
        }
        if self.left > 0 {
            self.left -= 1;
            return Ok(());
        }
        match self.failing {
            Failing::Memory => Err(Fault::Memory),
            Failing::Store => {
                self.down = true;
                Err(Fault::Store)
            }
        }
    }
}

impl Counter for FailingBank {
    ghost use Rattle.std.specs.Prelude.{◌≡◌, ⊤, refl};
    ghost use Rattle.posting_rules.specs.believed.Tables.{Tables};
    ghost use Rattle.posting_core.specs.Plain.{plain_tables};
    ghost use Rattle.failing_ends.specs.Failing.{failing_seen};

    ghost seen = { failing_seen };

    ghost Contents = { Tables };

    ghost contents = { λ b. plain_tables b.bank };

    ghost reason = { λ fault old new. ⊤ };

    ghost spares = { λ old new. ⊤ };

    ghost leaves_something = { λ b _. ∣ (plain_tables b.bank, refl) ∣₁ };

    ghost spares_itself = { λ b. tt };

    ghost spares_then = { λ old mid new one two. tt };

    fn submit(
        &mut self,
        moment: Moment,
        bytes: &[u8; REQUEST_BYTES],
    ) -> Result<[u8; REPLY_BYTES], Fault> {
        self.take_call()?;
        self.bank.submit(moment, bytes)
    }

    fn submit_all(
        &mut self,
        moment: Moment,
        records: &[[u8; REQUEST_BYTES]],
    ) -> Result<Vec<[u8; REPLY_BYTES]>, Fault> {
        if !self.down && records.len() > self.most {
            return Err(Fault::Memory);
        }
        self.take_call()?;
        self.bank.submit_all(moment, records)
    }

    fn open_branch(
        &mut self,
        _branch: Branch,
        _count: u32,
        _floor: Option<Cents>,
    ) -> Result<Opening, Fault> {
        if self.down {
            return Err(Fault::Down);
        }
        Err(Fault::Memory)
    }

    fn balance(&mut self, account: Account) -> Result<Option<Cents>, Fault> {
        self.take_call()?;
        self.bank.balance(account)
    }

    fn next_branch(&mut self, after: u32) -> Result<Option<BranchLine>, Fault> {
        self.take_call()?;
        self.bank.next_branch(after)
    }
}

impl Followed for FailingBank {
    fn entries_after(&mut self, after: u64) -> Result<Option<Vec<u8>>, Fault> {
        self.take_call()?;
        self.bank.entries_after(after)
    }

    fn teller_balance(&mut self, teller: Teller) -> Result<Option<Cents>, Fault> {
        self.take_call()?;
        self.bank.teller_balance(teller)
    }
}
