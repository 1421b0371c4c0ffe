//! Rows in memory that have a balance under a number: the rows of a table, and the slots of a batch.
ghost use Rattle.std.specs.Prelude.{◌≡◌, ℕ, ℤ, Option, Some};
ghost use Rattle.posting_rules.specs.believed.LookUps.{balance_of_account, balance_of_branch, balance_of_teller};
ghost use Rattle.posting_rules.specs.ChangesByKey.{with_account_balance, with_branch_balance, with_teller_balance};
ghost use Rattle.posting_rules.specs.believed.Tables.{account_key, branch_key, teller_key};
ghost use Rattle.posting_batch.specs.Slots.{account_slot_balance, account_slot_key, balance_now};
ghost use Rattle.posting_batch.specs.Slots.{branch_slot_balance, branch_slot_key, teller_slot_balance};
ghost use Rattle.posting_batch.specs.Slots.{teller_slot_key, with_account_changed, with_branch_changed};
ghost use Rattle.posting_batch.specs.Slots.{with_teller_changed};

use crate::slots::{AccountSlot, BranchSlot, TellerSlot};
use message_records::Cents;
use posting_rules::{AccountRow, BranchRow, TellerRow};

/// A row that has a balance, or the slot of one.
pub trait BalanceRow {
    ghost key: { Self → ℕ };

    ghost balance_in: { Self → Option ℤ };

    ghost with_balance: { ℤ → Self → Self };

    /// The number of the row.
    fn number(&self) -> u64
        ensures { result ≡ key self.now };

    /// The balance that the row has by now, none where there is no row.
    fn balance(&self) -> Option<Cents>
        ensures { result ≡ balance_in self.now };

    /// Gives the row another balance.
    fn change(&mut self, balance: Cents)
        ensures { self.new ≡ with_balance balance self.old };
}

impl BalanceRow for AccountRow {
    ghost key = { account_key };

    ghost balance_in = { λ row. Some (balance_of_account row) };

    ghost with_balance = { with_account_balance };

    fn number(&self) -> u64 {
        self.account.get()
    }

    fn balance(&self) -> Option<Cents> {
        Some(self.balance)
    }

    fn change(&mut self, balance: Cents) {
        self.balance = balance;
    }
}

impl BalanceRow for TellerRow {
    ghost key = { teller_key };

    ghost balance_in = { λ row. Some (balance_of_teller row) };

    ghost with_balance = { with_teller_balance };

    fn number(&self) -> u64 {
        self.teller.get()
    }

    fn balance(&self) -> Option<Cents> {
        Some(self.balance)
    }

    fn change(&mut self, balance: Cents) {
        self.balance = balance;
    }
}

impl BalanceRow for BranchRow {
    ghost key = { branch_key };

    ghost balance_in = { λ row. Some (balance_of_branch row) };

    ghost with_balance = { with_branch_balance };

    fn number(&self) -> u64 {
        self.branch.get()
    }

    fn balance(&self) -> Option<Cents> {
        Some(self.balance)
    }

    fn change(&mut self, balance: Cents) {
        self.balance = balance;
    }
}

// The balance that a row has by now: the stored one, unless it is changed.
fn now(stored: Option<Cents>, changed: Option<Cents>) -> Option<Cents>
    ensures { result ≡ balance_now stored changed }
{
    match stored {
        Some(stored) => Some(changed.unwrap_or(stored)),
        None => None,
    }
}

impl BalanceRow for AccountSlot {
    ghost key = { account_slot_key };

    ghost balance_in = { account_slot_balance };

    ghost with_balance = { with_account_changed };

    fn number(&self) -> u64 {
        self.account.get()
    }

    fn balance(&self) -> Option<Cents> {
        now(self.stored, self.changed)
    }

    fn change(&mut self, balance: Cents) {
        self.changed = Some(balance);
    }
}

impl BalanceRow for TellerSlot {
    ghost key = { teller_slot_key };

    ghost balance_in = { teller_slot_balance };

    ghost with_balance = { with_teller_changed };

    fn number(&self) -> u64 {
        self.teller.get()
    }

    fn balance(&self) -> Option<Cents> {
        now(self.stored, self.changed)
    }

    fn change(&mut self, balance: Cents) {
        self.changed = Some(balance);
    }
}

impl BalanceRow for BranchSlot {
    ghost key = { branch_slot_key };

    ghost balance_in = { branch_slot_balance };

    ghost with_balance = { with_branch_changed };

    fn number(&self) -> u64 {
        self.branch
    }

    fn balance(&self) -> Option<Cents> {
        match self.stored {
            Some(row) => Some(self.changed.unwrap_or(row.balance)),
            None => None,
        }
    }

    fn change(&mut self, balance: Cents) {
        self.changed = Some(balance);
    }
}
