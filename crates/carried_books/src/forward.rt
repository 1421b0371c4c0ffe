//! The postings that bring balances forward, so that new books begin with those of the old ones. The desk is a branch of
//! its own with one account. Its first teller posts to each account what that lacks; each teller posts to the desk's account
//! what itself lacks, under numbers that it used in the old books; and the desk's teller brings to that account what it
//! posted. What comes next brings the desk's account towards zero, so that no balance leaves its limits.
ghost use Rattle.std.specs.Prelude.{◌≡◌, ◌||◌, ◌==◌, true, IfSome};
ghost use Rattle.posting_rules.specs.believed.Closings.{is_closed_in};
ghost use Rattle.posting_rules.specs.believed.Commands.{number_key};
ghost use Rattle.posting_rules.specs.believed.Numbering.{branch_of_teller};
ghost use Rattle.carried_books.specs.Forward.{IsAllowed};

use message_records::{Account, Branch, Cents, Number, Request, Teller};
use posting_rules::{
    NUMBERS_PER_TELLER, NumberRuns, branch_of_teller, first_account, first_teller,
};
use std::alloc::{AllocError, Global};

// The most that one posting brings, in cents.
const PART: i64 = 9_999_999_999;

// As much as the desk's teller owes its account at most, in cents.
const OWED: i64 = 500_000_000_000;

/// What new books lack of a balance: that of the old books less their own, in cents.
#[derive(Clone, Copy, Debug)]
pub enum Lack {
    /// Of an account's.
    Account(Account, i64),
    /// Of a teller's, which posts it under the numbers that it used after this key.
    Teller(Teller, u64, i64),
}

// The part of an amount that one posting brings.
fn part_of(cents: i64) -> i64 {
    cents.max(-PART).min(PART)
}

// The teller's number of a key, if it has one.
fn number_of(teller: Teller, key: u64) -> Option<Number>
    ensures { IfSome result (λ n. number_key teller n ≡ key) }
{
    let none = NUMBERS_PER_TELLER * teller.get();
    if key <= none {
        return None;
    }
    Number::new(key - none)
}

/// The postings of a desk, one after another.
#[derive(Drop)]
pub struct Forward {
    desk: Branch,
    used: NumberRuns,
    // What raises the balance of the desk's account, and what lowers it.
    rising: Vec<Lack>,
    falling: Vec<Lack>,
    // The last number of the desk's teller.
    last: u64,
    // What it posted and hasn't brought to its account, and what that has with it.
    owed: i64,
    sum: i64,
}

impl Forward {
    /// Nothing is to be brought forward yet. Old books used these numbers, and the desk's first teller none above the last.
    #[must_use]
    pub fn new(alloc: Global, desk: Branch, used: NumberRuns, last: u64) -> Forward
        ensures desk { result.desk ≡ desk }
        ensures used { result.used ≡ used }
    {
        Forward {
            desk,
            used,
            rising: Vec::new(alloc),
            falling: Vec::new(alloc),
            last,
            owed: 0,
            sum: 0,
        }
    }

    /// Something is to be brought forward. An error is want of memory.
    pub fn add(&mut self, lack: Lack) -> Result<(), AllocError>
        ensures desk { self.new.desk ≡ self.old.desk }
        ensures used { self.new.used ≡ self.old.used }
    {
        let rises = match lack {
            Lack::Account(_, cents) => cents < 0,
            Lack::Teller(_, _, cents) => cents > 0,
        };
        if rises {
            self.rising.push(lack)?;
        } else {
            self.falling.push(lack)?;
        }
        Ok(())
    }

    // The desk's teller posts this to an account.
    fn from_desk(&mut self, account: Account, cents: i64) -> Option<Request>
        ensures desk { self.new.desk ≡ self.old.desk }
        ensures used { self.new.used ≡ self.old.used }
        ensures allowed { IfSome result (IsAllowed self.old.desk self.old.used) }
    {
        let teller = Teller::new(first_teller(self.desk))?;
        let number = Number::new(self.last.saturating_add(1))?;
        self.last = number.get();
        self.owed = self.owed.saturating_add(cents);
        Request::new(account, teller, self.desk, number, Cents::new(cents)?, None)
    }

    // A teller posts this to the desk's account, under the first number that it used after a key. With it comes the key of
    // that number.
    fn from_teller(&mut self, teller: Teller, after: u64, cents: i64) -> Option<(Request, u64)>
        ensures desk { self.new.desk ≡ self.old.desk }
        ensures used { self.new.used ≡ self.old.used }
        ensures allowed { IfSome result (λ p. IsAllowed self.old.desk self.old.used p.0) }
    {
        let key = self.used.next_above(after)?;
        let number = number_of(teller, key)?;
        let branch = Branch::new(branch_of_teller(teller))?;
        let account = Account::new(first_account(self.desk))?;
        let request = Request::new(account, teller, branch, number, Cents::new(cents)?, None)?;
        self.sum = self.sum.saturating_add(cents);
        Some((request, key))
    }

    // The desk's teller brings to its account what it posted.
    fn settle(&mut self) -> Option<Request>
        ensures desk { self.new.desk ≡ self.old.desk }
        ensures used { self.new.used ≡ self.old.used }
        ensures allowed { IfSome result (IsAllowed self.old.desk self.old.used) }
    {
        let account = Account::new(first_account(self.desk))?;
        let cents = part_of(0i64.saturating_sub(self.owed));
        self.from_desk(account, cents)
    }

    // What is brought next: what brings the desk's account towards zero, where there is such a thing.
    fn take(&mut self) -> Option<Lack>
        ensures desk { self.new.desk ≡ self.old.desk }
        ensures used { self.new.used ≡ self.old.used }
    {
        let rises = self.falling.is_empty() || (self.sum <= 0 && !self.rising.is_empty());
        if rises {
            self.rising.pop()
        } else {
            self.falling.pop()
        }
    }

    // Puts back what is left of something that was taken.
    fn put_back(&mut self, lack: Lack, left: i64)
        ensures desk { self.new.desk ≡ self.old.desk }
        ensures used { self.new.used ≡ self.old.used }
    {
        if left != 0 {
            let _kept = self.add(lack);
        }
    }

    /// The next posting, if there is one more and its teller has a number for it.
    pub fn next_posting(&mut self) -> Option<Request>
        ensures desk { self.new.desk ≡ self.old.desk }
        ensures used { self.new.used ≡ self.old.used }
        ensures allowed { IfSome result (IsAllowed self.old.desk self.old.used) }
    {
        let is_last = self.rising.is_empty() && self.falling.is_empty();
        if self.owed > OWED || self.owed < -OWED || (is_last && self.owed != 0) {
            return self.settle();
        }
        match self.take()? {
            Lack::Account(account, cents) => {
                let part = part_of(cents);
                let left = cents.saturating_sub(part);
                self.put_back(Lack::Account(account, left), left);
                self.sum = self.sum.saturating_sub(part);
                self.from_desk(account, part)
            }
            Lack::Teller(teller, after, cents) => {
                let part = part_of(cents);
                let left = cents.saturating_sub(part);
                let (request, key) = self.from_teller(teller, after, part)?;
                self.put_back(Lack::Teller(teller, key, left), left);
                Some(request)
            }
        }
    }
}
