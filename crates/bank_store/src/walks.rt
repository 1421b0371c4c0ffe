//! Walks over the rows of a bank, one row a step, by rising keys. They change nothing.
ghost use Rattle.std.specs.Prelude.{◌≡◌, ◌≢◌, ◌<◌, ◌≤◌, OnSome, slice_get, List, None, Ok, Err};
ghost use Rattle.std.specs.Prelude.{IfOk, IfErr, OnOk, MatchResult, filter, drop, length, ℤ};
ghost use Rattle.std.specs.Borrow.{sem, RestsIfErr};
ghost use Rattle.sqlite.specs.State.{HasCleanDisk};
ghost use Rattle.posting_rules.specs.declared.fault.Fault.TheVariants as fault;
ghost use Rattle.sql_meanings.specs.StatementAnswers.{IsStoreError};
ghost use Rattle.bank_store.specs.Walks.{TellsFault};

use crate::bank::Bank;
use arrayvec::ArrayVec;
use message_records::Account;
use posting_rules::Fault;
use sqlite::Alter;
use std::fmt;
use store_rows::TableFault;
use walked_rows::{
    AHEAD, Joined, StatedPosting, StoredAccount, StoredPosting, StoredRequest, WalkedRow,
};

// How far a walk is: on its way, after its last row, or after a fault.
#[derive(Clone, Copy, Debug)]
pub(crate) enum Stage {
    Going,
    Ended,
    Failed,
}

/// A walk over rows of a table by rising keys, up to `AHEAD` of `walked_rows` read ahead. It borrows the bank,
/// and may be dropped at any row. A fault of it doesn't bring the bank down.
///
/// ```rust
/// let mut walk = each_account(&mut bank)?;
/// for _ in 0..u64::MAX {
///     let Some(row) = walk.next()? else {
///         break;
///     };
///     println!(rt; "{} {}", row.account, row.balance)?;
/// }
/// ```
pub struct Walk<'bank, S: Alter, R: WalkedRow> {
    bank: &'bank mut Bank<S>,
    // The account whose rows are given, if those of one account alone are.
    of: Option<Account>,
    // The rows that were read ahead, and how many of them were given.
    rows: ArrayVec<R, AHEAD>,
    given: usize,
    // From which key on the others follow, none if there are no others.
    rest: Option<i64>,
    stage: Stage,
}

/// Whose rows it gives, how many of those read ahead it gave, and how far it is; the bank is left out.
impl<S: Alter, R: WalkedRow> fmt::Debug for Walk<'_, S, R> {
    fn fmt<W: fmt::Write>(&self, f: &mut fmt::Formatter<W>) -> fmt::Result {
        f.debug_struct("Walk")
            .field("of", &self.of)
            .field("given", &self.given)
            .field("stage", &self.stage)
            .finish_non_exhaustive()
    }
}

impl<S: Alter, R: WalkedRow> Drop for Walk<'_, S, R> {
    fn drop(self)
        ensures { self.exit.0.now ≡ self.entry.bank.now }
    {
        let Walk {
            bank: _,
            of: _,
            rows: _,
            given: _,
            rest: _,
            stage: _,
        } = self;
    }
}

// The fault of a walk, which doesn't bring the bank down.
fn fault_of(fault: TableFault) -> Fault
    ensures { TellsFault fault result }
{
    match fault {
        TableFault::Sqlite(_) => Fault::Store,
        TableFault::Damaged(rule) => Fault::Damaged(rule),
    }
}

impl<'bank, S: Alter, R: WalkedRow> Walk<'bank, S, R> {
    ghost use Rattle.bank_store.specs.believed.Seen.{database_of};
    ghost use Rattle.bank_store.specs.Walking.{ComesFrom, GivesFrom, GoesOn, HasToldFault, IsToldFault};
    ghost use Rattle.bank_store.specs.Walking.{LeavesLent, Steps};
    ghost use Rattle.bank_store.specs.Walking.{StoreFailed, items_to_come, lent, lent_state, loan_of};
    ghost use Rattle.bank_store.specs.declared.walks.Stage.TheVariants.{Going};

    // A walk before its first row.
    fn over(bank: &'bank mut Bank<S>, of: Option<Account>) -> Walk<'bank, S, R>
        ensures same_reference { loan_of result ≡ bank.entry.ghost_name }
        ensures same { lent result ≡ bank.old }
        ensures all { (all : List R.WalkedRow.Item) → R.WalkedRow.HasItems (database_of S.Store bank.old) all
            → items_to_come R.WalkedRow.key R.WalkedRow.item R.WalkedRow.is_given all result
            ≡ filter (R.WalkedRow.is_given of) all }
        ensures rises { ComesFrom (λ r. R.WalkedRow.key (R.WalkedRow.item r)) LEAST result }
        ensures fresh { HasToldFault result → ⊥ }
    {
        Walk {
            bank,
            of,
            rows: ArrayVec::new(),
            given: 0,
            rest: Some(i64::MIN),
            stage: Stage::Going,
        }
    }

    // The next of the rows that were read ahead, if one is left.
    fn ahead(&self) -> Option<R>
        ensures value { result ≡ slice_get self.now.rows.items self.now.given }
        ensures low { OnSome result (self.now.given < AHEAD) }
    {
        self.rows.as_slice().get(self.given).copied()
    }

    // Reads ahead, if all that was read was given.
    fn refill(&mut self) -> Result<(), Fault>
        requires { self.old.stage ≡ Going }
        ensures bank { LeavesLent S.Store self.old self.new result }
        ensures answers { HasCleanDisk (lent_state S.Store self.new) → (all : List R.WalkedRow.Item)
            → R.WalkedRow.HasItems (lent_state S.Store self.old).now all
            → MatchResult result
            (λ _. items_to_come R.WalkedRow.key R.WalkedRow.item R.WalkedRow.is_given all self.new
            ≡ items_to_come R.WalkedRow.key R.WalkedRow.item R.WalkedRow.is_given all self.old)
            (IsToldFault (IsStoreError (lent_state S.Store self.old) (lent_state S.Store self.new))
            R.WalkedRow.Breaks (items_to_come R.WalkedRow.key R.WalkedRow.item R.WalkedRow.is_given all
            self.old)) }
        ensures rises { (k : ℤ) → ComesFrom (λ r. R.WalkedRow.key (R.WalkedRow.item r)) k self.old
            → OnOk result (ComesFrom (λ r. R.WalkedRow.key (R.WalkedRow.item r)) k self.new) }
        ensures rest { OnOk result (length self.new.rows.items ≤ self.new.given → self.new.rest ≡ None) }
        ensures going { OnOk result (self.new.stage ≡ Going) }
        ensures failed { IfErr result (λ f. HasToldFault self.new × (f ≢ fault.Down) × (f ≢ fault.Memory)) }
    {
        if self.given < self.rows.len() {
            return Ok(());
        }
        let Some(from) = self.rest else {
            return Ok(());
        };
        let answer = self.bank.read_rows::<R>(self.of, from, &mut self.rows);
        match answer {
            Ok(rest) => {
                self.rest = rest;
                self.given = 0;
                Ok(())
            }
            Err(fault) => {
                self.stage = Stage::Failed;
                Err(fault_of(fault))
            }
        }
    }

    /// The next row, whose key is above those before it; none after the last row, and from then on.
    ///
    /// # Errors
    ///
    /// None of them brings the bank down, and none changes the file.
    ///
    /// - [`Fault::Store`]: a call of `sqlite` failed, for memory too.
    /// - [`Fault::Damaged`]: the next row can't be given. With `Rule::Value` a number of it is out of its
    ///   range; with `Rule::Reference` its reference is none.
    /// - [`Fault::Down`]: this walk has ended with a fault.
    pub fn next(&mut self) -> Result<Option<R>, Fault>
        ensures bank { LeavesLent S.Store self.old self.new result }
        ensures answers { HasCleanDisk (lent_state S.Store self.new) → (all : List R.WalkedRow.Item)
            → R.WalkedRow.HasItems (lent_state S.Store self.old).now all
            → Steps R.WalkedRow.item R.WalkedRow.Breaks
            (items_to_come R.WalkedRow.key R.WalkedRow.item R.WalkedRow.is_given all self.old)
            (items_to_come R.WalkedRow.key R.WalkedRow.item R.WalkedRow.is_given all self.new) result }
        ensures store { HasCleanDisk (lent_state S.Store self.new) → (all : List R.WalkedRow.Item)
            → R.WalkedRow.HasItems (lent_state S.Store self.old).now all
            → result ≡ Err fault.Store → StoreFailed (lent_state S.Store self.old)
            (lent_state S.Store self.new) }
        // Each key is above those before it.
        ensures rises { (k : ℤ) → ComesFrom (λ r. R.WalkedRow.key (R.WalkedRow.item r)) k self.old
            → IfOk result (λ row. GivesFrom (λ r. R.WalkedRow.key (R.WalkedRow.item r)) k self.new row) }
        ensures stage { GoesOn self.old self.new result }
        ensures frugal { result ≢ Err fault.Memory }
    {
        match self.stage {
            Stage::Failed => return Err(Fault::Down),
            Stage::Ended => return Ok(None),
            Stage::Going => {}
        }
        self.refill()?;
        let next = self.ahead();
        match next {
            Some(row) => {
                self.given += 1;
                Ok(Some(row))
            }
            None => {
                self.stage = Stage::Ended;
                Ok(None)
            }
        }
    }
}

ghost use Rattle.std.specs.Prelude.{true, Some};
ghost use Rattle.bank_store.specs.contracts.bank.Bank.{the_row};
ghost use Rattle.bank_store.specs.Walking.{BeginsWalk, loan_of};
ghost use Rattle.walked_rows.specs.Pairs.{HasPairs, pair_key};
ghost use Rattle.walked_rows.specs.Rows.{HasStoredRows, LEAST, entry_key};
ghost use Rattle.walked_rows.specs.Stored.{account_entry, is_stated_of, posted_pair, stated_pair};
ghost use Rattle.store_rows.specs.believed.BankTables.{account as account_table, history as history_table};
ghost use Rattle.store_rows.specs.believed.BankTables.{reference as reference_table, request as request_table};

// Begins a walk over the rows of a kind, those of an account where one is named. The only fault is `Down`.
fn begin_walk<S: Alter, R: WalkedRow>(
    bank: &mut Bank<S>,
    of: Option<Account>,
) -> Result<Walk<'_, S, R>, Fault>
    ensures* refused { sem 𝓛 (RestsIfErr (the_row S.row S.Store) bank.entry loan_of result
        (λ last. last ≡ bank.old)) }
    ensures begins { BeginsWalk S.Store R.WalkedRow.key R.WalkedRow.item R.WalkedRow.is_given
        R.WalkedRow.HasItems of bank.entry.ghost_name bank.old result }
{
    if bank.is_down() {
        return Err(Fault::Down);
    }
    Ok(Walk::over(bank, of))
}

/// Begins a walk over all rows of a kind, by rising keys.
///
/// # Errors
///
/// [`Fault::Down`] alone: a fault brought the bank down before. Nothing was tried.
pub fn each_row<S: Alter, R: WalkedRow>(bank: &mut Bank<S>) -> Result<Walk<'_, S, R>, Fault>
    ensures* refused { sem 𝓛 (RestsIfErr (the_row S.row S.Store) bank.entry loan_of result
        (λ last. last ≡ bank.old)) }
    ensures begins { BeginsWalk S.Store R.WalkedRow.key R.WalkedRow.item R.WalkedRow.is_given
        R.WalkedRow.HasItems None bank.entry.ghost_name bank.old result }
{
    begin_walk(bank, None)
}

/// Begins a walk over the rows of `account`, by the account's number, with balances in cents (TPC-B 1.2).
///
/// # Errors
///
/// [`Fault::Down`] alone: a fault brought the bank down before. Nothing was tried.
pub fn each_account<S: Alter>(bank: &mut Bank<S>) -> Result<Walk<'_, S, StoredAccount>, Fault>
    ensures* refused { sem 𝓛 (RestsIfErr (the_row S.row S.Store) bank.entry loan_of result
        (λ last. last ≡ bank.old)) }
    ensures begins { BeginsWalk S.Store entry_key account_entry (λ of e. true)
        (λ db rows. HasStoredRows db account_table rows) None bank.entry.ghost_name bank.old result }
{
    begin_walk(bank, None)
}

/// Begins a walk over the postings of an account: its rows of `history`, in the order in which they were
/// posted (TPC-B 1.2), each with the reference of its request, if it has one. Amounts are cents, moments
/// seconds since 1970.
///
/// # Errors
///
/// [`Fault::Down`] alone: a fault brought the bank down before. Nothing was tried.
pub fn history_of<S: Alter>(
    bank: &mut Bank<S>,
    account: Account,
) -> Result<Walk<'_, S, StatedPosting>, Fault>
    ensures* refused { sem 𝓛 (RestsIfErr (the_row S.row S.Store) bank.entry loan_of result
        (λ last. last ≡ bank.old)) }
    ensures begins { BeginsWalk S.Store pair_key stated_pair is_stated_of
        (λ db pairs. HasPairs db history_table reference_table pairs) (Some account) bank.entry.ghost_name
        bank.old result }
{
    begin_walk(bank, Some(account))
}

/// Begins a walk over the postings: the rows of `history` in the order in which they were posted, each with
/// the request of its ordinal, if there is one.
///
/// # Errors
///
/// [`Fault::Down`] alone: a fault brought the bank down before. Nothing was tried.
pub fn each_history<S: Alter>(
    bank: &mut Bank<S>,
) -> Result<Walk<'_, S, Joined<StoredPosting, StoredRequest>>, Fault>
    ensures* refused { sem 𝓛 (RestsIfErr (the_row S.row S.Store) bank.entry loan_of result
        (λ last. last ≡ bank.old)) }
    ensures begins { BeginsWalk S.Store pair_key posted_pair (λ of p. true)
        (λ db pairs. HasPairs db history_table request_table pairs) None bank.entry.ghost_name bank.old
        result }
{
    begin_walk(bank, None)
}
