//! The comparison of new books with the old ones that they are to carry on.
ghost use Rattle.std.specs.Prelude.{◌≡◌, List, IfErr, Ok, None};
ghost use Rattle.sqlite.specs.State.{HasCleanDisk};
ghost use Rattle.posting_rules.specs.believed.ClosedBooks.{Carries};
ghost use Rattle.posting_rules.specs.believed.Commands.{Command};
ghost use Rattle.posting_rules.specs.believed.Counter.{ShowsLog};
ghost use Rattle.posting_rules.specs.believed.Tables.{Tables};
ghost use Rattle.posting_rules.specs.declared.fault.Fault.TheVariants.{Memory};
ghost use Rattle.store_rows.specs.believed.View.{Shows};
ghost use Rattle.bank_store.specs.believed.Seen.{bank_seen, database_of, file_of};
ghost use Rattle.bank_replays.specs.Damaged.{TellsWhy};
ghost use Rattle.bank_replays.specs.Reading.{IsOnlyRead};
ghost use Rattle.carried_books.specs.Comparison.{ComparesBooks, CarriesRows, fault_of_new, fault_of_old};
ghost use Rattle.carried_books.specs.Gathering.{HasUsed, NumbersCarry};
ghost use Rattle.carried_books.specs.ReadsTold.{ReadsTold};

use crate::apart::{Apart, BooksFault};
use crate::gathered::Used;
use crate::gathering::{closed_in, stray_in, used_in};
use bank_replays::compare_standing;
use bank_store::Bank;
use message_records::Branch;
use posting_rules::{Fault, NumberRuns};
use sqlite::Alter;

// A number that was used and isn't closed, or that is closed and wasn't used.
fn number_apart(used: &NumberRuns, key: u64) -> Apart {
    if used.has(key) {
        Apart::Open(key)
    } else {
        Apart::Closed(key)
    }
}

// Compares the numbers of new books with those that were used before.
fn compare_numbers<T: Alter>(
    new: &mut Bank<T>,
    desk: Branch,
    used: &NumberRuns,
) -> Result<Option<Apart>, Fault>
    ensures reads { ReadsTold T.Store (λ fault. fault) new.old new.new result }
    ensures none { HasCleanDisk (file_of new.new) → result ≡ Ok None → (t : Tables)
        → Shows (database_of T.Store new.old) t → NumbersCarry desk used.now t }
{
    let closed = closed_in(new)?;
    if closed.sealed {
        return Ok(Some(Apart::Sealed));
    }
    if let Some(key) = used.first_difference(&closed.numbers) {
        return Ok(Some(number_apart(used, key)));
    }
    match stray_in(new, desk, used) {
        Ok(None) => Ok(None),
        Ok(Some(key)) => Ok(Some(Apart::InUse(key))),
        Err(fault) => Err(fault),
    }
}

// The same, with its fault as one of the new books.
fn compare_new<T: Alter>(
    new: &mut Bank<T>,
    desk: Branch,
    used: &NumberRuns,
) -> Result<Option<Apart>, BooksFault>
    ensures reads { ReadsTold T.Store fault_of_new new.old new.new result }
    ensures beside { IfErr result (λ fault. fault_of_old fault ≡ Memory) }
    ensures none { HasCleanDisk (file_of new.new) → result ≡ Ok None → (t : Tables)
        → Shows (database_of T.Store new.old) t → NumbersCarry desk used.now t }
{
    match compare_numbers(new, desk, used) {
        Ok(apart) => Ok(apart),
        Err(fault) => Err(BooksFault::New(fault)),
    }
}

// Compares the balances, and then the numbers.
fn compare_with<S: Alter, T: Alter>(
    old: &mut Bank<S>,
    new: &mut Bank<T>,
    desk: Branch,
    used: &Used,
) -> Result<Option<Apart>, BooksFault>
    ensures { ComparesBooks S.Store T.Store old.old old.new new.old new.new
        (λ t u. HasUsed t used.now.sealed used.now.numbers → CarriesRows desk t u) result }
{
    if !used.sealed {
        return Ok(Some(Apart::Unsealed));
    }
    match compare_standing(new, old) {
        Ok(None) => compare_new(new, desk, &used.numbers),
        Ok(Some(difference)) => Ok(Some(Apart::Standing(difference))),
        Err(fault) => Err(BooksFault::New(fault)),
    }
}

// Compares two books, whatever rows they have.
fn compare_rows<S: Alter, T: Alter>(
    old: &mut Bank<S>,
    new: &mut Bank<T>,
    desk: Branch,
) -> Result<Option<Apart>, BooksFault>
    ensures { ComparesBooks S.Store T.Store old.old old.new new.old new.new (CarriesRows desk) result }
{
    match used_in(old) {
        Ok(used) => compare_with(old, new, desk, &used),
        Err(fault) => Err(BooksFault::Old(fault)),
    }
}

/// Compares new books with old ones, up to the first difference. None says that the new ones carry the old ones on: same
/// branches on the same terms, same balances, and no number that was used is free; the old ones are sealed. What else
/// the new ones keep is requests of the desk, the branch that brings the balances forward.
///
/// # Errors
///
/// None of them brings a bank down, and none changes a file. What is told of the new books as [`Fault::Memory`] may be a
/// fault of the old ones, whose balances are read beside.
///
/// | Error | What happened |
/// |---|---|
/// | [`Fault::Memory`] | memory was refused: the numbers take 16 bytes each |
/// | [`Fault::Store`] | a read failed: the disk did, or memory or steps were refused |
/// | [`Fault::Down`] | that bank was down, and nothing was read of it |
/// | [`Fault::Damaged`] | a row can't be read, or a kept request has no number |
pub fn compare_books<S: Alter, T: Alter>(
    old: &mut Bank<S>,
    new: &mut Bank<T>,
    desk: Branch,
) -> Result<Option<Apart>, BooksFault>
    ensures carries { (bank_seen S.Store old.new).honest → (bank_seen T.Store new.new).honest → result ≡ Ok None
        → (one two : List Command) → ShowsLog (bank_seen S.Store old.new) one
        → ShowsLog (bank_seen T.Store new.new) two → Carries desk one two }
    ensures old_reads { IsOnlyRead S.Store old.old old.new result }
    ensures new_reads { IsOnlyRead T.Store new.old new.new result }
    ensures old_why { TellsWhy S.Store fault_of_old old.old old.new result }
    ensures new_why { TellsWhy T.Store fault_of_new new.old new.new result }
{
    compare_rows(old, new, desk)
}
