//! The rows of two banks, side by side.
ghost use Rattle.std.specs.Prelude.{◌≡◌, List, None, Some, Ok, IfErr, ⊤};
ghost use Rattle.sqlite.specs.State.{HasCleanDisk};
ghost use Rattle.bank_store.specs.Failures.{HasFailedToRead};
ghost use Rattle.bank_store.specs.Walking.{HasToldFault, items_to_come, lent, lent_state, loan_of};
ghost use Rattle.bank_store.specs.believed.Seen.{connection_of};
ghost use Rattle.bank_replays.specs.Comparing.{Both, Compares, DiffersAmong, DiffersIn, Either, SameRows, SameStanding};
ghost use Rattle.bank_replays.specs.Damaged.{Stops};
ghost use Rattle.bank_replays.specs.Differences.{DiffersBetween};
ghost use Rattle.bank_replays.specs.FileTables.{SameTables};
ghost use Rattle.bank_replays.specs.Reading.{ReadsBank};

use crate::compared::{Compared, Step, compare_next};
use crate::difference::Difference;
use bank_store::{Bank, Walk, each_row};
use posting_rules::Fault;
use sqlite::Alter;
use walked_rows::{
    StoredAccount, StoredBranch, StoredClosing, StoredFloor, StoredMeta, StoredPosting,
    StoredReference, StoredRequest, StoredTeller,
};

// Compares the rows that two walks give, up to the first difference.
fn compare_rows<S: Alter, T: Alter, R: Compared>(
    stood: &mut Walk<'_, S, R>,
    due: &mut Walk<'_, T, R>,
) -> Result<Option<Difference>, Fault>
    requires fresh { HasToldFault stood.old → ⊥ }
    ensures same_reference { loan_of stood.new ≡ loan_of stood.old }
    ensures same_reference_due { loan_of due.new ≡ loan_of due.old }
    ensures bank { ReadsBank S.Store (lent stood.old) (lent stood.new) result }
    ensures due { ReadsBank T.Store (lent due.old) (lent due.new) result }
    ensures same { HasCleanDisk (lent_state S.Store stood.new) → HasCleanDisk (lent_state T.Store due.new)
        → result ≡ Ok None → (all others : List R.WalkedRow.Item)
        → R.WalkedRow.HasItems (lent_state S.Store stood.old).now all
        → R.WalkedRow.HasItems (lent_state T.Store due.old).now others
        → items_to_come R.WalkedRow.key R.WalkedRow.item R.WalkedRow.is_given all stood.old
        ≡ items_to_come R.WalkedRow.key R.WalkedRow.item R.WalkedRow.is_given others due.old }
    ensures differs { HasCleanDisk (lent_state S.Store stood.new) → HasCleanDisk (lent_state T.Store due.new)
        → (d : Difference) → result ≡ Ok (Some d) → DiffersAmong R.WalkedRow.key R.WalkedRow.item R.Compared.Says
        (R.WalkedRow.HasItems (lent_state S.Store stood.old).now)
        (R.WalkedRow.HasItems (lent_state T.Store due.old).now)
        (λ all. items_to_come R.WalkedRow.key R.WalkedRow.item R.WalkedRow.is_given all stood.old)
        (λ all. items_to_come R.WalkedRow.key R.WalkedRow.item R.WalkedRow.is_given all due.old) d }
    ensures why { HasCleanDisk (lent_state S.Store stood.new) → (all : List R.WalkedRow.Item)
        → R.WalkedRow.HasItems (lent_state S.Store stood.old).now all → IfErr result (Stops R.WalkedRow.Breaks
        (HasFailedToRead S.Store (connection_of (lent stood.old)) (connection_of (lent stood.new))) ⊥
        (items_to_come R.WalkedRow.key R.WalkedRow.item R.WalkedRow.is_given all stood.old)) }
{
    'rows: for _ in 0..u64::MAX {
        let stands = stood.next()?;
        let Ok(rules) = due.next() else {
            return Err(Fault::Memory);
        };
        match compare_next(stands, rules) {
            Step::Same => {}
            Step::Ended => return Ok(None),
            Step::Differs(difference) => return Ok(Some(difference)),
        }
    }
    // There would be no room for so many rows.
    Err(Fault::Memory)
}

/// Compares the rows of a kind in two banks, up to the first difference.
fn compare<S: Alter, T: Alter, R: Compared>(
    bank: &mut Bank<S>,
    due: &mut Bank<T>,
) -> Result<Option<Difference>, Fault>
    ensures { Compares S.Store T.Store bank.old bank.new due.old due.new (SameRows R.WalkedRow.HasItems)
        (DiffersIn R.WalkedRow.key R.WalkedRow.item R.Compared.Says R.WalkedRow.HasItems) result }
{
    let mut stood = each_row::<S, R>(bank)?;
    let Ok(mut rules) = each_row::<T, R>(due) else {
        return Err(Fault::Memory);
    };
    compare_rows(&mut stood, &mut rules)
}

// Compares the rows of two kinds, one kind after the other.
fn compare_two<S: Alter, T: Alter, A: Compared, B: Compared>(
    bank: &mut Bank<S>,
    due: &mut Bank<T>,
) -> Result<Option<Difference>, Fault>
    ensures { Compares S.Store T.Store bank.old bank.new due.old due.new
        (Both (SameRows A.WalkedRow.HasItems) (SameRows B.WalkedRow.HasItems))
        (Either (SameRows A.WalkedRow.HasItems)
        (DiffersIn A.WalkedRow.key A.WalkedRow.item A.Compared.Says A.WalkedRow.HasItems)
        (DiffersIn B.WalkedRow.key B.WalkedRow.item B.Compared.Says B.WalkedRow.HasItems)) result }
{
    match compare::<S, T, A>(bank, due) {
        Ok(None) => compare::<S, T, B>(bank, due),
        Ok(Some(difference)) => Ok(Some(difference)),
        Err(fault) => Err(fault),
    }
}

// Compares the rows of four kinds.
fn compare_four<S: Alter, T: Alter, A: Compared, B: Compared, C: Compared, D: Compared>(
    bank: &mut Bank<S>,
    due: &mut Bank<T>,
) -> Result<Option<Difference>, Fault>
    ensures { Compares S.Store T.Store bank.old bank.new due.old due.new
        (Both (Both (SameRows A.WalkedRow.HasItems) (SameRows B.WalkedRow.HasItems))
        (Both (SameRows C.WalkedRow.HasItems) (SameRows D.WalkedRow.HasItems)))
        (Either (Both (SameRows A.WalkedRow.HasItems) (SameRows B.WalkedRow.HasItems))
        (Either (SameRows A.WalkedRow.HasItems)
        (DiffersIn A.WalkedRow.key A.WalkedRow.item A.Compared.Says A.WalkedRow.HasItems)
        (DiffersIn B.WalkedRow.key B.WalkedRow.item B.Compared.Says B.WalkedRow.HasItems))
        (Either (SameRows C.WalkedRow.HasItems)
        (DiffersIn C.WalkedRow.key C.WalkedRow.item C.Compared.Says C.WalkedRow.HasItems)
        (DiffersIn D.WalkedRow.key D.WalkedRow.item D.Compared.Says D.WalkedRow.HasItems))) result }
{
    match compare_two::<S, T, A, B>(bank, due) {
        Ok(None) => compare_two::<S, T, C, D>(bank, due),
        Ok(Some(difference)) => Ok(Some(difference)),
        Err(fault) => Err(fault),
    }
}

/// Compares the branches, floors, accounts and tellers of two banks, up to the first difference.
///
/// # Errors
///
/// None of them brings a bank down, and none changes a file. A fault of the second bank is told as [`Fault::Memory`].
///
/// | Error | What happened |
/// |---|---|
/// | [`Fault::Memory`] | the second bank refused a read |
/// | [`Fault::Store`] | a read of the first failed: the disk did, or memory or steps were refused |
/// | [`Fault::Down`] | the first bank was down, and nothing was read |
/// | [`Fault::Damaged`] | a row of the first can't be read: a number of it is out of its column's range |
pub fn compare_standing<S: Alter, T: Alter>(
    bank: &mut Bank<S>,
    due: &mut Bank<T>,
) -> Result<Option<Difference>, Fault>
    ensures { Compares S.Store T.Store bank.old bank.new due.old due.new SameStanding (λ db other d. ⊤) result }
{
    compare_four::<S, T, StoredBranch, StoredFloor, StoredAccount, StoredTeller>(bank, due)
}

// Compares the rows of five kinds.
fn compare_five<
    S: Alter,
    T: Alter,
    A: Compared,
    B: Compared,
    C: Compared,
    D: Compared,
    E: Compared,
>(bank: &mut Bank<S>, due: &mut Bank<T>) -> Result<Option<Difference>, Fault>
    ensures { Compares S.Store T.Store bank.old bank.new due.old due.new
        (Both (Both (Both (SameRows A.WalkedRow.HasItems) (SameRows B.WalkedRow.HasItems))
        (Both (SameRows C.WalkedRow.HasItems) (SameRows D.WalkedRow.HasItems)))
        (SameRows E.WalkedRow.HasItems))
        (Either (Both (Both (SameRows A.WalkedRow.HasItems) (SameRows B.WalkedRow.HasItems))
        (Both (SameRows C.WalkedRow.HasItems) (SameRows D.WalkedRow.HasItems)))
        (Either (Both (SameRows A.WalkedRow.HasItems) (SameRows B.WalkedRow.HasItems))
        (Either (SameRows A.WalkedRow.HasItems)
        (DiffersIn A.WalkedRow.key A.WalkedRow.item A.Compared.Says A.WalkedRow.HasItems)
        (DiffersIn B.WalkedRow.key B.WalkedRow.item B.Compared.Says B.WalkedRow.HasItems))
        (Either (SameRows C.WalkedRow.HasItems)
        (DiffersIn C.WalkedRow.key C.WalkedRow.item C.Compared.Says C.WalkedRow.HasItems)
        (DiffersIn D.WalkedRow.key D.WalkedRow.item D.Compared.Says D.WalkedRow.HasItems)))
        (DiffersIn E.WalkedRow.key E.WalkedRow.item E.Compared.Says E.WalkedRow.HasItems)) result }
{
    match compare_four::<S, T, A, B, C, D>(bank, due) {
        Ok(None) => compare::<S, T, E>(bank, due),
        Ok(Some(difference)) => Ok(Some(difference)),
        Err(fault) => Err(fault),
    }
}

/// Compares the rows of all nine tables of two banks, up to the first difference.
pub(crate) fn compare_all<S: Alter, T: Alter>(
    bank: &mut Bank<S>,
    due: &mut Bank<T>,
) -> Result<Option<Difference>, Fault>
    ensures { Compares S.Store T.Store bank.old bank.new due.old due.new SameTables DiffersBetween
        result }
{
    match compare_four::<S, T, StoredMeta, StoredBranch, StoredFloor, StoredRequest>(bank, due) {
        Ok(None) => {
            compare_five::<
                S,
                T,
                StoredReference,
                StoredPosting,
                StoredAccount,
                StoredTeller,
                StoredClosing,
            >(bank, due)
        }
        Ok(Some(difference)) => Ok(Some(difference)),
        Err(fault) => Err(fault),
    }
}
