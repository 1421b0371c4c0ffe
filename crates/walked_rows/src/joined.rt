//! Rows with those beside them in another table.
ghost use Rattle.std.specs.Prelude.{◌≡◌, ◌≤◌, ◌++◌, [], ◌∷◌, ℤ, List, filter, length, map, None, IfErr, IfOk, OnOk};
ghost use Rattle.std.specs.Prelude.{MatchResult};
ghost use Rattle.std.specs.Bool.{OnFalse, OnTrue};
ghost use Rattle.sqlite.specs.State.{HasCleanDisk};
ghost use Rattle.sqlite.specs.Held.{state};
ghost use Rattle.sql_meanings.specs.believed.Entries.{Entry, Rise};
ghost use Rattle.sql_meanings.specs.StatementAnswers.{IsStoreError};
ghost use Rattle.walked_rows.specs.Causes.{HasItsCause};
ghost use Rattle.walked_rows.specs.Leaving.{OnlyReads, ReadsIfAny};
ghost use Rattle.walked_rows.specs.StepOutcomes.{BreaksBy, BreaksFirst};
ghost use Rattle.walked_rows.specs.Pairs.{AreJoined, BreaksPair, BreaksUnder, ComesBefore, HasPairs, HoldsPairs, Pair};
ghost use Rattle.walked_rows.specs.Pairs.{pair_key, pair_of, paired};
ghost use Rattle.walked_rows.specs.Rising.{RisesFrom};
ghost use Rattle.walked_rows.specs.Room.{RoomFits};
ghost use Rattle.store_rows.specs.View.{HoldsRows};
ghost use Rattle.walked_rows.specs.Rows.{entry_key, items_after, items_from, rows_after};
ghost use Rattle.walked_rows.specs.Rows.{rows_from};

use crate::ahead::{AHEAD, read_ahead};
use crate::beside::{read_beside, row_with};
use crate::postings::StoredPosting;
use crate::requests::StoredRequest;
use crate::stored_row::StoredRow;
use crate::walked::WalkedRow;
use arrayvec::ArrayVec;
use message_records::Account;
use sqlite::{Alter, Connection};
use store_rows::TableFault;

/// A row of one table, with the row of another one under the same key, if there is one.
#[derive(Clone, Copy)]
pub struct Joined<R, O> {
    pub stored: R,
    pub beside: Option<O>,
}

impl<R: Default, O> Default for Joined<R, O> {
    fn default() -> Self {
        Joined {
            stored: R::default(),
            beside: None,
        }
    }
}

// The row under the key isn't decided by those that were read ahead.
fn is_beyond(after: Option<i64>, key: i64) -> bool
    ensures decided { OnFalse result (ComesBefore after key) }
    ensures beyond { OnTrue result (ComesBefore after key → ⊥) }
{
    match after {
        Some(after) => after <= key,
        None => false,
    }
}

// Puts these rows, each with the one of the others that is under its key, in place of those in `rows`, as far
// as the others are known, and returns the key from which on the next follow.
fn join<R: StoredRow, O: StoredRow>(
    own: &[R],
    rest: Option<i64>,
    beside: &[O],
    after: Option<i64>,
    start: i64,
    rows: &mut ArrayVec<Joined<R, O>, AHEAD>,
) -> Option<i64>
    requires few { length own.now ≤ AHEAD }
    requires rises { RisesFrom start (map (λ r. entry_key (R.StoredRow.kind.entry r)) own.now) rest }
    ensures answers { (base others : List Entry) → Rise base
        → rows_from start base ≡ map R.StoredRow.kind.entry own.now ++ rows_after rest base
        → rows_from start others ≡ map O.StoredRow.kind.entry beside.now ++ rows_after after others
        → AreJoined (pair_of R.StoredRow.kind.entry O.StoredRow.kind.entry) others base start
        rows.new.items result }
    ensures rises { RisesFrom start
        (map (λ j. entry_key (R.StoredRow.kind.entry j.stored)) rows.new.items) result }
    ensures some { (r : R) (more : List R) → own.now ≡ r ∷ more
        → ComesBefore after (entry_key (R.StoredRow.kind.entry r)) → rows.new.items ≡ [] → ⊥ }
{
    rows.clear();
    let mut next = start;
    for row in own {
        let key = row.key();
        if is_beyond(after, key as i64) {
            return Some(next);
        }
        rows.push(Joined {
            stored: *row,
            beside: row_with(beside, key),
        });
        next = key as i64 + 1;
    }
    rest
}

// Joins rows that were read with those of the other table, read from where these begin.
fn join_ahead<S: Alter, R: StoredRow, O: StoredRow>(
    conn: &mut Connection<S>,
    own: &[R],
    rest: Option<i64>,
    start: i64,
    beside: &mut ArrayVec<O, AHEAD>,
    rows: &mut ArrayVec<Joined<R, O>, AHEAD>,
) -> Result<Option<i64>, TableFault>
    requires few { length own.now ≤ AHEAD }
    requires rises { RisesFrom start (map (λ r. entry_key (R.StoredRow.kind.entry r)) own.now) rest }
    ensures answers { HasCleanDisk (state S.Store conn.new) → (base others : List Entry) → Rise base
        → HoldsRows (state S.Store conn.old).now O.StoredRow.kind.table others
        → rows_from start base ≡ map R.StoredRow.kind.entry own.now ++ rows_after rest base
        → MatchResult result
        (AreJoined (pair_of R.StoredRow.kind.entry O.StoredRow.kind.entry) others base start
        rows.new.items)
        (BreaksUnder (IsStoreError (state S.Store conn.old) (state S.Store conn.new))
        (BreaksBy O.StoredRow.kind.reading) start others) }
    ensures rises { IfOk result
        (λ rest. RisesFrom start
        (map (λ j. entry_key (R.StoredRow.kind.entry j.stored)) rows.new.items) rest) }
    ensures some { (r : R) (more : List R) → own.now ≡ r ∷ more
        → start ≡ entry_key (R.StoredRow.kind.entry r) → OnOk result (rows.new.items ≡ [] → ⊥) }
    ensures reads { OnlyReads S.Store conn.old conn.new result }
    ensures cause { HasCleanDisk (state S.Store conn.new)
        → IfErr result (HasItsCause S.Store conn.old conn.new) }
{
    match read_beside::<S, O>(conn, start, beside) {
        Ok(after) => Ok(join(own, rest, beside.as_slice(), after, start, rows)),
        Err(fault) => Err(fault),
    }
}

// Joins rows that were read with those of the other table, from the first one's key on.
fn join_first<S: Alter, R: StoredRow, O: StoredRow>(
    conn: &mut Connection<S>,
    own: &[R],
    rest: Option<i64>,
    beside: &mut ArrayVec<O, AHEAD>,
    rows: &mut ArrayVec<Joined<R, O>, AHEAD>,
) -> Result<Option<i64>, TableFault>
    requires few { length own.now ≤ AHEAD }
    requires ended { own.now ≡ [] → rest ≡ None }
    requires rises { (from : ℤ)
        × RisesFrom from (map (λ r. entry_key (R.StoredRow.kind.entry r)) own.now) rest }
    ensures answers { HasCleanDisk (state S.Store conn.new) → (base others : List Entry) → Rise base
        → HoldsRows (state S.Store conn.old).now O.StoredRow.kind.table others
        → (from : ℤ) → rows_from from base ≡ map R.StoredRow.kind.entry own.now ++ rows_after rest base
        → MatchResult result
        (AreJoined (pair_of R.StoredRow.kind.entry O.StoredRow.kind.entry) others base from
        rows.new.items)
        (BreaksFirst (IsStoreError (state S.Store conn.old) (state S.Store conn.new))
        (BreaksPair (BreaksBy R.StoredRow.kind.reading) (BreaksBy O.StoredRow.kind.reading))
        (paired others (rows_from from base))) }
    ensures ended { IfOk result (λ next. rows.new.items ≡ [] → next ≡ None) }
    ensures rises { (from : ℤ) → RisesFrom from (map (λ r. entry_key (R.StoredRow.kind.entry r)) own.now) rest
        → IfOk result (λ next. RisesFrom from
        (map (λ j. entry_key (R.StoredRow.kind.entry j.stored)) rows.new.items) next) }
    ensures reads { ReadsIfAny S.Store conn.old conn.new result }
    ensures cause { HasCleanDisk (state S.Store conn.new)
        → IfErr result (HasItsCause S.Store conn.old conn.new) }
{
    match own.first() {
        Some(first) => {
            let start = first.key() as i64;
            join_ahead::<S, R, O>(conn, own, rest, start, beside, rows)
        }
        None => {
            rows.clear();
            Ok(None)
        }
    }
}

/// Fills the room of a walk, with room for the rows of each table.
pub(crate) fn fill_joined<S: Alter, R: StoredRow, O: StoredRow>(
    conn: &mut Connection<S>,
    of: Option<Account>,
    from: i64,
    own: &mut ArrayVec<R, AHEAD>,
    beside: &mut ArrayVec<O, AHEAD>,
    rows: &mut ArrayVec<Joined<R, O>, AHEAD>,
) -> Result<Option<i64>, TableFault>
    ensures answers { HasCleanDisk (state S.Store conn.new) → (all : List Pair)
        → HoldsPairs (state S.Store conn.old).now R.StoredRow.kind.table O.StoredRow.kind.table all
        → let given = filter (λ p. R.StoredRow.kind.is_given of p.entry) all in MatchResult result
        (λ rest. items_from pair_key from given
        ≡ map (pair_of R.StoredRow.kind.entry O.StoredRow.kind.entry) rows.new.items ++ items_after pair_key
        rest
        given)
        (BreaksFirst (IsStoreError (state S.Store conn.old) (state S.Store conn.new))
        (BreaksPair (BreaksBy R.StoredRow.kind.reading) (BreaksBy O.StoredRow.kind.reading))
        (items_from pair_key from given)) }
    ensures ended { IfOk result (λ rest. rows.new.items ≡ [] → rest ≡ None) }
    ensures rises { IfOk result
        (λ rest. RisesFrom from (map (λ j. entry_key (R.StoredRow.kind.entry j.stored)) rows.new.items)
        rest) }
    ensures reads { OnlyReads S.Store conn.old conn.new result }
    ensures cause { HasCleanDisk (state S.Store conn.new)
        → IfErr result (HasItsCause S.Store conn.old conn.new) }
{
    match read_ahead(conn, of, from, own) {
        Ok(rest) => join_first::<S, R, O>(conn, own.as_slice(), rest, beside, rows),
        Err(fault) => Err(fault),
    }
}

/// A row of one table that is read with those of another one.
pub trait Paired: StoredRow {
    /// There can be room for as many as are read ahead.
    ghost has_room: { RoomFits Self.row };
}

impl Paired for StoredRequest {
    ghost use Rattle.std.proofs.Common.{lit<};

    ghost has_room = { lit< tt };
}

impl Paired for StoredPosting {
    ghost use Rattle.std.proofs.Common.{lit<};

    ghost has_room = { lit< tt };
}

impl<R: Paired, O: Paired> WalkedRow for Joined<R, O> {
    ghost use Rattle.std.specs.Prelude.{true, refl};
    ghost use Rattle.walked_rows.specs.PairKeys.{pairs_have_keys};

    ghost Item = { Pair };

    ghost item = { pair_of R.StoredRow.kind.entry O.StoredRow.kind.entry };

    ghost key = { pair_key };

    ghost Breaks = { BreaksPair (BreaksBy R.StoredRow.kind.reading) (BreaksBy O.StoredRow.kind.reading) };

    ghost is_given = { λ of p. true };

    ghost HasItems = { λ db pairs. HasPairs db R.StoredRow.kind.table O.StoredRow.kind.table pairs };

    ghost have_keys = { λ db pairs has.
        pairs_have_keys db R.StoredRow.kind.table O.StoredRow.kind.table pairs has };

    ghost all_given = { λ p. refl };

    fn read_some<S: Alter>(
        conn: &mut Connection<S>,
        _of: Option<Account>,
        from: i64,
        rows: &mut ArrayVec<Self, AHEAD>,
    ) -> Result<Option<i64>, TableFault> {
        let mut own = ArrayVec::new();
        let mut beside = ArrayVec::new();
        fill_joined(conn, None, from, &mut own, &mut beside, rows)
    }
}
