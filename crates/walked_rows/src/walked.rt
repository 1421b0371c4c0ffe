//! Rows that a walk gives.
ghost use Rattle.std.specs.Prelude.{◌≡◌, ◌++◌, [], ℕ, ℤ, Bool, Option, List, filter, map, None, true, IfOk};
ghost use Rattle.std.specs.Prelude.{MatchResult};
ghost use Rattle.sqlite.specs.State.{HasCleanDisk};
ghost use Rattle.sqlite.specs.Held.{state};
ghost use Rattle.sqlite.specs.Effect.{Database};
ghost use Rattle.posting_rules.specs.declared.fault.Rule.{Rule};
ghost use Rattle.sql_meanings.specs.StatementAnswers.{IsStoreError};
ghost use Rattle.walked_rows.specs.Leaving.{OnlyReads};
ghost use Rattle.walked_rows.specs.StepOutcomes.{BreaksFirst};
ghost use Rattle.walked_rows.specs.Rising.{RisesFrom};
ghost use Rattle.walked_rows.specs.Rows.{HaveKeys, items_after, items_from};

use crate::ahead::{AHEAD, read_ahead};
use crate::stored_row::StoredRow;
use arrayvec::ArrayVec;
use message_records::Account;
use sqlite::{Alter, Connection};
use store_rows::TableFault;

/// A row that a walk gives: one of a table, or one with the row beside it in another table.
pub trait WalkedRow: Copy + Default {
    /// What a file has of it.
    ghost Item: { Type 0 };

    ghost item: { Self → Item };
    /// By which the walk goes.
    ghost key: { Item → ℤ };
    /// It breaks the rule, so that it can't be given.
    ghost Breaks: { Rule → Item → Type 0 };
    /// It is one of an account's, or any if none is named.
    ghost is_given: { Option ℕ → Item → Bool };
    /// A database has these, by rising keys.
    ghost HasItems: { Database → List Item → Type 0 };

    /// Puts the rows with the least keys from one on, those of an account if one is named, in place of those
    /// in `rows`, up to one that can't be read, if it isn't the first, and returns the key from which on the
    /// others follow.
    fn read_some<S: Alter>(
        conn: &mut Connection<S>,
        of: Option<Account>,
        from: i64,
        rows: &mut ArrayVec<Self, AHEAD>,
    ) -> Result<Option<i64>, TableFault>
        ensures answers { HasCleanDisk (state S.Store conn.new) → (all : List Item)
            → HasItems (state S.Store conn.old).now all
            → let given = filter (is_given of) all in MatchResult result
            (λ rest. items_from key from given ≡ map item rows.new.items ++ items_after key rest given)
            (BreaksFirst (IsStoreError (state S.Store conn.old) (state S.Store conn.new)) Breaks
            (items_from key from given)) }
        ensures ended { IfOk result (λ rest. rows.new.items ≡ [] → rest ≡ None) }
        ensures rises { IfOk result (λ rest. RisesFrom from (map (λ r. key (item r)) rows.new.items) rest) }
        ensures reads { OnlyReads S.Store conn.old conn.new result };

    ghost have_keys: { (db : Database) (all : List Item) → HasItems db all → HaveKeys key all };

    /// With no account to look for, every row matches.
    ghost all_given: { (x : Item) → is_given None x ≡ true };
}

impl<R: StoredRow> WalkedRow for R {
    ghost use Rattle.sql_meanings.specs.believed.Entries.{Entry};
    ghost use Rattle.walked_rows.specs.StepOutcomes.{BreaksBy};
    ghost use Rattle.walked_rows.specs.Rows.{HasStoredRows, entry_key};

    ghost Item = { Entry };

    ghost item = { R.StoredRow.kind.entry };

    ghost key = { entry_key };

    ghost Breaks = { BreaksBy R.StoredRow.kind.reading };

    ghost is_given = { R.StoredRow.kind.is_given };

    ghost HasItems = { λ db rows. HasStoredRows db R.StoredRow.kind.table rows };

    ghost have_keys = { λ db rows has. has.least };

    ghost all_given = { R.StoredRow.kind.all_given };

    fn read_some<S: Alter>(
        conn: &mut Connection<S>,
        of: Option<Account>,
        from: i64,
        rows: &mut ArrayVec<Self, AHEAD>,
    ) -> Result<Option<i64>, TableFault> {
        read_ahead::<S, Self>(conn, of, from, rows)
    }
}
