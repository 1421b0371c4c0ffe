//! Rows that get the reference of their request.
ghost use Rattle.std.specs.Prelude.{◌≡◌, ◌≤◌, ◌++◌, [], ℤ, List, length, map, None, IfErr, IfOk, MatchResult, pos};
ghost use Rattle.std.specs.Prelude.{option_map};
ghost use Rattle.sqlite.specs.State.{HasCleanDisk};
ghost use Rattle.sqlite.specs.Held.{state};
ghost use Rattle.sql_meanings.specs.believed.Entries.{Entry, Rise};
ghost use Rattle.sql_meanings.specs.StatementAnswers.{IsStoreError};
ghost use Rattle.store_rows.specs.believed.BankTables.{reference as reference_table};
ghost use Rattle.store_rows.specs.View.{HoldsRows};
ghost use Rattle.walked_rows.specs.Causes.{HasItsCause};
ghost use Rattle.walked_rows.specs.Leaving.{ReadsIfAny};
ghost use Rattle.walked_rows.specs.References.{text_entry};
ghost use Rattle.walked_rows.specs.Referring.{AreReferred, referred_all};
ghost use Rattle.walked_rows.specs.Rising.{RisesFrom};
ghost use Rattle.walked_rows.specs.Rows.{entry_key, rows_after, rows_from};
ghost use Rattle.walked_rows.specs.StepOutcomes.{BreaksFirst};

use crate::ahead::AHEAD;
use crate::references::reference_under;
use arrayvec::ArrayVec;
use message_records::Reference;
use posting_rules::MAX_DECIDED;
use sqlite::{Alter, Connection};
use store_rows::TableFault;

/// A row with the reference of its request, made of one without it.
pub(crate) trait Referred<O>: Copy + Default {
    ghost use Rattle.std.specs.Prelude.{ℕ, Option, IsSomeAnd};
    ghost use Rattle.posting_rules.specs.declared.fault.Rule.{Rule};
    ghost use Rattle.walked_rows.specs.KeptRows.{IsOrdinal};
    ghost use Rattle.walked_rows.specs.References.{BreaksReference};

    /// What a file has of the row without the reference, and with it.
    ghost Own: { Type 0 };

    ghost Item: { Type 0 };

    ghost own: { O → Own };

    ghost item: { Self → Item };
    /// The row whose ordinal the reference is under.
    ghost entry: { Own → Entry };

    ghost ordinal_of: { O → ℕ };
    /// The row with what is under its ordinal.
    ghost joined: { Own → Option Entry → Item };
    /// By which the walk goes.
    ghost key: { Self → ℤ };
    /// It breaks the rule, so that it can't be given.
    ghost Breaks: { Rule → Item → Type 0 };

    fn ordinal(row: &O) -> u64
        ensures value { result ≡ ordinal_of row.now }
        ensures least { 1 ≤ result }
        ensures most { result ≤ MAX_DECIDED };

    fn referred(row: &O, reference: Option<Reference>) -> Self
        ensures is { item result
            ≡ joined (own row.now) (option_map (text_entry (ordinal_of row.now)) reference) }
        ensures key { key result ≡ entry_key (entry (own row.now)) };

    ghost keyed: { (row : O) → entry_key (entry (own row)) ≡ pos (ordinal_of row) };

    ghost breaks: { (rule : Rule) (o : Own) (reference : Option Entry) → IsOrdinal (entry_key (entry o))
        → IsSomeAnd reference (BreaksReference rule) → Breaks rule (joined o reference) };
}

/// Puts these rows, each with the reference under its ordinal, in place of those in `rows`, up to one whose
/// reference can't be read, if it isn't the first, and returns the key from which on the next follow.
pub(crate) fn refer_each<S: Alter, O: Copy, R: Referred<O> + Copy>(
    conn: &mut Connection<S>,
    own: &[O],
    rest: Option<i64>,
    from: i64,
    rows: &mut ArrayVec<R, AHEAD>,
) -> Result<Option<i64>, TableFault>
    requires few { length own.now ≤ AHEAD }
    requires ended { own.now ≡ [] → rest ≡ None }
    requires rises { RisesFrom from (map (λ o. entry_key (R.Referred.entry (R.Referred.own o))) own.now) rest }
    ensures answers { HasCleanDisk (state S.Store conn.new) → (view : Entry → R.Referred.Own)
        → ((e : Entry) → R.Referred.entry (view e) ≡ e) → (base others : List Entry) → Rise base
        → HoldsRows (state S.Store conn.old).now reference_table others
        → map view (rows_from from base) ≡ map R.Referred.own own.now ++ map view (rows_after rest base)
        → MatchResult result
        (AreReferred R.Referred.joined view R.Referred.item others base from rows.new.items)
        (BreaksFirst (IsStoreError (state S.Store conn.old) (state S.Store conn.new)) R.Referred.Breaks
        (referred_all R.Referred.joined view others (rows_from from base))) }
    ensures ended { IfOk result (λ next. rows.new.items ≡ [] → next ≡ None) }
    ensures rises { IfOk result (λ next. RisesFrom from (map R.Referred.key rows.new.items) next) }
    ensures reads { ReadsIfAny S.Store conn.old conn.new result }
    ensures cause { HasCleanDisk (state S.Store conn.new)
        → IfErr result (HasItsCause S.Store conn.old conn.new) }
{
    rows.clear();
    let mut next = from;
    for row in own {
        let ordinal = R::ordinal(row);
        match reference_under(conn, ordinal) {
            Ok(reference) => rows.push(R::referred(row, reference)),
            Err(TableFault::Sqlite(e)) => return Err(TableFault::Sqlite(e)),
            Err(TableFault::Damaged(rule)) => {
                if rows.is_empty() {
                    return Err(TableFault::Damaged(rule));
                }
                return Ok(Some(next));
            }
        }
        next = ordinal as i64 + 1;
    }
    Ok(rest)
}
