//! The kept requests as entries of a log, those after the first so many.
ghost use Rattle.std.specs.Prelude.{◌≡◌, ◌≤◌, ◌+◌, ◌*◌, ◌-◌, ◌++◌, [], ℕ, List, None, false, length, map, take, nat_le};
ghost use Rattle.std.specs.Prelude.{IfErr, IfNone, IfOk, IfSome, OnOk, vec_capacity, vec_len};
ghost use Rattle.std.specs.List.{AllByRecursion};
ghost use Rattle.sqlite.specs.Held.{state};
ghost use Rattle.sqlite.specs.State.{HasCleanDisk, Survives};
ghost use Rattle.posting_rules.specs.Sound.{AreSound};
ghost use Rattle.posting_rules.specs.declared.fault.Rule.TheVariants.{Request};
ghost use Rattle.posting_core.specs.believed.Batches.{joined};
ghost use Rattle.store_rows.specs.believed.Rules.{OfRows};
ghost use Rattle.store_rows.specs.declared.fault.TableFault.TheVariants.{Damaged};
ghost use Rattle.bank_transactions.specs.Causes.{Blames, IsFirstBroken};
ghost use Rattle.bank_transactions.specs.Doing.{Consults};
ghost use Rattle.bank_transactions.specs.Undone.{UndoesFaults};
ghost use Rattle.bank_transactions.specs.believed.Stored.{HoldsDecided};
ghost use Rattle.walked_rows.specs.Broken.{HasBroken};
ghost use Rattle.walked_rows.specs.KeptRows.{HoldsKept, KeptItem, kept_item, kept_key};
ghost use Rattle.walked_rows.specs.Requests.{IsAnsweredRow, IsNoRequest};
ghost use Rattle.walked_rows.specs.Rows.{items_after, items_from};
ghost use Rattle.bank_store.specs.KeptEntries.{PutsEntries, entry_in};
ghost use Rattle.bank_store.specs.Walks.{IsStill, IsUntouchedIfOpen};

use crate::laws::range_law;
use arrayvec::ArrayVec;
use bank_transactions::{begin, decided, finish, note_settled};
use posting_core::{ENTRIES_PER_ANSWER, ENTRY_BYTES, encode_entry};
use posting_rules::{MAX_DECIDED, Rule};
use sqlite::{Alter, Connection};
use store_rows::TableFault;
use walked_rows::{AHEAD, KeptRequest, moment_of, read_kept, reply_of, request_of};

/// The entry of a kept row; none where its numbers are those of no request.
pub fn entry_in(row: &KeptRequest) -> Option<[u8; ENTRY_BYTES]>
    ensures some { IfSome result (λ entry. entry ≡ entry_in (kept_item row.now)) }
    ensures answered { IfSome result (λ entry. IsAnsweredRow (kept_item row.now)) }
    ensures none { IfNone result (IsAnsweredRow (kept_item row.now) → ⊥) }
{
    let Some(request) = request_of(row) else {
        return None;
    };
    let Some(reply) = reply_of(row, request) else {
        return None;
    };
    Some(encode_entry(&request, &reply, moment_of(&row.posting)))
}

// Puts an entry after the others, for which there is room.
fn put_entry(entries: &mut Vec<u8>, entry: &[u8; ENTRY_BYTES])
    requires { vec_len entries.old + ENTRY_BYTES ≤ vec_capacity entries.old }
    ensures items { entries.new.items ≡ entries.old.items ++ entry.now }
    ensures len { vec_len entries.new ≡ vec_len entries.old + ENTRY_BYTES }
    ensures capacity { vec_capacity entries.old ≤ vec_capacity entries.new }
{
    let _ = entries.extend_from_slice(entry.as_slice());
}

// Puts the entries of rows after the others, so many at most, and returns how many more there may be.
fn put_entries(
    rows: &[KeptRequest],
    most: usize,
    entries: &mut Vec<u8>,
) -> Result<usize, TableFault>
    requires { vec_len entries.old + most * ENTRY_BYTES ≤ vec_capacity entries.old }
    ensures put { OnOk result (entries.new.items
        ≡ entries.old.items ++ joined (map entry_in (take most (map kept_item rows.now)))) }
    ensures each { OnOk result (AllByRecursion IsAnsweredRow (take most (map kept_item rows.now))) }
    ensures left { IfOk result (λ left. left ≡ most - length rows.now) }
    ensures room { IfOk result (λ left. vec_len entries.new + left * ENTRY_BYTES ≤ vec_capacity entries.new) }
    ensures damage { IfErr result (λ fault. (fault ≡ Damaged Request)
        × HasBroken IsNoRequest (map kept_item rows.now)) }
{
    let mut left = most;
    for row in rows {
        if left == 0 {
            return Ok(0);
        }
        range_law(row.request.ordinal);
        let Some(entry) = entry_in(row) else {
            return Err(TableFault::Damaged(Rule::Request));
        };
        put_entry(entries, &entry);
        left -= 1;
    }
    Ok(left)
}

// Reads the kept requests from an ordinal on, outside a transaction, and answers from which on the others follow.
fn kept_outside<S: Alter>(
    conn: &mut Connection<S>,
    from: i64,
    rows: &mut ArrayVec<KeptRequest, AHEAD>,
) -> Result<Option<i64>, TableFault>
    requires { conn.old.in_transaction ≡ false }
    ensures answers { HasCleanDisk (state S.Store conn.new) → (all : List KeptItem)
        → HoldsKept (state S.Store conn.old).now all → IfOk result (λ rest. items_from kept_key from all
        ≡ map kept_item rows.new.items ++ items_after kept_key rest all) }
    ensures ended { IfOk result (λ rest. rows.new.items ≡ [] → rest ≡ None) }
    ensures cause { HasCleanDisk (state S.Store conn.new)
        → Blames (IsFirstBroken S.Store) S.Store conn.old conn.new result }
    ensures same { HasCleanDisk (state S.Store conn.new)
        → OnOk result (IsStill (state S.Store conn.old) (state S.Store conn.new)) }
    ensures undone { HasCleanDisk (state S.Store conn.new)
        → IsUntouchedIfOpen (state S.Store conn.old) (state S.Store conn.new) }
    ensures mode { conn.new.in_transaction ≡ false }
    ensures survives { Survives (state S.Store conn.old) (state S.Store conn.new) (λ _. ⊥) }
{
    note_settled(conn);
    read_kept(conn, from, rows)
}

// Puts the entries of the kept requests after an ordinal after what is there, as many as an answer gives.
fn read_entries<S: Alter>(
    conn: &mut Connection<S>,
    after: u64,
    entries: &mut Vec<u8>,
) -> Result<(), TableFault>
    requires idle { conn.old.in_transaction ≡ false }
    requires after { after ≤ MAX_DECIDED }
    requires room { vec_len entries.old + ENTRIES_PER_ANSWER * ENTRY_BYTES ≤ vec_capacity entries.old }
    ensures answers { OnOk result (HasCleanDisk (state S.Store conn.new) → (all : List KeptItem)
        → HoldsKept (state S.Store conn.old).now all
        → PutsEntries after all entries.old.items entries.new.items) }
    ensures cause { HasCleanDisk (state S.Store conn.new)
        → Blames (IsFirstBroken S.Store) S.Store conn.old conn.new result }
    ensures same { HasCleanDisk (state S.Store conn.new)
        → OnOk result (IsStill (state S.Store conn.old) (state S.Store conn.new)) }
    ensures undone { HasCleanDisk (state S.Store conn.new)
        → IsUntouchedIfOpen (state S.Store conn.old) (state S.Store conn.new) }
    ensures mode { conn.new.in_transaction ≡ false }
    ensures survives { Survives (state S.Store conn.old) (state S.Store conn.new) (λ _. ⊥) }
{
    let mut rows: ArrayVec<KeptRequest, AHEAD> = ArrayVec::new();
    let mut from = after as i64 + 1;
    let mut left = ENTRIES_PER_ANSWER;
    'pieces: for _ in 0..ENTRIES_PER_ANSWER {
        let rest = kept_outside(conn, from, &mut rows)?;
        let later = put_entries(rows.as_slice(), left, entries)?;
        let Some(next) = rest else {
            return Ok(());
        };
        if later == 0 {
            return Ok(());
        }
        from = next;
        left = later;
    }
    Ok(())
}

// Looks up how many requests are decided. One transaction, which changes nothing.
fn count_decided<S: Alter>(conn: &mut Connection<S>) -> Result<u64, TableFault>
    requires { conn.old.in_transaction ≡ false }
    ensures says { Consults S.Store conn.old conn.new AreSound (λ tables. tables.decided) result }
    ensures stored { IfOk result (λ decided. HasCleanDisk (state S.Store conn.new)
        → OfRows (λ rows. HoldsDecided rows decided) (state S.Store conn.old).now) }
    ensures still { OnOk result (HasCleanDisk (state S.Store conn.new)
        → (state S.Store conn.new).now ≡ (state S.Store conn.old).now) }
    ensures left { Survives (state S.Store conn.old) (state S.Store conn.new)
        (λ left. left ≡ (state S.Store conn.old).now.trees) }
    ensures undone { UndoesFaults S.Store conn.old conn.new result }
{
    let mut tx = begin(conn);
    let count = decided(&mut tx);
    finish(tx, count)
}

/// Puts the entries of the kept requests after an ordinal after what is there, as many as an answer gives, and returns
/// whether so many requests are decided.
pub(crate) fn read_log<S: Alter>(
    conn: &mut Connection<S>,
    after: u64,
    entries: &mut Vec<u8>,
) -> Result<bool, TableFault>
    requires idle { conn.old.in_transaction ≡ false }
    requires after { after ≤ MAX_DECIDED }
    requires room { vec_len entries.old + ENTRIES_PER_ANSWER * ENTRY_BYTES ≤ vec_capacity entries.old }
    ensures says { Consults S.Store conn.old conn.new AreSound (λ tables. nat_le after tables.decided) result }
    ensures answers { OnOk result (HasCleanDisk (state S.Store conn.new) → (all : List KeptItem)
        → HoldsKept (state S.Store conn.old).now all
        → PutsEntries after all entries.old.items entries.new.items) }
    ensures stored { IfOk result (λ enough. HasCleanDisk (state S.Store conn.new)
        → OfRows (λ rows. (decided : ℕ) → HoldsDecided rows decided → enough ≡ nat_le after decided)
        (state S.Store conn.old).now) }
    ensures still { OnOk result (HasCleanDisk (state S.Store conn.new)
        → (state S.Store conn.new).now ≡ (state S.Store conn.old).now) }
    ensures left { Survives (state S.Store conn.old) (state S.Store conn.new)
        (λ left. left ≡ (state S.Store conn.old).now.trees) }
    ensures undone { UndoesFaults S.Store conn.old conn.new result }
{
    read_entries(conn, after, entries)?;
    let decided = count_decided(conn)?;
    Ok(after <= decided)
}
