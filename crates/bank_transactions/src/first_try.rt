//! A batch is tried as if none of its requests were kept, which spares them their look-ups. Where the first one is
//! kept, or the INSERT of one says otherwise, all is undone, and what was read is remembered.
ghost use Rattle.std.specs.Prelude.{◌≡◌, ◌&&◌, ◌==◌, not, ℕ, List, length, false, true, is_some, IfSome, IsTrue, None, OnOk, ⊤};
ghost use Rattle.sqlite.specs.State.{HasCleanDisk, KeepsCommit, Survives};
ghost use Rattle.sqlite.specs.Held.{state};
ghost use Rattle.posting_rules.specs.believed.Changes.{tables_past_all, replies_past_all};
ghost use Rattle.posting_rules.specs.believed.LookUps.{kept_in};
ghost use Rattle.posting_rules.specs.believed.Tables.{Tables};
ghost use Rattle.posting_batch.specs.Batch.{has_gap};
ghost use Rattle.posting_batch.specs.View.{reads_of, view, IsMadeOf};
ghost use Rattle.sql_meanings.specs.Calls.{Inside, Says};
ghost use Rattle.store_rows.specs.believed.View.{Shows};
ghost use Rattle.bank_transactions.specs.believed.Additions.{AddsForRecords};
ghost use Rattle.bank_transactions.specs.believed.Batches.{DecidesNone, HasRoomFor};
ghost use Rattle.bank_transactions.specs.Doing.{Acts, Reads, Transacts};
ghost use Rattle.bank_transactions.specs.Memory.{FitsBefore, Keeps, Remembers};
ghost use Rattle.bank_transactions.specs.believed.Answered.{AnswersAll, KeepsWhole};
ghost use Rattle.bank_transactions.specs.Tries.{IsAsBefore, IsMadeAgain, answer_of, batch_of, replies_of};
ghost use Rattle.bank_transactions.specs.Tries.{first_kept, may_be_kept};
ghost use Rattle.bank_transactions.specs.Undone.{UndoesFaults};

use crate::batch_changes::{put_requests, write_after};
use crate::slots::fill_known;
use crate::{Memory, begin, finish, kept_request};
use message_records::Moment;
use posting_batch::{Batch, Overlay, Replies, RequestSlot};
use sqlite::{Alter, Connection, Constraint, Error, ErrorCode, Transaction};
use store_rows::{BankTable, TableFault, probe_table};

/// What became of a try.
#[derive(Drop)]
pub(crate) enum Tried {
    /// The records are answered.
    Answered(Replies),
    /// One of the requests may be kept. The batch is as it was made.
    Again(Batch),
}

// Whether a request that wasn't put in may be kept, or its ordinal is taken.
fn may_be_kept(fault: &TableFault) -> bool
    ensures { result ≡ may_be_kept fault.now }
{
    matches!(
        fault,
        TableFault::Damaged(_)
            | TableFault::Sqlite(Error::SqliteFailure(ErrorCode::ConstraintViolation(
                Constraint::Unique
            )))
    )
}

// Whether each request was decided, and there was one: an INSERT tells of each.
fn all_decided(overlay: &Overlay, before: u64) -> bool
    ensures { result ≡ (not (overlay.now.decided == before) && not (has_gap (view overlay.now).kept)) }
{
    overlay.decided != before && !overlay.has_gap()
}

// Whether the request of a slot is kept.
fn is_kept<S: Alter>(tx: &mut Transaction<'_, S>, slot: RequestSlot) -> Result<bool, TableFault>
    ensures { Reads S.Store tx.old tx.new
        (λ tables. is_some (kept_in tables.requests tables.references slot.teller slot.number)) result }
{
    let kept = kept_request(tx, slot.teller, slot.number)?;
    Ok(kept.is_some())
}

// Whether the first request of a batch is kept, by rising tellers and numbers. One that is likely new isn't looked up.
fn keeps_first<S: Alter>(
    tx: &mut Transaction<'_, S>,
    overlay: &Overlay,
    is_new: bool,
) -> Result<bool, TableFault>
    ensures { Reads S.Store tx.old tx.new
        (λ tables. not is_new && first_kept tables (view overlay.now).kept) result }
{
    if is_new {
        return Ok(false);
    }
    match overlay.kept.first() {
        Some(slot) => is_kept(tx, *slot),
        None => Ok(false),
    }
}

// Answers the records that a batch is made of as if none of its requests were kept. The requests are put in before
// anything else is written, so that the INSERTs see what was there: who is put in was not kept.
fn answer_unkept<S: Alter>(
    tx: &mut Transaction<'_, S>,
    memory: &mut Memory,
    moment: Moment,
    mut batch: Batch,
) -> Result<Tried, TableFault>
    requires { ∥ Remembers S.Store tx.old.conn.now memory.old ∥₁ }
    ensures says { IfSome (answer_of result) (λ answer. (records : List (List ℕ)) → IsMadeOf batch records
        → Acts S.Store (AddsForRecords (state S.Store tx.old.conn.now).now records) tx.old tx.new
        (HasRoomFor (length records)) (λ tables. tables_past_all tables moment records)
        (λ tables. replies_past_all tables moment records) answer) }
    ensures count { IfSome (replies_of result) (λ replies. length replies ≡ length (reads_of batch)) }
    ensures busy { IfSome (replies_of result) (λ _. HasCleanDisk (state S.Store tx.new.conn.now)
        → IsTrue (state S.Store tx.old.conn.now).in_transaction → (records : List (List ℕ)) → IsMadeOf batch records
        → (tables : Tables) → Shows (state S.Store tx.old.conn.now).now tables → HasRoomFor (length records) tables
        → DecidesNone tables moment records → ⊥) }
    ensures stored { IfSome (replies_of result) (λ replies. HasCleanDisk (state S.Store tx.new.conn.now)
        → IsTrue (state S.Store tx.old.conn.now).in_transaction
        → (records : List (List ℕ)) → IsMadeOf batch records
        → AnswersAll (state S.Store tx.old.conn.now).now (state S.Store tx.new.conn.now).now moment records
        replies) }
    ensures again { IfSome (batch_of result) (IsMadeAgain batch) }
    ensures quiet { Says S.Store tx.old tx.new (λ _ _. ⊤) (Inside KeepsCommit) }
    ensures remembers { IfSome (replies_of result) (λ _. ∥ Keeps S.Store tx.old tx.new memory.new ∥₁) }
    ensures recalls { IfSome (batch_of result) (λ _. ∥ FitsBefore S.Store tx.old tx.new memory.new ∥₁) }
{
    fill_known(tx, memory, &mut batch.overlay)?;
    let before = batch.overlay.decided;
    let judged = batch.judge(moment);
    if !all_decided(&judged.overlay, before) {
        return Ok(Tried::Again(judged.again()));
    }
    match put_requests(tx, &judged.overlay.requests) {
        Ok(()) => {
            write_after(tx, memory, &judged.overlay)?;
            Ok(Tried::Answered(judged.into_replies()))
        }
        Err(fault) if may_be_kept(&fault) => Ok(Tried::Again(judged.again())),
        Err(fault) => Err(fault),
    }
}

// Answers the records so, unless the first request is kept: a batch that was sent again is mostly kept whole.
fn answer_new<S: Alter>(
    tx: &mut Transaction<'_, S>,
    memory: &mut Memory,
    moment: Moment,
    batch: Batch,
    is_new: bool,
) -> Result<Tried, TableFault>
    requires { ∥ Remembers S.Store tx.old.conn.now memory.old ∥₁ }
    ensures says { IfSome (answer_of result) (λ answer. (records : List (List ℕ)) → IsMadeOf batch records
        → Acts S.Store (AddsForRecords (state S.Store tx.old.conn.now).now records) tx.old tx.new
        (HasRoomFor (length records)) (λ tables. tables_past_all tables moment records)
        (λ tables. replies_past_all tables moment records) answer) }
    ensures count { IfSome (replies_of result) (λ replies. length replies ≡ length (reads_of batch)) }
    ensures busy { IfSome (replies_of result) (λ _. HasCleanDisk (state S.Store tx.new.conn.now)
        → IsTrue (state S.Store tx.old.conn.now).in_transaction → (records : List (List ℕ)) → IsMadeOf batch records
        → (tables : Tables) → Shows (state S.Store tx.old.conn.now).now tables → HasRoomFor (length records) tables
        → DecidesNone tables moment records → ⊥) }
    ensures stored { IfSome (replies_of result) (λ replies. HasCleanDisk (state S.Store tx.new.conn.now)
        → IsTrue (state S.Store tx.old.conn.now).in_transaction
        → (records : List (List ℕ)) → IsMadeOf batch records
        → AnswersAll (state S.Store tx.old.conn.now).now (state S.Store tx.new.conn.now).now moment records
        replies) }
    ensures again { IfSome (batch_of result) (IsMadeAgain batch) }
    ensures quiet { Says S.Store tx.old tx.new (λ _ _. ⊤) (Inside KeepsCommit) }
    ensures remembers { IfSome (replies_of result) (λ _. ∥ Keeps S.Store tx.old tx.new memory.new ∥₁) }
    ensures recalls { IfSome (batch_of result) (λ _. ∥ FitsBefore S.Store tx.old tx.new memory.new ∥₁) }
{
    if keeps_first(tx, &batch.overlay, is_new)? {
        return Ok(Tried::Again(batch));
    }
    answer_unkept(tx, memory, moment, batch)
}

/// Tries a batch as if none of its requests were kept. Its first one is looked up, unless it is likely new. Where one may
/// be kept, nothing was done. That an INSERT tells of it rests on the UNIQUE of `request`.
pub(crate) fn try_new<S: Alter>(
    conn: &mut Connection<S>,
    memory: &mut Memory,
    moment: Moment,
    batch: Batch,
    is_new: bool,
) -> Result<Tried, TableFault>
    requires mode { conn.old.in_transaction ≡ false }
    requires remembers { ∥ Remembers S.Store conn.old memory.old ∥₁ }
    ensures says { IfSome (answer_of result) (λ answer. (records : List (List ℕ)) → IsMadeOf batch records
        → Transacts S.Store (AddsForRecords (state S.Store conn.old).now records) conn.old conn.new
        (HasRoomFor (length records)) (λ tables. tables_past_all tables moment records)
        (λ tables. replies_past_all tables moment records) answer) }
    ensures count { IfSome (replies_of result) (λ replies. length replies ≡ length (reads_of batch)) }
    ensures busy { IfSome (replies_of result) (λ _.
        HasCleanDisk (state S.Store conn.new) → (records : List (List ℕ)) → IsMadeOf batch records
        → (tables : Tables) → Shows (state S.Store conn.old).now tables → HasRoomFor (length records) tables
        → DecidesNone tables moment records → ⊥) }
    ensures stored { IfSome (replies_of result) (λ replies. HasCleanDisk (state S.Store conn.new)
        → (records : List (List ℕ)) → IsMadeOf batch records
        → AnswersAll (state S.Store conn.old).now (state S.Store conn.new).now moment records replies) }
    ensures undone { IfSome (answer_of result) (λ answer. (records : List (List ℕ)) → IsMadeOf batch records
        → UndoesFaults S.Store conn.old conn.new answer) }
    // A crash leaves what it could leave before, or all of the batch.
    ensures whole { (records : List (List ℕ)) → IsMadeOf batch records
        → Survives (state S.Store conn.old) (state S.Store conn.new)
        (KeepsWhole (state S.Store conn.old).now moment records) }
    ensures again { IfSome (batch_of result) (λ again. IsMadeAgain batch again
        × IsAsBefore S.Store conn.old conn.new) }
    ensures remembers { OnOk result (∥ Remembers S.Store conn.new memory.new ∥₁) }
{
    let mut tx = begin(conn);
    let tried = answer_new(&mut tx, memory, moment, batch, is_new);
    if let Ok(Tried::Again(batch)) = tried {
        tx.rollback();
        // The store is asked whether it is open still.
        probe_table(conn, BankTable::Meta)?;
        return Ok(Tried::Again(batch));
    }
    finish(tx, tried)
}
