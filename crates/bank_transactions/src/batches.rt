//! A batch of records in one transaction: each row that its records touch is read once, but for requests that
//! are new, and each row that they change is written once. There is a reply of 200 bytes for each record, in
//! order, and what the records change is found together or not at all.
//!
//! A batch is made of its records by `Batch::new` of `posting_batch`, and answered by [`post_all`]. The
//! function `first_batch` of `store_tests`, which a test runs, submits a record and its repeat in one batch.
//! Both get the same reply, and the amount is posted once:
//!
//! ```rust
//! ghost use Rattle.std.specs.Prelude.{◌≡◌, false};
//!
//! use bank_transactions::{Memory, post_all};
//! use message_records::{Moment, REQUEST_BYTES};
//! use posting_batch::{Batch, Replies};
//! use sqlite::{Alter, Connection};
//! use std::alloc::Global;
//! use std::test::Fail;
//!
//! pub fn first_batch<S: Alter>(
//!     alloc: Global,
//!     conn: &mut Connection<S>,
//!     record: &[u8; REQUEST_BYTES],
//! ) -> Result<Replies, Fail>
//!     requires { conn.old.in_transaction ≡ false }
//! {
//!     let batch = Batch::new(alloc, &[*record, *record])?;
//!     let moment = Moment::new(1_795_442_400).unwrap();
//!     Ok(post_all(conn, &mut Memory::new(), moment, batch)?)
//! }
//! ```
//!
//! [`answer_batch`] is the same inside a transaction, and [`fill`] and [`write`] are what it does before the
//! judging and after it. Read next: `specs/Writing`, what a batch writes; `specs/Batches`, what one leaves
//! in which nothing is decided; `Transacts` of `bank_transactions/specs/Doing`, by which [`post_all`] is
//! said.
ghost use Rattle.std.specs.Prelude.{◌≡◌, ℕ, List, length, false, None, IfOk, IsTrue, OnOk};
ghost use Rattle.sqlite.specs.State.{HasCleanDisk, Survives};
ghost use Rattle.sqlite.specs.Held.{state};
ghost use Rattle.posting_rules.specs.believed.Changes.{tables_past_all, replies_past_all};
ghost use Rattle.posting_rules.specs.believed.Tables.{Tables};
ghost use Rattle.posting_batch.specs.View.{reads_of, IsMadeOf};
ghost use Rattle.store_rows.specs.believed.View.{Shows};
ghost use Rattle.bank_transactions.specs.believed.Additions.{AddsForRecords};
ghost use Rattle.bank_transactions.specs.Doing.{Acts, Transacts};
ghost use Rattle.bank_transactions.specs.believed.Batches.{DecidesNone, HasRoomFor};
ghost use Rattle.bank_transactions.specs.Batches.{items_of, WritesNothing, KeepsOnly};
ghost use Rattle.bank_transactions.specs.believed.Stored.{RepliesToAllStored};
ghost use Rattle.bank_transactions.specs.Memory.{Keeps, Remembers};
ghost use Rattle.bank_transactions.specs.believed.Answered.{AnswersAll, KeepsWhole};
ghost use Rattle.bank_transactions.specs.Undone.{UndoesFaults};

use crate::batch_changes::write;
use crate::first_try::{Tried, try_new};
use crate::slots::fill;
use crate::{Memory, begin, finish};
use message_records::Moment;
use posting_batch::{Batch, Replies};
use sqlite::{Alter, Connection, Transaction};
use store_rows::TableFault;

/// Answers the records that a batch is made of, in order. A batch in which nothing is decided writes nothing.
pub fn answer_batch<S: Alter>(
    tx: &mut Transaction<'_, S>,
    memory: &mut Memory,
    moment: Moment,
    mut batch: Batch,
) -> Result<Replies, TableFault>
    requires { ∥ Remembers S.Store tx.old.conn.now memory.old ∥₁ }
    ensures same_reference { tx.new.conn.ghost_name ≡ tx.old.conn.ghost_name }
    ensures says { (records : List (List ℕ)) → IsMadeOf batch records
        → Acts S.Store (AddsForRecords (state S.Store tx.old.conn.now).now records) tx.old tx.new
        (HasRoomFor (length records)) (λ tables. tables_past_all tables moment records)
        (λ tables. replies_past_all tables moment records) (items_of result) }
    ensures count { IfOk result (λ replies. length replies.items ≡ length (reads_of batch)) }
    ensures idle { OnOk result
        (HasCleanDisk (state S.Store tx.new.conn.now) → (records : List (List ℕ)) → IsMadeOf batch records
        → (tables : Tables) → Shows (state S.Store tx.old.conn.now).now tables → HasRoomFor (length records) tables
        → DecidesNone tables moment records
        → WritesNothing (state S.Store tx.old.conn.now)
        (state S.Store tx.new.conn.now) tables moment records) }
    ensures stored { IfOk result (λ replies. HasCleanDisk (state S.Store tx.new.conn.now)
        → (records : List (List ℕ)) → IsMadeOf batch records
        → RepliesToAllStored (state S.Store tx.old.conn.now).now (state S.Store tx.new.conn.now).now moment records
        replies.items) }
    ensures wrote { IfOk result (λ replies. HasCleanDisk (state S.Store tx.new.conn.now)
        → IsTrue (state S.Store tx.old.conn.now).in_transaction
        → (records : List (List ℕ)) → IsMadeOf batch records
        → AnswersAll (state S.Store tx.old.conn.now).now (state S.Store tx.new.conn.now).now moment records
        replies.items) }
    ensures remembers { OnOk result (∥ Keeps S.Store tx.old tx.new memory.new ∥₁) }
{
    fill(tx, memory, &mut batch.overlay)?;
    let before = batch.overlay.decided;
    let judged = batch.judge(moment);
    if judged.overlay.decided != before {
        write(tx, memory, &judged.overlay)?;
    }
    Ok(judged.into_replies())
}

/// Answers the records that a batch is made of as [`post_all`] does, each request looked up. A single one is answered
/// so, which costs less than a try that is refused. It takes no memory.
///
/// # Errors
///
/// As [`open_branch`](crate::open_branch).
pub fn post_looked_up<S: Alter>(
    conn: &mut Connection<S>,
    memory: &mut Memory,
    moment: Moment,
    batch: Batch,
) -> Result<Replies, TableFault>
    requires mode { conn.old.in_transaction ≡ false }
    requires remembers { ∥ Remembers S.Store conn.old memory.old ∥₁ }
    ensures says { (records : List (List ℕ)) → IsMadeOf batch records
        → Transacts S.Store (AddsForRecords (state S.Store conn.old).now records) conn.old conn.new
        (HasRoomFor (length records)) (λ tables. tables_past_all tables moment records)
        (λ tables. replies_past_all tables moment records) (items_of result) }
    ensures count { IfOk result (λ replies. length replies.items ≡ length (reads_of batch)) }
    ensures idle { OnOk result
        (HasCleanDisk (state S.Store conn.new) → (records : List (List ℕ)) → IsMadeOf batch records
        → (tables : Tables) → Shows (state S.Store conn.old).now tables → HasRoomFor (length records) tables
        → DecidesNone tables moment records
        → KeepsOnly (state S.Store conn.old) (state S.Store conn.new) tables moment records) }
    // Whatever rows the file holds.
    ensures stored { IfOk result (λ replies. HasCleanDisk (state S.Store conn.new)
        → (records : List (List ℕ)) → IsMadeOf batch records
        → RepliesToAllStored (state S.Store conn.old).now (state S.Store conn.new).now moment records
        replies.items) }
    ensures wrote { IfOk result (λ replies. HasCleanDisk (state S.Store conn.new)
        → (records : List (List ℕ)) → IsMadeOf batch records
        → AnswersAll (state S.Store conn.old).now (state S.Store conn.new).now moment records replies.items) }
    // A crash leaves what it could leave before, or all of the batch.
    ensures whole { (records : List (List ℕ)) → IsMadeOf batch records
        → Survives (state S.Store conn.old) (state S.Store conn.new)
        (KeepsWhole (state S.Store conn.old).now moment records) }
    ensures undone { (records : List (List ℕ)) → IsMadeOf batch records
        → UndoesFaults S.Store conn.old conn.new (items_of result) }
    // After an error all has to be forgotten.
    ensures remembers { OnOk result (∥ Remembers S.Store conn.new memory.new ∥₁) }
{
    let mut tx = begin(conn);
    let replies = answer_batch(&mut tx, memory, moment, batch);
    finish(tx, replies)
}

/// Answers the records that a batch is made of, in order. They stand together or not at all. Where none of
/// them is decided, the tables are as they were, and a crash leaves nothing else.
pub fn post_all<S: Alter>(
    conn: &mut Connection<S>,
    memory: &mut Memory,
    moment: Moment,
    batch: Batch,
) -> Result<Replies, TableFault>
    requires mode { conn.old.in_transaction ≡ false }
    requires remembers { ∥ Remembers S.Store conn.old memory.old ∥₁ }
    ensures says { (records : List (List ℕ)) → IsMadeOf batch records
        → Transacts S.Store (AddsForRecords (state S.Store conn.old).now records) conn.old conn.new
        (HasRoomFor (length records)) (λ tables. tables_past_all tables moment records)
        (λ tables. replies_past_all tables moment records) (items_of result) }
    ensures count { IfOk result (λ replies. length replies.items ≡ length (reads_of batch)) }
    ensures idle { OnOk result
        (HasCleanDisk (state S.Store conn.new) → (records : List (List ℕ)) → IsMadeOf batch records
        → (tables : Tables) → Shows (state S.Store conn.old).now tables → HasRoomFor (length records) tables
        → DecidesNone tables moment records
        → KeepsOnly (state S.Store conn.old) (state S.Store conn.new) tables moment records) }
    // Whatever rows the file holds.
    ensures stored { IfOk result (λ replies. HasCleanDisk (state S.Store conn.new)
        → (records : List (List ℕ)) → IsMadeOf batch records
        → AnswersAll (state S.Store conn.old).now (state S.Store conn.new).now moment records replies.items) }
    // A crash leaves what it could leave before, or all of the batch.
    ensures whole { (records : List (List ℕ)) → IsMadeOf batch records
        → Survives (state S.Store conn.old) (state S.Store conn.new)
        (KeepsWhole (state S.Store conn.old).now moment records) }
    ensures undone { (records : List (List ℕ)) → IsMadeOf batch records
        → UndoesFaults S.Store conn.old conn.new (items_of result) }
    // After an error all has to be forgotten.
    ensures remembers { OnOk result (∥ Remembers S.Store conn.new memory.new ∥₁) }
{
    let is_new = memory.note_requests(&batch.overlay.kept);
    // A single request is looked up, unless it is likely new.
    if batch.overlay.kept.len() <= 1 && !is_new {
        return post_looked_up(conn, memory, moment, batch);
    }
    match try_new(conn, memory, moment, batch, is_new)? {
        Tried::Answered(replies) => Ok(replies),
        Tried::Again(batch) => {
            memory.expect_repeat(&batch.overlay.kept);
            post_looked_up(conn, memory, moment, batch)
        }
    }
}
