//! Records are judged in the slots of a batch, one after another.
ghost use Rattle.std.specs.Prelude.{◌≡◌, ◌≤◌, ◌<◌, ◌+◌, ◌++◌, [], ◌∷◌, map, length, vec_len, vec_capacity};
ghost use Rattle.std.specs.Prelude.{IfOk, IsTrue, Ok, OnOk};
ghost use Rattle.smallvec.specs.SmallVec.{HasRoomFor, small_vec_len};
ghost use Rattle.message_records.specs.believed.Spelling.{reply_spelling};
ghost use Rattle.posting_rules.specs.declared.limits.TheConstants.{MAX_DECIDED, RECORDS_PER_BATCH};
ghost use Rattle.posting_rules.specs.Cases.{IsProper};
ghost use Rattle.posting_rules.specs.believed.Entries.{posted_entry};
ghost use Rattle.posting_rules.specs.believed.Kept.{is_kept_with};
ghost use Rattle.posting_batch.specs.Judging.{reference_after};

use crate::batch::Replies;
use crate::changes::{change_at, keep_at};
use crate::search::{balance_at, books_at, kept_at, stored_floor};
use crate::slots::{AccountSlot, BranchSlot, FloorSlot, RequestSlot, TellerSlot};
use message_records::{Bad, Cents, Moment, Outcome, REPLY_BYTES, Reference, Request, encode_reply};
use posting_rules::{
    Found, HistoryRow, MAX_DECIDED, Ordinal, ReferenceRow, RequestRow, Verdict, branch_of_account,
    branch_of_teller, judge, malformed_reply, reply_to,
};
use smallvec::SmallVec;
use std::alloc::{AllocError, Global};

// Puts a row after the others, for which there is room.
fn put_row<T: Drop, const N: usize>(rows: &mut SmallVec<T, N>, row: T)
    requires { HasRoomFor rows.old 1 }
    ensures items { rows.new.items ≡ rows.old.items ++ row ∷ [] }
    ensures len { small_vec_len rows.new ≡ small_vec_len rows.old + 1 }
    ensures capacity { rows.new.capacity ≡ rows.old.capacity }
{
    rows.push_reserved(row);
}

// Puts the reference of a decided request after the others, where it has one, for which there is room.
fn put_reference<const N: usize>(
    rows: &mut SmallVec<ReferenceRow, N>,
    ordinal: Ordinal,
    reference: Option<Reference>,
)
    requires { HasRoomFor rows.old 1 }
    ensures items { rows.new.items ≡ reference_after ordinal reference rows.old.items }
    ensures len { small_vec_len rows.new ≤ small_vec_len rows.old + 1 }
    ensures capacity { rows.new.capacity ≡ rows.old.capacity }
{
    if let Some(reference) = reference {
        put_row(rows, ReferenceRow { ordinal, reference });
    }
}

// Puts something after the others, for which there is room.
pub(crate) fn put<T: Drop>(items: &mut Vec<T>, item: T)
    requires { vec_len items.old < vec_capacity items.old }
    ensures items { items.new.items ≡ items.old.items ++ item ∷ [] }
    ensures len { vec_len items.new ≡ vec_len items.old + 1 }
    ensures capacity { vec_capacity items.old ≤ vec_capacity items.new }
{
    let _ = items.push(item);
}

/// What is known of the rows that records can touch, and the rows that are new. What a single record comes to
/// lies in the value itself; what more of them come to, in memory that is taken before they are judged.
pub struct Overlay {
    /// The branches of their tellers and of their accounts, by rising numbers.
    pub branches: SmallVec<BranchSlot, 2>,
    /// The floors of their accounts' branches, by rising numbers.
    pub floors: SmallVec<FloorSlot, 1>,
    /// Their tellers, by rising numbers.
    pub tellers: SmallVec<TellerSlot, 1>,
    /// Their accounts, by rising numbers.
    pub accounts: SmallVec<AccountSlot, 1>,
    /// What is kept of their requests, and what closed books say of them, by rising tellers and numbers.
    pub kept: SmallVec<RequestSlot, 1>,
    /// How many requests are decided: 0..=`MAX_DECIDED`.
    pub decided: u64,
    /// The postings that are new, in the order of their ordinals.
    pub history: SmallVec<HistoryRow, 1>,
    /// The decided requests that are new, in the order of their ordinals.
    pub requests: SmallVec<RequestRow, 1>,
    /// The references of those that have one, in the same order.
    pub references: SmallVec<ReferenceRow, 1>,
    ghost few: { decided ≤ MAX_DECIDED },
}

// Written out, so that it is a call where an owner ends: derived, its lists stand at each such end, in two ways each.
impl Drop for Overlay {
    fn drop(self) {
        let Overlay {
            branches: _,
            floors: _,
            tellers: _,
            accounts: _,
            kept: _,
            decided: _,
            history: _,
            requests: _,
            references: _,
        } = self;
    }
}

impl Overlay {
    ghost use Rattle.posting_batch.specs.Judging.{found_over, overlay_kept, overlay_posted, overlay_after};
    ghost use Rattle.posting_batch.specs.Judging.{overlay_with, reply_over, overlay_with_all, replies_over};
    ghost use Rattle.posting_batch.specs.Batch.{has_gap};
    ghost use Rattle.posting_batch.specs.View.{view, IsForRecords};

    // One without a slot and without a new row, with room for what a single record comes to.
    pub(crate) fn for_one(alloc: Global) -> Self
        ensures { IsForRecords 1 result }
    {
        Overlay {
            branches: SmallVec::new(alloc),
            floors: SmallVec::new(alloc),
            tellers: SmallVec::new(alloc),
            accounts: SmallVec::new(alloc),
            kept: SmallVec::new(alloc),
            decided: 0,
            history: SmallVec::new(alloc),
            requests: SmallVec::new(alloc),
            references: SmallVec::new(alloc),
        }
    }

    // The same, with room for what so many records come to.
    pub(crate) fn for_records(alloc: Global, count: usize) -> Result<Self, AllocError>
        requires { count ≤ RECORDS_PER_BATCH }
        ensures { IfOk result (IsForRecords count) }
    {
        let mut overlay = Self::for_one(alloc);
        overlay.make_room(count)?;
        Ok(overlay)
    }

    // Makes room in an empty one for what so many records come to.
    fn make_room(&mut self, count: usize) -> Result<(), AllocError>
        requires few { count ≤ RECORDS_PER_BATCH }
        requires empty { IsForRecords 1 self.old }
        ensures { OnOk result (IsForRecords count self.new) }
    {
        self.branches.reserve_exact(2 * count)?;
        self.floors.reserve_exact(count)?;
        self.tellers.reserve_exact(count)?;
        self.accounts.reserve_exact(count)?;
        self.kept.reserve_exact(count)?;
        self.history.reserve_exact(count)?;
        self.requests.reserve_exact(count)?;
        self.references.reserve_exact(count)
    }

    /// Tests whether a slot of a request keeps none.
    #[must_use]
    pub fn has_gap(&self) -> bool
        ensures { result ≡ has_gap (view self.now).kept }
    {
        self.kept.iter().any(|slot| slot.kept.is_none())
    }

    // All that is looked up for a request.
    fn look_up(&self, request: &Request) -> Found
        ensures value { result ≡ found_over (view self.now) request.now }
        ensures few { result.decided ≤ MAX_DECIDED }
    {
        let teller = balance_at(&self.tellers, request.teller().get());
        let branch = balance_at(&self.branches, branch_of_teller(request.teller()));
        Found {
            teller: teller.zip(branch),
            kept: kept_at(&self.kept, request.teller(), request.number()),
            books: books_at(&self.kept, request.teller(), request.number()),
            decided: self.decided,
            account: balance_at(&self.accounts, request.account().get()),
            floor: stored_floor(&self.floors, branch_of_account(request.account())),
        }
    }

    // Keeps a decided request under the next ordinal, with its reference, for which there is room, and counts
    // it.
    fn keep(&mut self, request: &Request, outcome: Outcome, balance: Cents)
        requires requests { HasRoomFor self.old.requests 1 }
        requires references { HasRoomFor self.old.references 1 }
        requires few { self.old.decided < MAX_DECIDED }
        requires kept { IsTrue (is_kept_with outcome balance) }
        ensures requests { (small_vec_len self.new.requests ≡ small_vec_len self.old.requests + 1)
            × (self.new.requests.capacity ≡ self.old.requests.capacity) }
        ensures references { (small_vec_len self.new.references ≤ small_vec_len self.old.references + 1)
            × (self.new.references.capacity ≡ self.old.references.capacity) }
        ensures history { self.new.history ≡ self.old.history }
        ensures overlay { view self.new
            ≡ overlay_kept (view self.old)
            (record { moment = 0; request = request.now; outcome = outcome; balance = balance }) }
    {
        let ordinal = Ordinal::new(self.decided + 1).unwrap();
        let row = RequestRow::decided(ordinal, request, outcome, balance);
        let kept = row.decision.kept_with(request.reference());
        keep_at(&mut self.kept, request.teller(), request.number(), kept);
        put_row(&mut self.requests, row);
        put_reference(&mut self.references, ordinal, request.reference());
        self.decided += 1;
    }

    // Changes the balances of a posting, and records it under the next ordinal, for which there is room.
    fn move_money(
        &mut self,
        moment: Moment,
        request: &Request,
        account: Cents,
        teller: Cents,
        branch: Cents,
    )
        requires room { HasRoomFor self.old.history 1 }
        requires few { self.old.decided < MAX_DECIDED }
        ensures history { (small_vec_len self.new.history ≡ small_vec_len self.old.history + 1)
            × (self.new.history.capacity ≡ self.old.history.capacity) }
        ensures requests { self.new.requests ≡ self.old.requests }
        ensures references { self.new.references ≡ self.old.references }
        ensures decided { self.new.decided ≡ self.old.decided }
        ensures overlay { overlay_kept (view self.new) (posted_entry moment request.now account)
            ≡ overlay_posted (view self.old) (posted_entry moment request.now account) teller branch }
    {
        let home = branch_of_teller(request.teller());
        change_at(&mut self.accounts, request.account().get(), account);
        change_at(&mut self.tellers, request.teller().get(), teller);
        change_at(&mut self.branches, home, branch);
        let ordinal = Ordinal::new(self.decided + 1).unwrap();
        put_row(
            &mut self.history,
            HistoryRow::posted(ordinal, moment, request),
        );
    }

    // Changes the slots as the verdict says, and puts the new rows, for which there is room.
    fn apply(&mut self, moment: Moment, request: &Request, verdict: &Verdict)
        requires proper { IsProper (found_over (view self.old) request.now) verdict.now }
        requires requests { HasRoomFor self.old.requests 1 }
        requires history { HasRoomFor self.old.history 1 }
        requires references { HasRoomFor self.old.references 1 }
        ensures requests { (small_vec_len self.new.requests ≤ small_vec_len self.old.requests + 1)
            × (self.new.requests.capacity ≡ self.old.requests.capacity) }
        ensures history { (small_vec_len self.new.history ≤ small_vec_len self.old.history + 1)
            × (self.new.history.capacity ≡ self.old.history.capacity) }
        ensures references { (small_vec_len self.new.references ≤ small_vec_len self.old.references + 1)
            × (self.new.references.capacity ≡ self.old.references.capacity) }
        ensures overlay { view self.new ≡ overlay_after (view self.old) moment request.now verdict.now }
    {
        match verdict {
            Verdict::Unkept(_) | Verdict::Again(_) => {}
            Verdict::Refused(outcome) => self.keep(request, *outcome, Cents::zero()),
            Verdict::Posted {
                account,
                teller,
                branch,
            } => {
                self.move_money(moment, request, *account, *teller, *branch);
                self.keep(request, Outcome::Posted, *account);
            }
        }
    }

    // Judges a request by its slots, for which there is room, and answers it (TPC-B 1.2). What it changes is in
    // the slots then, and what is new after the other rows.
    fn judge(&mut self, moment: Moment, request: &Request) -> [u8; REPLY_BYTES]
        requires requests { HasRoomFor self.old.requests 1 }
        requires history { HasRoomFor self.old.history 1 }
        requires references { HasRoomFor self.old.references 1 }
        ensures requests { (small_vec_len self.new.requests ≤ small_vec_len self.old.requests + 1)
            × (self.new.requests.capacity ≡ self.old.requests.capacity) }
        ensures history { (small_vec_len self.new.history ≤ small_vec_len self.old.history + 1)
            × (self.new.history.capacity ≡ self.old.history.capacity) }
        ensures references { (small_vec_len self.new.references ≤ small_vec_len self.old.references + 1)
            × (self.new.references.capacity ≡ self.old.references.capacity) }
        ensures reply { result ≡ reply_spelling (reply_over (view self.old) (Ok request.now)) }
        ensures overlay { view self.new ≡ overlay_with (view self.old) moment (Ok request.now) }
    {
        let found = self.look_up(request);
        let verdict = judge(&found, request);
        self.apply(moment, request, &verdict);
        encode_reply(&reply_to(&found, request, &verdict))
    }

    /// Judges records in order, for which there is room, and puts the replies after the others.
    pub(crate) fn judge_records(
        &mut self,
        moment: Moment,
        reads: &[Result<Request, Bad>],
        replies: &mut Replies,
    )
        requires requests { HasRoomFor self.old.requests (length reads.now) }
        requires history { HasRoomFor self.old.history (length reads.now) }
        requires references { HasRoomFor self.old.references (length reads.now) }
        requires replies { HasRoomFor replies.old (length reads.now) }
        ensures overlay { view self.new ≡ overlay_with_all (view self.old) moment reads.now }
        ensures replies { replies.new.items ≡ replies.old.items
            ++ map reply_spelling (replies_over (view self.old) moment reads.now) }
        // No room is lost.
        ensures room { replies.new.capacity ≡ replies.old.capacity }
        ensures rooms { (self.new.requests.capacity ≡ self.old.requests.capacity)
            × (self.new.history.capacity ≡ self.old.history.capacity)
            × (self.new.references.capacity ≡ self.old.references.capacity) }
    {
        for read in reads {
            let reply = match read {
                Ok(request) => self.judge(moment, request),
                Err(_) => encode_reply(&malformed_reply()),
            };
            put_row(replies, reply);
        }
    }
}
