//! A batch of records: made from them, filled from the tables, and judged.
ghost use Rattle.std.specs.Prelude.{◌≡◌, ◌≤◌, ◌+◌, ℕ, List, [], ◌∷◌, map, length};
ghost use Rattle.std.specs.Prelude.{IfOk, Ok};
ghost use Rattle.smallvec.specs.SmallVec.{HasRoomFor};
ghost use Rattle.message_records.specs.believed.Reading.{request_of};
ghost use Rattle.posting_rules.specs.declared.limits.TheConstants.{RECORDS_PER_BATCH};
ghost use Rattle.posting_rules.specs.believed.Tables.{Tables};
ghost use Rattle.posting_batch.specs.Batch.{CoversAll, HasNextOrdinals, HasRisingSlots};
ghost use Rattle.posting_batch.specs.believed.Batch.{HasFreeOrdinals};
ghost use Rattle.posting_batch.specs.Batch.{IsJudged, blanked};
ghost use Rattle.posting_batch.specs.Reads.{reads_in};

use crate::cover::decode_all;
use crate::overlay::Overlay;
use crate::reads::Reads;
use message_records::{Moment, REPLY_BYTES, REQUEST_BYTES, Request};
use posting_rules::RECORDS_PER_BATCH;
use smallvec::SmallVec;
use std::alloc::{AllocError, Global};

/// Replies of 200 bytes. A single one lies in the value itself.
pub type Replies = SmallVec<[u8; REPLY_BYTES], 1>;

/// Records, a slot for each key that they can touch, and room for all that they come to.
pub struct Batch {
    reads: Reads,
    /// Its slots are filled from the tables before the records are judged.
    pub overlay: Overlay,
    replies: Replies,
    ghost fresh: { replies.items ≡ [] },
    ghost room: { length (reads_in reads) ≤ replies.capacity },
    ghost requests: { HasRoomFor overlay.requests (length (reads_in reads)) },
    ghost history: { HasRoomFor overlay.history (length (reads_in reads)) },
    ghost references: { HasRoomFor overlay.references (length (reads_in reads)) },
}

/// A batch whose records are judged: what is to be written, and what is to be answered then.
#[must_use]
pub struct Judged {
    /// The changed rows and the new ones.
    pub overlay: Overlay,
    /// The replies of 200 bytes in order, one to each record.
    pub replies: Replies,
    reads: Reads,
    ghost room: { length (reads_in reads) ≤ replies.capacity },
    ghost requests: { length (reads_in reads) ≤ overlay.requests.capacity },
    ghost history: { length (reads_in reads) ≤ overlay.history.capacity },
    ghost references: { length (reads_in reads) ≤ overlay.references.capacity },
}

// As that of an overlay.
impl Drop for Batch {
    fn drop(self) {
        let Batch {
            reads: _,
            overlay: _,
            replies: _,
        } = self;
    }
}

impl Drop for Judged {
    fn drop(self) {
        let Judged {
            overlay: _,
            replies: _,
            reads: _,
        } = self;
    }
}

impl Judged {
    ghost use Rattle.posting_batch.specs.View.{view, reads_judged, reads_of};

    /// The batch as it was made, to be filled and judged again. It takes no memory.
    pub fn again(self) -> Batch
        ensures reads { reads_of result ≡ reads_judged self }
        ensures overlay { view result.overlay ≡ blanked (view self.overlay) }
    {
        let Judged {
            mut overlay,
            mut replies,
            reads,
        } = self;
        overlay.clear();
        replies.clear();
        Batch {
            reads,
            overlay,
            replies,
        }
    }

    /// The replies alone.
    pub fn into_replies(self) -> Replies
        ensures { result ≡ self.replies }
    {
        let Judged {
            overlay: _,
            replies,
            reads: _,
        } = self;
        replies
    }
}

impl Batch {
    ghost use Rattle.posting_batch.specs.View.{view, reads_of, CanBeMadeAgain, IsMadeOf, IsFilledFrom};

    /// Decodes up to `RECORDS_PER_BATCH` records, and places an empty slot under every key that they can
    /// touch. All that a batch ever takes of memory is taken here; where it was refused, nothing is left.
    pub fn new(alloc: Global, records: &[[u8; REQUEST_BYTES]]) -> Result<Self, AllocError>
        requires { length records.now ≤ RECORDS_PER_BATCH }
        ensures made { IfOk result (λ batch. IsMadeOf batch records.now) }
        ensures covers { IfOk result (λ batch. CoversAll (view batch.overlay) (map request_of records.now)) }
        ensures rising { IfOk result (λ batch. HasRisingSlots (view batch.overlay)) }
    {
        let count = records.len();
        let mut overlay = Overlay::for_records(alloc, count)?;
        let mut reads = Vec::with_capacity(alloc, count)?;
        let replies = SmallVec::with_capacity(alloc, count)?;
        decode_all(records, &mut reads, &mut overlay);
        Ok(Batch {
            reads: Reads::Many(reads),
            overlay,
            replies,
        })
    }

    /// A batch of a single request, with an empty slot under each key that it can touch. All of it lies in the
    /// value itself, so that no memory is taken of the allocator.
    #[must_use]
    pub fn of_one(alloc: Global, request: Request) -> Self
        ensures { (bytes : List ℕ) → request_of bytes ≡ Ok request → IsMadeOf result (bytes ∷ []) }
    {
        let mut overlay = Overlay::for_one(alloc);
        overlay.cover(&request);
        Batch {
            reads: Reads::One(Ok(request)),
            overlay,
            replies: SmallVec::new(alloc),
        }
    }

    /// Judges the records of a batch that is filled, in order (TPC-B 1.2): each sees what the ones before it
    /// left. It takes no memory, and can't fail. The moment is that of every posting.
    pub fn judge(self, moment: Moment) -> Judged
        // What it leaves and answers is what the records leave of the tables and are answered, where each
        // ordinal that they may come to is free there.
        ensures judged { (t : Tables) (records : List (List ℕ)) → IsFilledFrom self t records
            → HasFreeOrdinals t (length records)
            → IsJudged (view result.overlay) result.replies.items t moment records }
        // Where no row is new before it, the new ones are under the next ordinals, at most one a record.
        ensures next { HasNextOrdinals self.overlay.decided 0 (view self.overlay)
            → HasNextOrdinals self.overlay.decided (length (reads_of self)) (view result.overlay) }
        // Each changed row is written once.
        ensures rising { HasRisingSlots (view self.overlay) → HasRisingSlots (view result.overlay) }

        // Each record has its reply, and each decided request is counted. Where none is decided, nothing is
        // changed and nothing is new.
        ensures count { length result.replies.items ≡ length (reads_of self) }
        ensures counts { result.overlay.decided + length self.overlay.requests.items
            ≡ self.overlay.decided + length result.overlay.requests.items }
        ensures idle { result.overlay.decided ≡ self.overlay.decided
            → view result.overlay ≡ view self.overlay }

        // It can be made again.
        ensures again { CanBeMadeAgain self result }
    {
        let Batch {
            reads,
            mut overlay,
            mut replies,
        } = self;
        overlay.judge_records(moment, reads.as_slice(), &mut replies);
        Judged {
            overlay,
            replies,
            reads,
        }
    }
}
