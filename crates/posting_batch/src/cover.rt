//! An empty slot for every key that a record can touch.
ghost use Rattle.std.specs.Prelude.{◌≡◌, ◌≤◌, ◌+◌, ◌++◌, map, length, vec_len, vec_capacity};
ghost use Rattle.std.specs.Prelude.{Ok};
ghost use Rattle.smallvec.specs.SmallVec.{HasRoomFor};
ghost use Rattle.message_records.specs.believed.Reading.{request_of};
ghost use Rattle.posting_batch.specs.Batch.{covering, covering_all, with_branch_slot};
ghost use Rattle.posting_batch.specs.Room.{AddsAtMost, AddsSlots, HasRoomForSlots};
ghost use Rattle.posting_batch.specs.View.{view};

use crate::overlay::{Overlay, put};
use crate::placement::place;
use crate::slots::{AccountSlot, BranchSlot, FloorSlot, RequestSlot, TellerSlot};
use message_records::{Bad, REQUEST_BYTES, Request, decode_request};
use posting_rules::{Books, branch_of_account, branch_of_teller};
use smallvec::SmallVec;

// Places an empty slot for a branch, for which there is room.
fn place_branch<const N: usize>(slots: &mut SmallVec<BranchSlot, N>, branch: u64)
    requires { HasRoomFor slots.old 1 }
    ensures items { slots.new.items ≡ with_branch_slot branch slots.old.items }
    ensures room { AddsAtMost 1 slots.old slots.new }
{
    let empty = BranchSlot {
        branch,
        stored: None,
        changed: None,
    };
    place(slots, empty);
}

impl Overlay {
    /// Places an empty slot under every key that a request can touch, for which there is room.
    pub(crate) fn cover(&mut self, request: &Request)
        requires room { HasRoomForSlots 1 self.old }
        ensures overlay { view self.new ≡ covering (view self.old) (Ok request.now) }
        ensures slots { AddsSlots self.old self.new }
        ensures history { self.new.history ≡ self.old.history }
        ensures requests { self.new.requests ≡ self.old.requests }
        ensures references { self.new.references ≡ self.old.references }
    {
        place_branch(&mut self.branches, branch_of_teller(request.teller()));
        place_branch(&mut self.branches, branch_of_account(request.account()));
        let floor = FloorSlot {
            branch: branch_of_account(request.account()),
            floor: None,
        };
        place(&mut self.floors, floor);
        let teller = TellerSlot {
            teller: request.teller(),
            stored: None,
            changed: None,
        };
        place(&mut self.tellers, teller);
        let account = AccountSlot {
            account: request.account(),
            stored: None,
            changed: None,
        };
        place(&mut self.accounts, account);
        let kept = RequestSlot {
            teller: request.teller(),
            number: request.number(),
            kept: None,
            books: Books::Current,
        };
        place(&mut self.kept, kept);
    }
}

/// Decodes records and places their slots, for which there is room.
pub(crate) fn decode_all(
    records: &[[u8; REQUEST_BYTES]],
    reads: &mut Vec<Result<Request, Bad>>,
    overlay: &mut Overlay,
)
    requires reads { vec_len reads.old + length records.now ≤ vec_capacity reads.old }
    requires room { HasRoomForSlots (length records.now) overlay.old }
    ensures reads { reads.new.items ≡ reads.old.items ++ map request_of records.now }
    ensures overlay { view overlay.new ≡ covering_all (view overlay.old) (map request_of records.now) }
    ensures history { overlay.new.history ≡ overlay.old.history }
    ensures requests { overlay.new.requests ≡ overlay.old.requests }
    ensures references { overlay.new.references ≡ overlay.old.references }
{
    for bytes in records {
        let read = decode_request(bytes);
        if let Ok(request) = &read {
            overlay.cover(request);
        }
        put(reads, read);
    }
}
