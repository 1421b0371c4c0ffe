//! Slots stand in the order of their keys, one for each key.
ghost use Rattle.std.specs.Prelude.{◌≡◌, ◌≤◌, ◌+◌, Bool, length};
ghost use Rattle.smallvec.specs.SmallVec.{HasRoomFor, small_vec_len};
ghost use Rattle.posting_batch.specs.Placed.{placed, rank};

use crate::slots::{AccountSlot, BranchSlot, FloorSlot, RequestSlot, TellerSlot};
use smallvec::SmallVec;

/// A slot whose key has its place among others.
pub(crate) trait Ranked {
    ghost below: { Self → Self → Bool };

    ghost same: { Self → Self → Bool };

    /// Tests whether its key is below that of another slot.
    fn is_below(&self, other: &Self) -> bool
        ensures { result ≡ below self.now other.now };

    /// Tests whether another slot has the same key.
    fn is_same(&self, other: &Self) -> bool
        ensures { result ≡ same self.now other.now };
}

impl Ranked for AccountSlot {
    ghost use Rattle.posting_batch.specs.Placed.{number_below, number_same};
    ghost use Rattle.posting_batch.specs.Slots.{account_slot_key};

    ghost below = { number_below account_slot_key };

    ghost same = { number_same account_slot_key };

    fn is_below(&self, other: &Self) -> bool {
        self.account.get() < other.account.get()
    }

    fn is_same(&self, other: &Self) -> bool {
        self.account.get() == other.account.get()
    }
}

impl Ranked for TellerSlot {
    ghost use Rattle.posting_batch.specs.Placed.{number_below, number_same};
    ghost use Rattle.posting_batch.specs.Slots.{teller_slot_key};

    ghost below = { number_below teller_slot_key };

    ghost same = { number_same teller_slot_key };

    fn is_below(&self, other: &Self) -> bool {
        self.teller.get() < other.teller.get()
    }

    fn is_same(&self, other: &Self) -> bool {
        self.teller.get() == other.teller.get()
    }
}

impl Ranked for BranchSlot {
    ghost use Rattle.posting_batch.specs.Placed.{number_below, number_same};
    ghost use Rattle.posting_batch.specs.Slots.{branch_slot_key};

    ghost below = { number_below branch_slot_key };

    ghost same = { number_same branch_slot_key };

    fn is_below(&self, other: &Self) -> bool {
        self.branch < other.branch
    }

    fn is_same(&self, other: &Self) -> bool {
        self.branch == other.branch
    }
}

impl Ranked for FloorSlot {
    ghost use Rattle.posting_batch.specs.Placed.{number_below, number_same};
    ghost use Rattle.posting_batch.specs.Slots.{floor_slot_key};

    ghost below = { number_below floor_slot_key };

    ghost same = { number_same floor_slot_key };

    fn is_below(&self, other: &Self) -> bool {
        self.branch < other.branch
    }

    fn is_same(&self, other: &Self) -> bool {
        self.branch == other.branch
    }
}

impl Ranked for RequestSlot {
    ghost use Rattle.posting_batch.specs.Placed.{request_below, request_same};

    ghost below = { request_below };

    ghost same = { request_same };

    fn is_below(&self, other: &Self) -> bool {
        let (teller, number) = (self.teller.get(), self.number.get());
        teller < other.teller.get() || (teller == other.teller.get() && number < other.number.get())
    }

    fn is_same(&self, other: &Self) -> bool {
        self.is_for(other.teller, other.number)
    }
}

// How many slots at the front are below another.
fn rank<T: Ranked>(slots: &[T], other: &T) -> usize
    ensures value { result ≡ rank T.below other.now slots.now }
    ensures within { result ≤ length slots.now }
{
    for place in 0..slots.len() {
        if !slots[place].is_below(other) {
            return place;
        }
    }
    slots.len()
}

/// Places a slot in its order, for which there is room, unless there is one of its key.
pub(crate) fn place<T: Ranked + Copy + Default, const N: usize>(
    slots: &mut SmallVec<T, N>,
    empty: T,
)
    requires { HasRoomFor slots.old 1 }
    ensures items { slots.new.items ≡ placed T.below T.same empty slots.old.items }
    ensures len { small_vec_len slots.new ≤ small_vec_len slots.old + 1 }
    ensures capacity { slots.new.capacity ≡ slots.old.capacity }
{
    let before = rank(slots.as_slice(), &empty);
    if before < slots.len() && slots[before].is_same(&empty) {
        return;
    }
    let _ = slots.insert(before, empty);
}
