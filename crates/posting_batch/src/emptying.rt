//! Slots are emptied, to be filled again.
ghost use Rattle.std.specs.Prelude.{◌≡◌, [], map};

use crate::overlay::Overlay;
use crate::slots::{AccountSlot, BranchSlot, FloorSlot, RequestSlot, TellerSlot};
use posting_rules::Books;

/// A slot that can be emptied.
pub(crate) trait Emptied: Copy {
    ghost empty: { Self → Self };

    /// It with its key alone.
    fn emptied(self) -> Self
        ensures { result ≡ empty self };
}

impl Emptied for BranchSlot {
    ghost use Rattle.posting_batch.specs.Slots.{empty_branch};

    ghost empty = { λ s. empty_branch s.branch };

    fn emptied(self) -> Self {
        BranchSlot {
            branch: self.branch,
            stored: None,
            changed: None,
        }
    }
}

impl Emptied for FloorSlot {
    ghost use Rattle.posting_batch.specs.Slots.{empty_floor};

    ghost empty = { λ s. empty_floor s.branch };

    fn emptied(self) -> Self {
        FloorSlot {
            branch: self.branch,
            floor: None,
        }
    }
}

impl Emptied for TellerSlot {
    ghost use Rattle.posting_batch.specs.Slots.{empty_teller};

    ghost empty = { λ s. empty_teller s.teller };

    fn emptied(self) -> Self {
        TellerSlot {
            teller: self.teller,
            stored: None,
            changed: None,
        }
    }
}

impl Emptied for AccountSlot {
    ghost use Rattle.posting_batch.specs.Slots.{empty_account};

    ghost empty = { λ s. empty_account s.account };

    fn emptied(self) -> Self {
        AccountSlot {
            account: self.account,
            stored: None,
            changed: None,
        }
    }
}

impl Emptied for RequestSlot {
    ghost use Rattle.posting_batch.specs.Slots.{empty_request};

    ghost empty = { λ s. empty_request s.teller s.number };

    fn emptied(self) -> Self {
        RequestSlot {
            teller: self.teller,
            number: self.number,
            kept: None,
            books: Books::Current,
        }
    }
}

// Empties slots.
fn empty_all<T: Emptied>(slots: &mut [T])
    ensures { slots.new ≡ map T.empty slots.old }
{
    for slot in slots.iter_mut() {
        *slot = (*slot).emptied();
    }
}

impl Overlay {
    ghost use Rattle.posting_batch.specs.Batch.{blanked};
    ghost use Rattle.posting_batch.specs.View.{view};

    // Empties the slots and takes out the new rows. Their room stays.
    pub(crate) fn clear(&mut self)
        ensures overlay { view self.new ≡ blanked (view self.old) }
        ensures history { (self.new.history.items ≡ []) × (self.new.history.capacity ≡ self.old.history.capacity) }
        ensures requests { (self.new.requests.items ≡ [])
            × (self.new.requests.capacity ≡ self.old.requests.capacity) }
        ensures references { (self.new.references.items ≡ [])
            × (self.new.references.capacity ≡ self.old.references.capacity) }
    {
        empty_all(&mut self.branches);
        empty_all(&mut self.floors);
        empty_all(&mut self.tellers);
        empty_all(&mut self.accounts);
        empty_all(&mut self.kept);
        self.decided = 0;
        self.history.clear();
        self.requests.clear();
        self.references.clear();
    }
}
