//! Rows that are compared one by one.
ghost use Rattle.std.specs.Prelude.{◌≡◌, ◌≢◌, ◌↔◌, pos, List, IsTrue, Some};
ghost use Rattle.sqlite.specs.Effect.{Database};
ghost use Rattle.bank_replays.specs.Damaged.{AreHeld};
ghost use Rattle.bank_replays.specs.Holding.{accounts_held, branches_held, closings_held, floors_held, history_held, metas_held};
ghost use Rattle.bank_replays.specs.Holding.{references_held, requests_held, tellers_held};
ghost use Rattle.bank_replays.specs.NextRows.{AreFirst, HaveRisingKeys, Sets};
ghost use Rattle.bank_replays.specs.declared.difference.Difference.TheVariants.{Account, Branch, Closing, Floor, Meta, Posting};
ghost use Rattle.bank_replays.specs.declared.difference.Difference.TheVariants.{Reference, Request, Teller};

use crate::difference::{Difference, Sides};
use crate::visitors::SmallRow;
use walked_rows::{
    StoredAccount, StoredBranch, StoredClosing, StoredFloor, StoredMeta, StoredPosting,
    StoredReference, StoredRequest, StoredTeller,
};

/// A row that is compared with the one that the rules give.
pub(crate) trait Compared: SmallRow {
    ghost use Rattle.bank_replays.specs.declared.difference.Difference.{Difference};
    ghost use Rattle.bank_replays.specs.declared.difference.Sides.{Sides};

    /// The difference is the one of its table that has these sides.
    ghost Says: { Difference → Sides Self → Type 0 };

    /// Whether it is that row.
    fn is_same(&self, due: &Self) -> bool
        ensures { IsTrue result ↔ (Self.WalkedRow.item self.now ≡ Self.WalkedRow.item due.now) };

    /// Its key.
    fn number(&self) -> u64
        ensures { Self.WalkedRow.key (Self.WalkedRow.item self.now) ≡ pos result };

    /// The difference of these two.
    fn difference(sides: Sides<Self>) -> Difference
        ensures { Says result sides };

    /// Those that can't be read are among the rows of a file.
    ghost held: { AreHeld Self.HasItems Self.Breaks };

    /// A file has them by rising keys.
    ghost rise: { (db : Database) (all : List Self.Item) → Self.HasItems db all → HaveRisingKeys Self.key all };
}

/// What two rows that come next say of their tables.
pub(crate) enum Step {
    Same,
    Ended,
    Differs(Difference),
}

// The rows under the lesser of their two keys.
fn sides<R: Compared>(stands: R, due: R) -> Sides<R>
    requires { R.WalkedRow.item stands ≢ R.WalkedRow.item due }
    ensures { AreFirst R.WalkedRow.key R.WalkedRow.item (Some stands) (Some due) result }
{
    let stood = stands.number();
    let ruled = due.number();
    if stood < ruled {
        return Sides {
            stands: Some(stands),
            due: None,
        };
    }
    if ruled < stood {
        return Sides {
            stands: None,
            due: Some(due),
        };
    }
    Sides {
        stands: Some(stands),
        due: Some(due),
    }
}

/// Compares the rows that come next, none where a table has ended.
pub(crate) fn compare_next<R: Compared>(stands: Option<R>, due: Option<R>) -> Step
    ensures { Sets R.WalkedRow.key R.WalkedRow.item R.Compared.Says stands due result }
{
    match (stands, due) {
        (None, None) => Step::Ended,
        (Some(stands), Some(due)) => {
            if stands.is_same(&due) {
                return Step::Same;
            }
            Step::Differs(R::difference(sides(stands, due)))
        }
        (Some(stands), None) => Step::Differs(R::difference(Sides {
            stands: Some(stands),
            due: None,
        })),
        (None, Some(due)) => Step::Differs(R::difference(Sides {
            stands: None,
            due: Some(due),
        })),
    }
}

impl Compared for StoredMeta {
    ghost Says = { λ d s. d ≡ Meta s };

    ghost held = { metas_held };

    ghost rise = { λ db rows has. has.holds.rows.rise };

    fn is_same(&self, due: &Self) -> bool {
        self == due
    }

    fn number(&self) -> u64 {
        self.id.get()
    }

    fn difference(sides: Sides<Self>) -> Difference
        ensures { result ≡ Difference.Meta sides }
    {
        Difference::Meta(sides)
    }
}

impl Compared for StoredBranch {
    ghost Says = { λ d s. d ≡ Branch s };

    ghost held = { branches_held };

    ghost rise = { λ db rows has. has.holds.rows.rise };

    fn is_same(&self, due: &Self) -> bool {
        self == due
    }

    fn number(&self) -> u64 {
        self.branch.get()
    }

    fn difference(sides: Sides<Self>) -> Difference
        ensures { result ≡ Difference.Branch sides }
    {
        Difference::Branch(sides)
    }
}

impl Compared for StoredTeller {
    ghost Says = { λ d s. d ≡ Teller s };

    ghost held = { tellers_held };

    ghost rise = { λ db rows has. has.holds.rows.rise };

    fn is_same(&self, due: &Self) -> bool {
        self == due
    }

    fn number(&self) -> u64 {
        self.teller.get()
    }

    fn difference(sides: Sides<Self>) -> Difference
        ensures { result ≡ Difference.Teller sides }
    {
        Difference::Teller(sides)
    }
}

impl Compared for StoredAccount {
    ghost Says = { λ d s. d ≡ Account s };

    ghost held = { accounts_held };

    ghost rise = { λ db rows has. has.holds.rows.rise };

    fn is_same(&self, due: &Self) -> bool {
        self == due
    }

    fn number(&self) -> u64 {
        self.account.get()
    }

    fn difference(sides: Sides<Self>) -> Difference
        ensures { result ≡ Difference.Account sides }
    {
        Difference::Account(sides)
    }
}

impl Compared for StoredPosting {
    ghost Says = { λ d s. d ≡ Posting s };

    ghost held = { history_held };

    ghost rise = { λ db rows has. has.holds.rows.rise };

    fn is_same(&self, due: &Self) -> bool {
        self == due
    }

    fn number(&self) -> u64 {
        self.ordinal.get()
    }

    fn difference(sides: Sides<Self>) -> Difference
        ensures { result ≡ Difference.Posting sides }
    {
        Difference::Posting(sides)
    }
}

impl Compared for StoredRequest {
    ghost Says = { λ d s. d ≡ Request s };

    ghost held = { requests_held };

    ghost rise = { λ db rows has. has.holds.rows.rise };

    fn is_same(&self, due: &Self) -> bool {
        self == due
    }

    fn number(&self) -> u64 {
        self.ordinal.get()
    }

    fn difference(sides: Sides<Self>) -> Difference
        ensures { result ≡ Difference.Request sides }
    {
        Difference::Request(sides)
    }
}

impl Compared for StoredFloor {
    ghost Says = { λ d s. d ≡ Floor s };

    ghost held = { floors_held };

    ghost rise = { λ db rows has. has.holds.rows.rise };

    fn is_same(&self, due: &Self) -> bool {
        self == due
    }

    fn number(&self) -> u64 {
        self.branch.get()
    }

    fn difference(sides: Sides<Self>) -> Difference
        ensures { result ≡ Difference.Floor sides }
    {
        Difference::Floor(sides)
    }
}

impl Compared for StoredClosing {
    ghost Says = { λ d s. d ≡ Closing s };

    ghost held = { closings_held };

    ghost rise = { λ db rows has. has.holds.rows.rise };

    fn is_same(&self, due: &Self) -> bool {
        self == due
    }

    fn number(&self) -> u64 {
        self.last.get()
    }

    fn difference(sides: Sides<Self>) -> Difference
        ensures { result ≡ Difference.Closing sides }
    {
        Difference::Closing(sides)
    }
}

impl Compared for StoredReference {
    ghost Says = { λ d s. d ≡ Reference s };

    ghost held = { references_held };

    ghost rise = { λ db rows has. has.holds.rows.rise };

    fn is_same(&self, due: &Self) -> bool {
        self == due
    }

    fn number(&self) -> u64 {
        self.ordinal.get()
    }

    fn difference(sides: Sides<Self>) -> Difference
        ensures { result ≡ Difference.Reference sides }
    {
        Difference::Reference(sides)
    }
}
