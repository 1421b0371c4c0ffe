//! Rows of a bank that are visited one by one.
ghost use Rattle.std.specs.Prelude.{◌≡◌, ◌++◌, ◌∷◌, [], List, Some, None, IfErr, OnOk};
ghost use Rattle.std.proofs.Common.{lit<};
ghost use Rattle.sqlite.specs.State.{HasCleanDisk};
ghost use Rattle.bank_store.specs.Failures.{HasFailedToRead};
ghost use Rattle.bank_store.specs.Room.{TakesFewBytes};
ghost use Rattle.bank_store.specs.believed.Seen.{bank_seen, connection_of, database_of, file_of};
ghost use Rattle.bank_store.specs.Walking.{HasToldFault, items_to_come, lent, lent_state, loan_of};
ghost use Rattle.bank_replays.specs.Damaged.{AreHeld, TellsWhy, fault_in};
ghost use Rattle.bank_replays.specs.Visiting.{AreTooMany, Bars, VisitsAll, VisitsSome, IsRefusal, Why};
ghost use Rattle.bank_replays.specs.Reading.{ReadsBank};
ghost use Rattle.bank_replays.specs.declared.fault.ReplayFault.TheVariants.{Bank as OfBank};

use crate::fault::ReplayFault;
use bank_store::{Bank, Walk, each_row};
use posting_rules::Fault;
use sqlite::Alter;
use walked_rows::{
    KeptRequest, StoredAccount, StoredBranch, StoredClosing, StoredFloor, StoredMeta,
    StoredPosting, StoredReference, StoredRequest, StoredTeller, WalkedRow,
};

/// A row that a walk has room for.
pub trait SmallRow: WalkedRow {
    ghost few_bytes: { TakesFewBytes Self.row };
}

/// What is done with each row of a kind, one after another, and what comes of it in a target.
pub trait Visitor<R: WalkedRow, V> {
    ghost use Rattle.std.specs.Prelude.{Option, ⊤};
    ghost use Rattle.bank_replays.specs.declared.fault.ReplayFault.{ReplayFault};
    ghost use Rattle.posting_rules.specs.declared.fault.Fault.{Fault};
    ghost use Rattle.posting_rules.specs.declared.fault.Fault.TheVariants.{Memory};
    ghost use Rattle.posting_rules.specs.declared.fault.Rule.{Rule};

    /// The target went from the first state to the second by visits to these rows, in this order.
    ghost Visited: { Self → V → V → List R → Type 0 };

    /// It went there by visits to these rows, and then this fault came: at the next row, if there is one.
    ghost Part: { Self → V → V → List R → Option R → ReplayFault → Type 0 } = { λ visitor first last rows next fault. ⊤ };

    /// The row isn't accepted, by this rule.
    ghost Refuses: { Self → Rule → R → Type 0 } = { λ visitor rule row. ⊥ };

    /// Visits one row more.
    fn visit(&self, row: R, target: &mut V) -> Result<(), ReplayFault>
        ensures visited { (first : V) (rows : List R) → Visited self.now first target.old rows
            → OnOk result (Visited self.now first target.new (rows ++ row ∷ [])) }
        ensures part { (first : V) (rows : List R) → Visited self.now first target.old rows
            → IfErr result (λ fault. Part self.now first target.new rows (Some row) fault) }
        ensures why { IfErr result (IsRefusal (λ rule. Refuses self.now rule row)) };

    ghost none_yet: { (visitor : Self) (target : V) → Visited visitor target target [] };

    ghost in_part: { (visitor : Self) (first last : V) (rows : List R) (fault : Fault) → (fault ≡ Memory → AreTooMany rows)
        → Visited visitor first last rows → Part visitor first last rows None (OfBank fault) };

    /// Those that can't be read or aren't accepted are among the rows of a file.
    ghost held: { (visitor : Self) → AreHeld R.HasItems (Bars R.item R.Breaks (Refuses visitor)) };
}

// Visits the rows that a walk gives, so many at most, and returns how many they were.
fn visit_rows<S: Alter, R: SmallRow, V, P: Visitor<R, V>>(
    walk: &mut Walk<'_, S, R>,
    most: u64,
    visitor: &P,
    target: &mut V,
) -> Result<u64, ReplayFault>
    requires fresh { HasToldFault walk.old → ⊥ }
    ensures same_reference { loan_of walk.new ≡ loan_of walk.old }
    ensures bank { ReadsBank S.Store (lent walk.old) (lent walk.new) result }
    ensures visits { VisitsSome R.WalkedRow.item (P.Visited visitor.now target.old target.new)
        (P.Part visitor.now target.old target.new)
        (Why (Bars R.WalkedRow.item R.WalkedRow.Breaks (P.Refuses visitor.now))
        (HasFailedToRead S.Store (connection_of (lent walk.old)) (connection_of (lent walk.new))) ⊥)
        (HasCleanDisk (lent_state S.Store walk.new)) (R.WalkedRow.HasItems (lent_state S.Store walk.old).now)
        (λ all. items_to_come R.WalkedRow.key R.WalkedRow.item R.WalkedRow.is_given all walk.old) most result }
{
    'rows: for i in 0..most {
        let Some(row) = walk.next()? else {
            return Ok(i);
        };
        visitor.visit(row, target)?;
    }
    Ok(most)
}

/// Visits the first rows of a kind that a bank has, so many at most, and returns how many they were. A fault
/// leaves the bank as it was.
pub(crate) fn visit_first<S: Alter, R: SmallRow, V, P: Visitor<R, V>>(
    bank: &mut Bank<S>,
    most: u64,
    visitor: &P,
    target: &mut V,
) -> Result<u64, ReplayFault>
    ensures bank { ReadsBank S.Store bank.old bank.new result }
    ensures visits { VisitsSome R.WalkedRow.item (P.Visited visitor.now target.old target.new)
        (P.Part visitor.now target.old target.new)
        (Why (Bars R.WalkedRow.item R.WalkedRow.Breaks (P.Refuses visitor.now))
        (HasFailedToRead S.Store (connection_of bank.old) (connection_of bank.new))
        (bank_seen S.Store bank.old).is_down)
        (HasCleanDisk (file_of bank.new)) (R.WalkedRow.HasItems (database_of S.Store bank.old)) (λ all. all)
        most result }
    ensures why { TellsWhy S.Store fault_in bank.old bank.new result }
{
    let mut walk = each_row::<S, R>(bank)?;
    visit_rows(&mut walk, most, visitor, target)
}

/// Visits all rows of a kind that a bank has. A fault leaves the bank as it was.
pub fn visit_all<S: Alter, R: SmallRow, V, P: Visitor<R, V>>(
    bank: &mut Bank<S>,
    visitor: &P,
    target: &mut V,
) -> Result<(), ReplayFault>
    ensures bank { ReadsBank S.Store bank.old bank.new result }
    ensures visits { VisitsAll R.WalkedRow.item (P.Visited visitor.now target.old target.new)
        (P.Part visitor.now target.old target.new)
        (Why (Bars R.WalkedRow.item R.WalkedRow.Breaks (P.Refuses visitor.now))
        (HasFailedToRead S.Store (connection_of bank.old) (connection_of bank.new))
        (bank_seen S.Store bank.old).is_down)
        (HasCleanDisk (file_of bank.new)) (R.WalkedRow.HasItems (database_of S.Store bank.old)) result }
    ensures why { TellsWhy S.Store fault_in bank.old bank.new result }
{
    let count = visit_first::<S, R, V, P>(bank, u64::MAX, visitor, target)?;
    if count == u64::MAX {
        // There would be no room for so many rows.
        return Err(ReplayFault::Bank(Fault::Memory));
    }
    Ok(())
}

impl SmallRow for StoredMeta {
    ghost few_bytes = { (lit< tt, lit< tt) };
}

impl SmallRow for StoredBranch {
    ghost few_bytes = { (lit< tt, lit< tt) };
}

impl SmallRow for StoredTeller {
    ghost few_bytes = { (lit< tt, lit< tt) };
}

impl SmallRow for StoredAccount {
    ghost few_bytes = { (lit< tt, lit< tt) };
}

impl SmallRow for StoredPosting {
    ghost few_bytes = { (lit< tt, lit< tt) };
}

impl SmallRow for StoredRequest {
    ghost few_bytes = { (lit< tt, lit< tt) };
}

impl SmallRow for StoredFloor {
    ghost few_bytes = { (lit< tt, lit< tt) };
}

impl SmallRow for StoredClosing {
    ghost few_bytes = { (lit< tt, lit< tt) };
}

impl SmallRow for StoredReference {
    ghost few_bytes = { (lit< tt, lit< tt) };
}

impl SmallRow for KeptRequest {
    ghost few_bytes = { (lit< tt, lit< tt) };
}
