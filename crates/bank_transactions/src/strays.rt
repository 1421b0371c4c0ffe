//! Rows that nothing asked for yet: they would join what is decided or opened later.
ghost use Rattle.std.specs.Prelude.{◌≡◌, ◌≤◌, IfOk, None, OnOk};
ghost use Rattle.sqlite.specs.Held.{state};
ghost use Rattle.sqlite.specs.State.{HasCleanDisk};
ghost use Rattle.posting_rules.specs.believed.Damage.{IsUndamaged};
ghost use Rattle.store_rows.specs.Lying.{CountLies, FindsLying};
ghost use Rattle.store_rows.specs.believed.Rules.{OfRows, branch_under, floor_under};
ghost use Rattle.bank_transactions.specs.Causes.{IsFirstDamaged};
ghost use Rattle.bank_transactions.specs.Doing.{ReadsBy};
ghost use Rattle.bank_transactions.specs.Stray.{LooksForStrays};
ghost use Rattle.bank_transactions.specs.believed.Stray.{NoneBeyond};
ghost use Rattle.store_rows.specs.Beyond.{beyond};
ghost use Rattle.bank_transactions.specs.believed.Stored.{HoldsDecided};

use crate::floors::floor_at;
use crate::look_ups::decided;
use message_records::Branch;
use posting_rules::{MAX_DECIDED, Rule};
use sqlite::{Alter, Transaction};
use store_rows::{Numbered, TableFault, find_beyond};

// No row of the table is beyond the count of requests.
fn none_beyond<S: Alter>(
    tx: &mut Transaction<'_, S>,
    table: Numbered,
    decided: u64,
) -> Result<(), TableFault>
    requires most { decided ≤ MAX_DECIDED }
    requires held { HasCleanDisk (state S.Store tx.old.conn.now)
        → OfRows (λ rows. HoldsDecided rows decided) (state S.Store tx.old.conn.now).now }
    ensures looks { LooksForStrays S.Store tx.old tx.new result }
    ensures none { OnOk result (HasCleanDisk (state S.Store tx.new.conn.now)
        → OfRows (λ rows. beyond table decided rows ≡ None) (state S.Store tx.old.conn.now).now) }
{
    match find_beyond(tx, table, decided)? {
        Some(()) => Err(TableFault::Damaged(Rule::Key)),
        None => Ok(()),
    }
}

// Nor is one of any such table.
fn none_stray<S: Alter>(tx: &mut Transaction<'_, S>, decided: u64) -> Result<(), TableFault>
    requires most { decided ≤ MAX_DECIDED }
    requires held { HasCleanDisk (state S.Store tx.old.conn.now)
        → OfRows (λ rows. HoldsDecided rows decided) (state S.Store tx.old.conn.now).now }
    ensures looks { LooksForStrays S.Store tx.old tx.new result }
    ensures none { OnOk result (HasCleanDisk (state S.Store tx.new.conn.now)
        → OfRows (NoneBeyond decided) (state S.Store tx.old.conn.now).now) }
{
    none_beyond(tx, Numbered::Requests, decided)?;
    none_beyond(tx, Numbered::Postings, decided)?;
    none_beyond(tx, Numbered::References, decided)
}

/// How many requests are decided. No request, no posting and no reference is beyond them.
pub(crate) fn last_decided<S: Alter>(tx: &mut Transaction<'_, S>) -> Result<u64, TableFault>
    ensures within { IfOk result (λ decided. decided ≤ MAX_DECIDED) }
    ensures says { ReadsBy (IsFirstDamaged S.Store) S.Store tx.old tx.new IsUndamaged (λ tables. tables.decided)
        result }
    ensures stored { IfOk result (λ decided. HasCleanDisk (state S.Store tx.new.conn.now)
        → OfRows (λ rows. HoldsDecided rows decided × NoneBeyond decided rows) (state S.Store tx.old.conn.now).now) }
    // Whatever rows the file holds.
    ensures lies { FindsLying S.Store tx.old tx.new CountLies result }
{
    let decided = decided(tx)?;
    none_stray(tx, decided)?;
    Ok(decided)
}

/// A branch that isn't open has no floor: such a row would become the branch's own.
pub(crate) fn none_floored<S: Alter>(
    tx: &mut Transaction<'_, S>,
    branch: Branch,
) -> Result<(), TableFault>
    requires { HasCleanDisk (state S.Store tx.old.conn.now)
        → OfRows (λ rows. branch_under rows branch ≡ None) (state S.Store tx.old.conn.now).now }
    ensures looks { LooksForStrays S.Store tx.old tx.new result }
    ensures none { OnOk result (HasCleanDisk (state S.Store tx.new.conn.now)
        → OfRows (λ rows. floor_under rows branch ≡ None) (state S.Store tx.old.conn.now).now) }
{
    match floor_at(tx, branch.get())? {
        Some(_) => Err(TableFault::Damaged(Rule::Key)),
        None => Ok(()),
    }
}
