//! What is looked up where it isn't remembered.
ghost use Rattle.std.specs.Prelude.{◌≡◌, ◌<◌, ◌≤◌, ◌≤ℤ◌, pos, IfOk, IfSome, OnOk, Some};
ghost use Rattle.bank_transactions.specs.Known.{Knows, known_under, places};
ghost use Rattle.sqlite.specs.Held.{state};
ghost use Rattle.sqlite.specs.State.{HasCleanDisk};
ghost use Rattle.store_rows.specs.Holders.{entry_under, holder_of};
ghost use Rattle.store_rows.specs.Lying.{holder_key};
ghost use Rattle.store_rows.specs.believed.Readings.{read_balance, read_branch, read_floor};
ghost use Rattle.store_rows.specs.believed.Rules.{OfRows, row_under};
ghost use Rattle.posting_rules.specs.believed.Damage.{IsUndamaged};
ghost use Rattle.bank_transactions.specs.Causes.{IsFirstDamaged};
ghost use Rattle.bank_transactions.specs.Doing.{ReadsBy};
ghost use Rattle.bank_transactions.specs.Memory.{AsksOnce, Recalls, Remembers, balances_of};
ghost use Rattle.bank_transactions.specs.believed.Stored.{HoldsDecided};

use crate::Memory;
use crate::strays::last_decided;
use message_records::{Branch, Cents};
use posting_rules::{BranchRow, FloorRow, MAX_DECIDED};
use sqlite::{Alter, Transaction};
use store_rows::{Member, TableFault, balance_of, find_branch, find_floor};

/// How many requests are decided, which is asked of the tables where it isn't remembered. So is whether a row is beyond
/// them.
pub(crate) fn known_decided<S: Alter>(
    tx: &mut Transaction<'_, S>,
    memory: &mut Memory,
) -> Result<u64, TableFault>
    requires { ∥ Remembers S.Store tx.old.conn.now memory.old ∥₁ }
    ensures within { IfOk result (λ decided. decided ≤ MAX_DECIDED) }
    ensures says { ReadsBy (IsFirstDamaged S.Store) S.Store tx.old tx.new IsUndamaged (λ tables. tables.decided)
        result }
    ensures stored { IfOk result (λ decided. HasCleanDisk (state S.Store tx.new.conn.now)
        → OfRows (λ rows. HoldsDecided rows decided) (state S.Store tx.old.conn.now).now) }
    ensures once { AsksOnce tx.old tx.new memory.old.decided result }
    ensures noted { IfOk result (λ decided. memory.new.decided ≡ Some decided) }
    ensures remembers { OnOk result (∥ Remembers S.Store tx.new.conn.now memory.new ∥₁) }
{
    if let Some(decided) = memory.decided {
        return Ok(decided);
    }
    let decided = last_decided(tx)?;
    memory.note(decided);
    Ok(decided)
}

/// The row of a branch, which is asked of the tables where it isn't remembered.
pub(crate) fn known_branch_row<S: Alter>(
    tx: &mut Transaction<'_, S>,
    memory: &mut Memory,
    branch: Branch,
) -> Result<Option<BranchRow>, TableFault>
    requires { ∥ Remembers S.Store tx.old.conn.now memory.old ∥₁ }
    ensures recalls { Recalls S.Store tx.old tx.new (λ rows. row_under rows.branches branch) read_branch result }
    ensures once { AsksOnce tx.old tx.new (known_under memory.old.branches branch) result }
    ensures noted { IfOk result (λ row. 0 < places memory.old.branches → Knows memory.new.branches branch row) }
    ensures remembers { OnOk result (∥ Remembers S.Store tx.new.conn.now memory.new ∥₁) }
{
    if let Some(row) = memory.branch_row(branch) {
        return Ok(row);
    }
    let row = find_branch(tx, branch)?;
    memory.note_branch(branch, &row);
    Ok(row)
}

/// The row of a branch's floor, which is asked of the tables where it isn't remembered.
pub(crate) fn known_floor_row<S: Alter>(
    tx: &mut Transaction<'_, S>,
    memory: &mut Memory,
    branch: Branch,
) -> Result<Option<FloorRow>, TableFault>
    requires { ∥ Remembers S.Store tx.old.conn.now memory.old ∥₁ }
    ensures recalls { Recalls S.Store tx.old tx.new (λ rows. row_under rows.floors branch) read_floor result }
    ensures within { IfOk result (λ found. IfSome found (λ row. row.lowest ≤ℤ pos 0)) }
    ensures once { AsksOnce tx.old tx.new (known_under memory.old.floors branch) result }
    ensures noted { IfOk result (λ row. 0 < places memory.old.floors → Knows memory.new.floors branch row) }
    ensures remembers { OnOk result (∥ Remembers S.Store tx.new.conn.now memory.new ∥₁) }
{
    if let Some(row) = memory.floor_row(branch) {
        return Ok(row);
    }
    let row = find_floor(tx, branch)?;
    memory.note_floor(branch, &row);
    Ok(row)
}

/// The balance of an account or a teller, which is asked of the tables where it isn't remembered.
pub(crate) fn known_balance<S: Alter>(
    tx: &mut Transaction<'_, S>,
    memory: &mut Memory,
    member: &Member,
) -> Result<Option<Cents>, TableFault>
    requires { ∥ Remembers S.Store tx.old.conn.now memory.old ∥₁ }
    ensures recalls { Recalls S.Store tx.old tx.new (entry_under member.now) read_balance result }
    ensures once { AsksOnce tx.old tx.new
        (known_under (balances_of memory.old member.now) (holder_key (holder_of member.now))) result }
    ensures noted { IfOk result (λ balance. 0 < places (balances_of memory.old member.now)
        → Knows (balances_of memory.new member.now) (holder_key (holder_of member.now)) balance) }
    ensures remembers { OnOk result (∥ Remembers S.Store tx.new.conn.now memory.new ∥₁) }
{
    if let Some(balance) = memory.balance(member) {
        return Ok(balance);
    }
    let balance = balance_of(tx, *member)?;
    memory.note_balance(member, &balance);
    Ok(balance)
}
