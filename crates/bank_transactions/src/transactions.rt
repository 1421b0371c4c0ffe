//! Each call is one transaction. A commit writes nothing where nothing was changed.
ghost use Rattle.std.specs.Prelude.{◌≡◌, ◌≤◌, IfOk, IsTrue, OnOk, true, false};
ghost use Rattle.sqlite.specs.State.{HasCleanDisk, Survives};
ghost use Rattle.sqlite.specs.Held.{state};
ghost use Rattle.posting_rules.specs.believed.Changes.{tables_with_branch};
ghost use Rattle.posting_rules.specs.believed.Commands.{opened_with};
ghost use Rattle.posting_rules.specs.believed.Counter.{opening_for};
ghost use Rattle.posting_rules.specs.believed.LookUps.{account_balance_in};
ghost use Rattle.posting_rules.specs.believed.LookUps.{teller_balances_in, terms_in};
ghost use Rattle.posting_rules.specs.Sound.{AreSound};
ghost use Rattle.posting_rules.specs.believed.AnyTables.{IsReadyToOpen};
ghost use Rattle.bank_transactions.specs.believed.Additions.{AddsBranch};
ghost use Rattle.bank_transactions.specs.Doing.{Consults, Ends, Transacts};
ghost use Rattle.bank_transactions.specs.believed.Answered.{KeepsOpening, OpensAll};
ghost use Rattle.bank_transactions.specs.believed.Stored.{IsStoredBalance, IsStoredTeller};
ghost use Rattle.bank_transactions.specs.Undone.{UndoesFaults};

use crate::look_ups::{open_balance, teller_balances};
use crate::new_branch::open_inside;
use message_records::{Account, Branch, Cents, Teller};
use posting_rules::{LAST_BRANCH, MAX_ACCOUNTS, Opening};
use sqlite::{Alter, Connection, Transaction};
use store_rows::{TableFault, commit};

/// A hook for proofs, with no effect at run time: a connection outside a transaction shows what was committed last,
/// as long as it is open, and a failed statement goes back to that. A connection's clauses say so only where it is
/// asked whether a transaction goes on.
pub fn note_settled<S: Alter>(conn: &Connection<S>)
    requires { conn.now.in_transaction ≡ false }
    ensures { IsTrue (state S.Store conn.now).is_open → (state S.Store conn.now).now
        ≡ (state S.Store conn.now).committed }
{
    let _outside = conn.is_autocommit();
}

/// Begins a transaction on what the last commit left. The connection has to be outside of one.
///
/// # Errors
///
/// None: it can't fail, and takes nothing from the disk. A store that is closed or broken is met by the first
/// part that reads or writes. Where the transaction is dropped and not given to [`finish`], all is undone.
pub fn begin<S: Alter>(conn: &mut Connection<S>) -> Transaction<'_, S>
    requires { conn.old.in_transaction ≡ false }
    ensures same_reference { result.conn.ghost_name ≡ conn.entry.ghost_name }
    ensures begun { result.conn.now ≡ record conn.old { in_transaction = true } }
    ensures settled { IsTrue (state S.Store conn.old).is_open → (state S.Store conn.old).now
        ≡ (state S.Store conn.old).committed }
{
    note_settled(conn);
    conn.transaction()
}

/// Ends a transaction: an answer of its parts is committed, and a fault undoes all.
///
/// # Errors
///
/// The fault of the parts, or `TableFault::Sqlite` where the commit failed.
pub fn finish<S: Alter, X: Drop>(
    tx: Transaction<'_, S>,
    answer: Result<X, TableFault>,
) -> Result<X, TableFault>
    ensures { Ends S.Store tx.entry.conn.now tx.exit.0.now answer result }
{
    let answer = answer?;
    commit(tx)?;
    Ok(answer)
}

/// Opens a branch with its ten tellers, so many accounts and a floor for them, unless it is open: then it is
/// said whether it has this count and this floor. One transaction.
///
/// # Errors
///
/// - `TableFault::Sqlite`: a call of `sqlite` failed with this error. Nothing of the opening is kept, unless
///   it was the commit that failed: then a crash may show later that it was.
/// - `TableFault::Damaged`: the rows that were looked up break this rule, or a statement met that they do as
///   it wrote.
///
/// After each of them everything is as it was, as long as the store is open.
pub fn open_branch<S: Alter>(
    conn: &mut Connection<S>,
    branch: Branch,
    count: u32,
    floor: Option<Cents>,
) -> Result<Opening, TableFault>
    requires mode { conn.old.in_transaction ≡ false }
    requires branch { branch ≤ LAST_BRANCH }
    requires few { count ≤ MAX_ACCOUNTS }
    ensures transacts { Transacts S.Store (AddsBranch branch (opened_with count floor)) conn.old conn.new
        (IsReadyToOpen branch (opened_with count floor))
        (λ tables. tables_with_branch tables branch (opened_with count floor))
        (λ tables. opening_for (terms_in tables branch) (opened_with count floor)) result }
    // Whatever rows the file holds.
    ensures stored { IfOk result (λ opening. HasCleanDisk (state S.Store conn.new)
        → OpensAll (state S.Store conn.old).now (state S.Store conn.new).now branch
        (opened_with count floor) opening) }
    // A crash leaves what it could leave before, or the branch with all that belongs to it.
    ensures whole { Survives (state S.Store conn.old) (state S.Store conn.new)
        (KeepsOpening (state S.Store conn.old).now branch (opened_with count floor)) }
    ensures undone { UndoesFaults S.Store conn.old conn.new result }
{
    let mut tx = begin(conn);
    let opening = open_inside(&mut tx, branch, count, floor);
    finish(tx, opening)
}

/// Looks up the balances of a teller and of its branch, none where the teller isn't open. One transaction, which
/// changes nothing.
///
/// # Errors
///
/// As [`open_branch`].
pub fn read_teller<S: Alter>(
    conn: &mut Connection<S>,
    teller: Teller,
) -> Result<Option<(Cents, Cents)>, TableFault>
    requires { conn.old.in_transaction ≡ false }
    ensures says { Consults S.Store conn.old conn.new AreSound
        (λ tables. teller_balances_in tables teller) result }
    // Whatever rows the file holds.
    ensures stored { IfOk result (λ balances. HasCleanDisk (state S.Store conn.new)
        → IsStoredTeller (state S.Store conn.old).now teller balances) }
    ensures still { OnOk result (HasCleanDisk (state S.Store conn.new)
        → (state S.Store conn.new).now ≡ (state S.Store conn.old).now) }
    // A crash leaves what it could leave before, or what the file held.
    ensures left { Survives (state S.Store conn.old) (state S.Store conn.new)
        (λ left. left ≡ (state S.Store conn.old).now.trees) }
    ensures undone { UndoesFaults S.Store conn.old conn.new result }
{
    let mut tx = begin(conn);
    let balances = teller_balances(&mut tx, teller);
    finish(tx, balances)
}

/// Looks up the balance of an account, none where it isn't open. One transaction, which changes nothing.
///
/// # Errors
///
/// As [`open_branch`].
pub fn read_balance<S: Alter>(
    conn: &mut Connection<S>,
    account: Account,
) -> Result<Option<Cents>, TableFault>
    requires { conn.old.in_transaction ≡ false }
    ensures says { Consults S.Store conn.old conn.new AreSound
        (λ tables. account_balance_in tables account) result }
    // Whatever rows the file holds.
    ensures stored { IfOk result (λ balance. HasCleanDisk (state S.Store conn.new)
        → IsStoredBalance (state S.Store conn.old).now account balance) }
    ensures still { OnOk result (HasCleanDisk (state S.Store conn.new)
        → (state S.Store conn.new).now ≡ (state S.Store conn.old).now) }
    // A crash leaves what it could leave before, or what the file held.
    ensures left { Survives (state S.Store conn.old) (state S.Store conn.new)
        (λ left. left ≡ (state S.Store conn.old).now.trees) }
    ensures undone { UndoesFaults S.Store conn.old conn.new result }
{
    let mut tx = begin(conn);
    let balance = open_balance(&mut tx, account);
    finish(tx, balance)
}
