//! Numbers are closed, and the books are sealed.
ghost use Rattle.std.specs.Prelude.{◌≡◌, false, IfOk, IsTrue};
ghost use Rattle.sqlite.specs.Held.{state};
ghost use Rattle.sqlite.specs.State.{HasCleanDisk, Survives};
ghost use Rattle.posting_rules.specs.Closings.{closing_for};
ghost use Rattle.posting_rules.specs.believed.Changes.{tables_closed};
ghost use Rattle.posting_rules.specs.believed.Damage.{IsSoundClosing};
ghost use Rattle.store_rows.specs.Calls.{LooksUp};
ghost use Rattle.store_rows.specs.believed.Readings.{read_closing};
ghost use Rattle.bank_transactions.specs.believed.Closed.{AreClosed};
ghost use Rattle.bank_transactions.specs.Doing.{Acts, ReadsWhere, Transacts};
ghost use Rattle.bank_transactions.specs.Undone.{UndoesFaults};
ghost use Rattle.bank_transactions.specs.believed.Additions.{AddsClosing};
ghost use Rattle.bank_transactions.specs.believed.Answered.{AnswersClosing, ClosesAll, KeepsClosing, closing_by, met_in};

use crate::{begin, finish};
use posting_rules::{Closing, ClosingRow};
use sqlite::{Alter, Connection, Transaction};
use store_rows::{TableFault, add_closing, find_seal, next_closing};

// The row that may have one of the numbers, if there is one: the first that doesn't end before them, or the seal.
fn row_met<S: Alter>(
    tx: &mut Transaction<'_, S>,
    row: &ClosingRow,
) -> Result<Option<ClosingRow>, TableFault>
    requires { IsSoundClosing row.now }
    ensures { LooksUp S.Store tx.old tx.new (λ rows. met_in rows.closings row.now.first) read_closing result }
{
    match row.first.checked_sub(1) {
        None => find_seal(tx),
        Some(before) => next_closing(tx, before),
    }
}

// What a closing comes to, by that row.
fn closing_by(met: &Option<ClosingRow>, row: &ClosingRow) -> Closing
    ensures { result ≡ closing_by met.now row.now }
{
    let Some(met) = met else {
        return Closing::Closed;
    };
    if row.last < met.first {
        Closing::Closed
    } else if met.first <= row.first && row.last <= met.last {
        Closing::Already
    } else {
        Closing::Overlaps
    }
}

// What it comes to, looked up.
fn closing_of<S: Alter>(
    tx: &mut Transaction<'_, S>,
    row: &ClosingRow,
) -> Result<Closing, TableFault>
    requires { IsSoundClosing row.now }
    ensures says { ReadsWhere S.Store tx.old tx.new (λ tables. AreClosed tables.closings)
        (λ tables. closing_for tables.closings row.now.first row.now.last) result }
    ensures stored { IfOk result (λ closing. HasCleanDisk (state S.Store tx.new.conn.now)
        → AnswersClosing (state S.Store tx.old.conn.now).now row.now closing) }
{
    let met = row_met(tx, row)?;
    Ok(closing_by(&met, row))
}

// Looks it up, and adds the row where none of its numbers is closed.
fn close_inside<S: Alter>(
    tx: &mut Transaction<'_, S>,
    row: &ClosingRow,
) -> Result<Closing, TableFault>
    requires { IsSoundClosing row.now }
    ensures acts { Acts S.Store (AddsClosing row.now) tx.old tx.new (λ tables. AreClosed tables.closings)
        (λ tables. tables_closed tables row.now.first row.now.last)
        (λ tables. closing_for tables.closings row.now.first row.now.last) result }
    ensures stored { IfOk result (λ closing. HasCleanDisk (state S.Store tx.new.conn.now)
        → IsTrue (state S.Store tx.old.conn.now).in_transaction
        → ClosesAll (state S.Store tx.old.conn.now).now (state S.Store tx.new.conn.now).now row.now closing) }
{
    match closing_of(tx, row)? {
        Closing::Closed => {
            add_closing(tx, row)?;
            Ok(Closing::Closed)
        }
        closing => Ok(closing),
    }
}

/// Closes numbers of a teller, all of them or none, or seals the books. `Already` is said where they were closed together
/// before, and `Overlaps` where some of them were. One transaction.
///
/// # Errors
///
/// As [`open_branch`](crate::open_branch).
pub fn close_numbers<S: Alter>(
    conn: &mut Connection<S>,
    row: &ClosingRow,
) -> Result<Closing, TableFault>
    requires mode { conn.old.in_transaction ≡ false }
    requires sound { IsSoundClosing row.now }
    ensures transacts { Transacts S.Store (AddsClosing row.now) conn.old conn.new (λ tables. AreClosed tables.closings)
        (λ tables. tables_closed tables row.now.first row.now.last)
        (λ tables. closing_for tables.closings row.now.first row.now.last) result }
    // Whatever rows the file holds.
    ensures stored { IfOk result (λ closing. HasCleanDisk (state S.Store conn.new)
        → ClosesAll (state S.Store conn.old).now (state S.Store conn.new).now row.now closing) }
    // A crash leaves what it could leave before, or the row.
    ensures whole { Survives (state S.Store conn.old) (state S.Store conn.new)
        (KeepsClosing (state S.Store conn.old).now row.now) }
    ensures undone { UndoesFaults S.Store conn.old conn.new result }
{
    let mut tx = begin(conn);
    let closing = close_inside(&mut tx, row);
    finish(tx, closing)
}
