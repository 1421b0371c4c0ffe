//! The closed numbers of a bank, and its seal, which a second one is given.
ghost use Rattle.std.specs.Prelude.{◌≡◌, List, IfErr, IfOk, IfSome, OnOk};
ghost use Rattle.sqlite.specs.State.{HasCleanDisk};
ghost use Rattle.posting_rules.specs.believed.Commands.{Command};
ghost use Rattle.posting_rules.specs.believed.Counter.{ShowsLog};
ghost use Rattle.posting_rules.specs.believed.Damage.{IsSoundClosing};
ghost use Rattle.posting_rules.specs.declared.fault.Fault.TheVariants.{Memory};
ghost use Rattle.sql_meanings.specs.believed.Entries.{Entry};
ghost use Rattle.store_rows.specs.believed.BankTables.{closing as closing_table};
ghost use Rattle.walked_rows.specs.Rows.{HasStoredRows};
ghost use Rattle.walked_rows.specs.StoredBeside.{closing_entry};
ghost use Rattle.bank_store.specs.believed.Seen.{bank_seen, database_of, file_of};
ghost use Rattle.bank_replays.specs.Closed.{close_in, closed_by, closing_in};
ghost use Rattle.bank_replays.specs.Damaged.{TellsWhy};
ghost use Rattle.bank_replays.specs.Reading.{ReadsBank};
ghost use Rattle.bank_replays.specs.Refilling.{IsNeverInDoubt};
ghost use Rattle.bank_replays.specs.declared.fault.ReplayFault.TheVariants.{Bank as OfBank};

use crate::fault::{ReplayFault, bank_fault};
use crate::visitors::{Visitor, visit_all};
use bank_store::Bank;
use posting_rules::{ClosingRow, Fault};
use sqlite::Alter;
use walked_rows::StoredClosing;

// The numbers that a row closes, or the seal; none where it is neither.
fn closing_in(row: &StoredClosing) -> Option<ClosingRow>
    ensures value { result ≡ closing_in (closing_entry row.now) }
    ensures sound { IfSome result IsSoundClosing }
{
    ClosingRow::of_keys(row.first.unsigned_abs(), row.last.get())
}

// Closes in a second bank what a row closes.
fn close_row<T: Alter + Drop>(due: &mut Bank<T>, row: &StoredClosing) -> Result<(), ReplayFault>
    ensures closes { IsNeverInDoubt T.Store → (log : List Command) → ShowsLog (bank_seen T.Store due.old) log
        → OnOk result (ShowsLog (bank_seen T.Store due.new) (close_in (closing_in (closing_entry row.now)) log)) }
    ensures memory { IfErr result (λ fault. fault ≡ OfBank Memory) }
{
    let Some(run) = closing_in(row) else {
        return Ok(());
    };
    match due.close_run(&run) {
        Ok(_) => Ok(()),
        Err(_) => Err(ReplayFault::Bank(Fault::Memory)),
    }
}

// Rows are given to a second bank.
struct ClosedRows;

impl<T: Alter + Drop> Visitor<StoredClosing, Bank<T>> for ClosedRows {
    ghost use Rattle.std.specs.Prelude.{map};
    ghost use Rattle.bank_replays.specs.Closed.{ClosesRows};
    ghost use Rattle.bank_replays.specs.Holding.{bars_held, closings_held};

    ghost Visited = { λ visitor first last rows. ClosesRows T.Store first last (map closing_entry rows) };

    ghost none_yet = { λ visitor due sure log shows. shows };

    ghost in_part = { λ visitor first last rows fault many visited. tt };

    ghost held = { λ visitor. bars_held closings_held closing_entry };

    fn visit(&self, row: StoredClosing, due: &mut Bank<T>) -> Result<(), ReplayFault> {
        close_row(due, &row)
    }
}

/// A second bank, in which all is closed that the rows of the first close. It is sealed where they have the seal.
pub(crate) fn close_as<S: Alter, T: Alter + Drop>(
    bank: &mut Bank<S>,
    due: Bank<T>,
) -> Result<Bank<T>, Fault>
    ensures bank { ReadsBank S.Store bank.old bank.new result }
    ensures closes { HasCleanDisk (file_of bank.new) → IsNeverInDoubt T.Store → (rows : List Entry)
        → HasStoredRows (database_of S.Store bank.old) closing_table rows → (log : List Command)
        → ShowsLog (bank_seen T.Store due) log
        → IfOk result (λ due. ShowsLog (bank_seen T.Store due) (closed_by rows log)) }
    ensures why { TellsWhy S.Store (λ fault. fault) bank.old bank.new result }
{
    let mut due = due;
    match visit_all::<S, StoredClosing, Bank<T>, ClosedRows>(bank, &ClosedRows, &mut due) {
        Ok(()) => Ok(due),
        Err(fault) => Err(bank_fault(fault)),
    }
}
