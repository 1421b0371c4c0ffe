//! The numbers that the rows of a bank have: those that closed books decided, and those of kept requests.
ghost use Rattle.std.specs.Prelude.{◌≡◌, true, false, map, IfOk, Ok, OnOk, None};
ghost use Rattle.std.specs.List.{AllByRecursion, list_any};
ghost use Rattle.sqlite.specs.State.{HasCleanDisk};
ghost use Rattle.posting_rules.specs.believed.Tables.{Tables};
ghost use Rattle.store_rows.specs.believed.View.{Shows};
ghost use Rattle.bank_store.specs.believed.Seen.{database_of, file_of};
ghost use Rattle.carried_books.specs.Carrying.{is_of_desk};
ghost use Rattle.carried_books.specs.Gathering.{AreNumbered, HasClosed, HasUsed, has_seal, number_in, run_in};
ghost use Rattle.carried_books.specs.Gathered.{Gathers, GathersClosed, GathersKept};
ghost use Rattle.carried_books.specs.ReadsTold.{ReadsTold, told_of};

use crate::gathered::{Gathered, Used, has_seal, number_in, run_in, stray_number};
use bank_replays::{ReplayFault, Visitor, bank_fault, visit_all};
use bank_store::Bank;
use message_records::Branch;
use posting_rules::{Fault, NumberRuns, Rule};
use sqlite::Alter;
use std::alloc::AllocError;
use walked_rows::{StoredClosing, StoredRequest};

const NO_MEMORY: ReplayFault = ReplayFault::Bank(Fault::Memory);

const NO_REQUEST: ReplayFault = ReplayFault::Bank(Fault::Damaged(Rule::Request));

// The answer, with a fault of memory.
fn told(added: Result<(), AllocError>) -> Result<(), ReplayFault>
    ensures { result ≡ told_of added }
{
    match added {
        Ok(()) => Ok(()),
        Err(_) => Err(NO_MEMORY),
    }
}

/// Numbers are gathered from rows.
pub(crate) struct Gathering;

impl Visitor<StoredClosing, Gathered> for Gathering {
    ghost use Rattle.walked_rows.specs.StoredBeside.{closing_entry};
    ghost use Rattle.bank_replays.specs.Holding.{bars_held, closings_held};
    ghost use Rattle.carried_books.specs.Gathered.{gathers_none};

    ghost Visited = { λ visitor first last rows. Gathers first last (list_any has_seal rows) (map run_in rows) };

    ghost none_yet = { λ visitor gathered. gathers_none gathered };

    ghost in_part = { λ visitor first last rows fault many visited. tt };

    ghost held = { λ visitor. bars_held closings_held closing_entry };

    fn visit(&self, row: StoredClosing, gathered: &mut Gathered) -> Result<(), ReplayFault> {
        told(gathered.add(run_in(&row), has_seal(&row)))
    }
}

impl Visitor<StoredRequest, Gathered> for Gathering {
    ghost use Rattle.carried_books.specs.Gathering.{RefusesNoNumber};
    ghost use Rattle.carried_books.specs.{Gathered.gathers_none, Held.numbers_held};

    ghost Visited = { λ visitor first last rows. Gathers first last false (map number_in rows) };

    ghost Refuses = { λ visitor. RefusesNoNumber };

    ghost none_yet = { λ visitor gathered. gathers_none gathered };

    ghost in_part = { λ visitor first last rows fault many visited. tt };

    ghost held = { λ visitor. numbers_held };

    fn visit(&self, row: StoredRequest, gathered: &mut Gathered) -> Result<(), ReplayFault> {
        let Some(run) = number_in(&row) else {
            return Err(NO_REQUEST);
        };
        told(gathered.add(run, false))
    }
}

// Gathers the numbers that closed books decided, as the rows of a bank have them.
fn gather_closed<S: Alter>(bank: &mut Bank<S>, gathered: &mut Gathered) -> Result<(), Fault>
    ensures reads { ReadsTold S.Store (λ fault. fault) bank.old bank.new result }
    ensures rows { HasCleanDisk (file_of bank.new) → (t : Tables) → Shows (database_of S.Store bank.old) t
        → OnOk result (GathersClosed t gathered.old gathered.new) }
{
    match visit_all::<S, StoredClosing, Gathered, Gathering>(bank, &Gathering, gathered) {
        Ok(()) => Ok(()),
        Err(fault) => Err(bank_fault(fault)),
    }
}

// Gathers the numbers of kept requests.
fn gather_kept<S: Alter>(bank: &mut Bank<S>, gathered: &mut Gathered) -> Result<(), Fault>
    ensures reads { ReadsTold S.Store (λ fault. fault) bank.old bank.new result }
    ensures rows { HasCleanDisk (file_of bank.new) → (t : Tables) → Shows (database_of S.Store bank.old) t
        → OnOk result (GathersKept t gathered.old gathered.new) }
{
    match visit_all::<S, StoredRequest, Gathered, Gathering>(bank, &Gathering, gathered) {
        Ok(()) => Ok(()),
        Err(fault) => Err(bank_fault(fault)),
    }
}

/// The numbers that a bank closes.
pub(crate) fn closed_in<S: Alter>(bank: &mut Bank<S>) -> Result<Used, Fault>
    ensures reads { ReadsTold S.Store (λ fault. fault) bank.old bank.new result }
    ensures rows { HasCleanDisk (file_of bank.new) → (t : Tables) → Shows (database_of S.Store bank.old) t
        → IfOk result (λ used. HasClosed t used.sealed used.numbers) }
{
    let mut gathered = Gathered::none(bank.alloc());
    gather_closed(bank, &mut gathered)?;
    let used = gathered.into_used(bank.alloc())?;
    Ok(used)
}

/// The numbers that a bank closes or keeps.
pub(crate) fn used_in<S: Alter>(bank: &mut Bank<S>) -> Result<Used, Fault>
    ensures reads { ReadsTold S.Store (λ fault. fault) bank.old bank.new result }
    ensures rows { HasCleanDisk (file_of bank.new) → (t : Tables) → Shows (database_of S.Store bank.old) t
        → IfOk result (λ used. HasUsed t used.sealed used.numbers) }
{
    let mut gathered = Gathered::none(bank.alloc());
    gather_closed(bank, &mut gathered)?;
    gather_kept(bank, &mut gathered)?;
    let used = gathered.into_used(bank.alloc())?;
    Ok(used)
}

/// The key of the first number of a kept request that is neither of a teller of the desk, nor was used; none where there
/// is no such one.
pub(crate) fn stray_in<S: Alter>(
    bank: &mut Bank<S>,
    desk: Branch,
    used: &NumberRuns,
) -> Result<Option<u64>, Fault>
    ensures reads { ReadsTold S.Store (λ fault. fault) bank.old bank.new result }
    ensures none { HasCleanDisk (file_of bank.new) → result ≡ Ok None → (t : Tables)
        → Shows (database_of S.Store bank.old) t → AreNumbered t.requests
        → AllByRecursion (λ r. is_of_desk desk used.now r ≡ true) t.requests }
{
    let mut kept = Gathered::none(bank.alloc());
    gather_kept(bank, &mut kept)?;
    Ok(stray_number(desk, used, &kept.runs))
}
