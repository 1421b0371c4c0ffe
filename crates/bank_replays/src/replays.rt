//! The replay of a bank.
ghost use Rattle.std.specs.Prelude.{◌≡◌, [], List, Err, IfErr, IfOk, OnOk};
ghost use Rattle.sqlite.specs.Held.{IsNew};
ghost use Rattle.sqlite.specs.State.{HasCleanDisk};
ghost use Rattle.posting_rules.specs.believed.Commands.{Command};
ghost use Rattle.posting_rules.specs.believed.Counter.{ShowsLog};
ghost use Rattle.posting_rules.specs.declared.fault.Fault.TheVariants.{Down, Memory};
ghost use Rattle.bank_store.specs.believed.Seen.{bank_seen, database_of, file_of};
ghost use Rattle.bank_replays.specs.Damaged.{TellsWhy, fault_in};
ghost use Rattle.bank_replays.specs.Differences.{DiffersFrom};
ghost use Rattle.bank_replays.specs.FileTables.{FileTables, HasTables, IsKept};
ghost use Rattle.bank_replays.specs.Reading.{IsOnlyRead, ReadsBank};
ghost use Rattle.bank_replays.specs.Refilling.{IsNeverInDoubt, IsUnplanned};
ghost use Rattle.bank_replays.specs.Replayed.{ShowsFilled, ShowsReplay};
ghost use Rattle.bank_replays.specs.Replays.{AreDigestsIn, IsOfNoLog, OnAgrees, OnDiffers, Replays};

use crate::closing_digests::digest_closings;
use crate::closings::close_as;
use crate::comparing::compare_all;
use crate::difference::{Agreed, Replay};
use crate::digests::digest_all;
use crate::fault::{ReplayFault, bank_fault};
use crate::plan_digests::digest_plan;
use crate::ram::Ram;
use crate::refill::{Filling, Refill};
use crate::visitors::visit_all;
use crate::watch::Watch;
use bank_store::{Bank, Refused, create};
use posting_rules::Fault;
use sqlite::{Alter, Connection, FileStore, Files, Options};
use std::alloc::Global;
use walked_rows::{KeptRequest, StoredBranch, StoredFloor};

// Fills a second bank with what the rows of a bank say.
fn fill<S: Alter, T: Alter + Drop, W: Watch + Drop>(
    bank: &mut Bank<S>,
    refill: &mut Refill<T, W>,
) -> Result<(), ReplayFault>
    ensures bank { ReadsBank S.Store bank.old bank.new result }
    ensures why { TellsWhy S.Store fault_in bank.old bank.new result }
    ensures replays { HasCleanDisk (file_of bank.new) → IsNeverInDoubt T.Store → IsUnplanned T.Store refill.old
        → ShowsLog (bank_seen T.Store refill.old.bank) []
        → OnOk result (ShowsFilled S.Store T.Store bank.old refill.new.bank) }
{
    visit_all::<S, StoredBranch, Refill<T, W>, Filling>(bank, &Filling, refill)?;
    visit_all::<S, StoredFloor, Refill<T, W>, Filling>(bank, &Filling, refill)?;
    visit_all::<S, KeptRequest, Refill<T, W>, Filling>(bank, &Filling, refill)?;
    refill.finish()
}

// The second bank, once it is filled, and has closed what the first has.
fn refilled<S: Alter, T: Alter + Drop, W: Watch + Drop>(
    bank: &mut Bank<S>,
    due: Bank<T>,
    watch: W,
) -> Result<Bank<T>, Fault>
    ensures bank { ReadsBank S.Store bank.old bank.new result }
    ensures why { TellsWhy S.Store (λ fault. fault) bank.old bank.new result }
    ensures replays { HasCleanDisk (file_of bank.new) → IsNeverInDoubt T.Store → ShowsLog (bank_seen T.Store due) []
        → IfOk result (ShowsReplay S.Store T.Store bank.old) }
{
    let mut refill = Refill::over(bank.alloc(), due, watch)?;
    let filled = fill(bank, &mut refill);
    let due = refill.into_bank();
    match filled {
        Ok(()) => close_as(bank, due),
        Err(fault) => Err(bank_fault(fault)),
    }
}

// The digests of a bank.
fn digest_each<S: Alter>(bank: &mut Bank<S>) -> Result<Agreed, Fault>
    ensures bank { ReadsBank S.Store bank.old bank.new result }
    ensures rows { HasCleanDisk (file_of bank.new) → IfOk result (AreDigestsIn (database_of S.Store bank.old)) }
    ensures why { TellsWhy S.Store (λ fault. fault) bank.old bank.new result }
{
    let digest = digest_all(bank)?;
    let plan = digest_plan(bank)?;
    let closings = digest_closings(bank)?;
    Ok(Agreed {
        digest,
        plan,
        closings,
    })
}

// A new bank in a store that holds nothing.
fn new_bank<T: Alter + Drop>(alloc: Global, conn: Connection<T>) -> Result<Bank<T>, Fault>
    requires { IsNew conn }
    ensures shows { IsNeverInDoubt T.Store → IfOk result (λ bank. ShowsLog (bank_seen T.Store bank) []) }
    ensures memory { IfErr result (λ fault. fault ≡ Memory) }
{
    match create(alloc, conn) {
        Ok(bank) => Ok(bank),
        Err(
            Refused {
                fault: _fault,
                conn: _conn,
            },
        ) => Err(Fault::Memory),
    }
}

// Replays a bank beside a new one, whose store is never in doubt. That it is any such store keeps the proof short.
fn replay_over<S: Alter, T: Alter + Drop, W: Watch + Drop>(
    bank: &mut Bank<S>,
    conn: Connection<T>,
    watch: W,
) -> Result<Replay, Fault>
    requires clean { IsNeverInDoubt T.Store }
    requires new { IsNew conn }
    ensures bank { ReadsBank S.Store bank.old bank.new result }
    ensures why { TellsWhy S.Store (λ fault. fault) bank.old bank.new result }
    ensures agrees { HasCleanDisk (file_of bank.new) → (f : FileTables)
        → HasTables (database_of S.Store bank.old) f
        → OnAgrees result (λ d. (log : List Command) × ShowsLog (bank_seen S.Store bank.old) log) }
    ensures digest { HasCleanDisk (file_of bank.new) → OnAgrees result (AreDigestsIn (database_of S.Store bank.old)) }
    ensures differs { HasCleanDisk (file_of bank.new) → OnDiffers result (λ d. (f : FileTables)
        → HasTables (database_of S.Store bank.old) f → DiffersFrom f d) }
    ensures same { HasCleanDisk (file_of bank.new) → OnDiffers result (λ d. IsOfNoLog (bank_seen S.Store bank.old)) }
{
    let empty = new_bank(bank.alloc(), conn)?;
    let mut due = refilled(bank, empty, watch)?;
    if let Some(difference) = compare_all(bank, &mut due)? {
        return Ok(Replay::Differs(difference));
    }
    Ok(Replay::Agrees(digest_each(bank)?))
}

// How the second bank is held. Its files lie in memory, so that its log is copied back early.
const HELD: Options = Options {
    cache_pages: 4_000,
    spill_pages: 1_000,
    checkpoint_frames: 1_000,
    seed: 0,
};

// A database with no table, in pages in memory.
fn memory_pages(alloc: Global) -> Result<Connection<FileStore<Ram>>, Fault>
    ensures new { IfOk result IsNew }
    ensures memory { IfErr result (λ fault. fault ≡ Memory) }
{
    let files = Files {
        log: Ram::new(alloc),
        db: Ram::new(alloc),
    };
    match Connection::open_files(alloc, files, HELD) {
        Ok(conn) => Ok(conn),
        Err((_error, _left)) => Err(Fault::Memory),
    }
}

/// Replays a bank: a second bank is made in memory and given what
/// the file's rows say, and all tables of the two are compared. Where they agree, the requests, the plan and the closed numbers are digested. `watch`
/// is told how far it is.
///
/// # Errors
///
/// None of them brings the bank down, and none changes the file.
///
/// | Error | What happened |
/// |---|---|
/// | [`Fault::Memory`] | memory was refused to the second bank, or for the floors |
/// | [`Fault::Store`] | a read failed: the disk did, or memory or steps were refused |
/// | [`Fault::Down`] | the bank was down, and nothing was read |
/// | [`Fault::Damaged`] | a row can't be read: a number of it is out of its column's range, or a reference is none |
pub fn replay<S: Alter, W: Watch + Drop>(bank: &mut Bank<S>, watch: W) -> Result<Replay, Fault>
    ensures agrees { (bank_seen S.Store bank.new).honest → IsKept (file_of bank.old)
        → OnAgrees result (λ d. (log : List Command) × ShowsLog (bank_seen S.Store bank.old) log) }
    ensures digest { (bank_seen S.Store bank.new).honest
        → OnAgrees result (AreDigestsIn (database_of S.Store bank.old)) }
    ensures differs { (bank_seen S.Store bank.new).honest → OnDiffers result (λ d. (f : FileTables)
        → HasTables (database_of S.Store bank.old) f → DiffersFrom f d) }
    ensures why { TellsWhy S.Store (λ fault. fault) bank.old bank.new result }
    ensures bank { Replays (bank_seen S.Store bank.old) (bank_seen S.Store bank.new) result }
    ensures down { (bank_seen S.Store bank.old).is_down → (result ≡ Err Down) × (bank.new ≡ bank.old) }
    ensures reads { IsOnlyRead S.Store bank.old bank.new result }
{
    if bank.is_down() {
        return Err(Fault::Down);
    }
    bank.tables_law();
    let pages = memory_pages(bank.alloc())?;
    replay_over(bank, pages, watch)
}
