//! A second bank, filled with what the rows of a bank say: its log is that of the requests among them, in their order.
//! Given the rows of a log, it shows one with the same rows.
ghost use Rattle.std.specs.Prelude.{◌≤◌, ◌<◌, ◌≡◌, ◌∷◌, [], ℕ, pos, List, Option, IfErr, IfOk, OnOk, length, set};
ghost use Rattle.message_records.specs.believed.Outcomes.{code_of};
ghost use Rattle.message_records.specs.declared.records.Outcome.{Outcome as OfOutcome};
ghost use Rattle.posting_rules.specs.believed.Commands.{Command, IsCommand, Open, Terms, opened_with};
ghost use Rattle.posting_rules.specs.believed.Counter.{ShowsLog};
ghost use Rattle.posting_rules.specs.believed.Runs.{followed_by, posts};
ghost use Rattle.posting_rules.specs.declared.fault.Fault.TheVariants.{Memory};
ghost use Rattle.bank_store.specs.believed.Seen.{bank_seen};
ghost use Rattle.bank_replays.specs.Following.{had_account, opening};
ghost use Rattle.bank_replays.specs.Refilling.{HasLog, Holds, HoldsMore, IsNeverInDoubt, IsPlan, IsUnplanned};
ghost use Rattle.bank_replays.specs.Refilling.{OpensRest, planned_at};
ghost use Rattle.bank_replays.specs.declared.fault.ReplayFault.TheVariants.{Bank as OfBank};

use crate::fault::ReplayFault;
use crate::visitors::Visitor;
use crate::watch::Watch;
use arrayvec::ArrayVec;
use bank_store::Bank;
use message_records::{Branch, Cents, Moment, Outcome, REQUEST_BYTES, Request, encode_request};
use posting_rules::{
    Counter, Fault, LAST_BRANCH, MAX_ACCOUNTS, RECORDS_PER_BATCH, branch_of_account,
    branch_of_teller,
};
use sqlite::Alter;
use std::alloc::{AllocError, Global};
use walked_rows::{KeptRequest, StoredBranch, StoredFloor, StoredPosting, request_of};

const NO_MEMORY: ReplayFault = ReplayFault::Bank(Fault::Memory);

/// Rows are given to a second bank.
pub(crate) struct Filling;

// What a branch is yet to be opened with: no account where it isn't to be opened.
#[derive(Clone, Copy)]
struct Planned {
    accounts: u32,
    floor: Option<Cents>,
}

// Nothing is planned.
const UNPLANNED: Planned = Planned {
    accounts: 0,
    floor: None,
};

// What is planned for a branch.
fn planned_at(planned: &[Planned], branch: u64) -> Planned
    ensures { result ≡ planned_at planned.now branch }
{
    match planned.get(branch as usize) {
        Some(yet) => *yet,
        None => UNPLANNED,
    }
}

// Plans a branch anew.
fn plan_at(planned: &mut Vec<Planned>, branch: u64, yet: Planned)
    ensures { planned.new.items ≡ set planned.old.items branch yet }
{
    let at = branch as usize;
    if at < planned.len() {
        planned[at] = yet;
    }
}

// Opens a branch, if it can be opened.
fn open_planned<T: Alter + Drop>(
    bank: &mut Bank<T>,
    branch: u64,
    planned: Planned,
) -> Result<(), ReplayFault>
    ensures opens { IsNeverInDoubt T.Store → IsCommand (Open branch (opened_with planned.accounts planned.floor))
        → (log : List Command) → ShowsLog (bank_seen T.Store bank.old) log → OnOk result
        (ShowsLog (bank_seen T.Store bank.new) (Open branch (opened_with planned.accounts planned.floor) ∷ log)) }
    ensures spares { (IsCommand (Open branch (opened_with planned.accounts planned.floor)) → ⊥)
        → OnOk result (bank.new ≡ bank.old) }
    ensures memory { IfErr result (λ fault. fault ≡ OfBank Memory) }
{
    let Some(branch) = Branch::new(branch) else {
        return Ok(());
    };
    if branch.get() > LAST_BRANCH || planned.accounts < 1 || planned.accounts > MAX_ACCOUNTS {
        return Ok(());
    }
    if let Some(floor) = planned.floor {
        if floor.get() > 0 {
            return Ok(());
        }
    }
    match bank.open_branch(branch, planned.accounts, planned.floor) {
        Ok(_) => Ok(()),
        Err(_) => Err(NO_MEMORY),
    }
}

// Posts records together.
fn post_batch<T: Alter + Drop>(
    bank: &mut Bank<T>,
    moment: Moment,
    batch: &[[u8; REQUEST_BYTES]],
) -> Result<(), ReplayFault>
    requires { length batch.now ≤ RECORDS_PER_BATCH }
    ensures posts { IsNeverInDoubt T.Store → (log : List Command) → ShowsLog (bank_seen T.Store bank.old) log
        → OnOk result (ShowsLog (bank_seen T.Store bank.new) (followed_by log (posts moment batch.now))) }
    ensures memory { IfErr result (λ fault. fault ≡ OfBank Memory) }
{
    if batch.is_empty() {
        return Ok(());
    }
    let Ok(_replies) = bank.submit_all(moment, batch) else {
        return Err(NO_MEMORY);
    };
    Ok(())
}

/// A second bank, with the records that are yet to be posted to it, and who is told how far it is.
#[derive(Drop)]
pub(crate) struct Refill<T: Alter, W> {
    bank: Bank<T>,
    // By the branch's number.
    planned: Vec<Planned>,
    moment: Moment,
    batch: ArrayVec<[u8; REQUEST_BYTES], RECORDS_PER_BATCH>,
    watch: W,
}

impl<T: Alter + Drop, W: Watch + Drop> Refill<T, W> {
    // Nothing was given yet.
    pub(crate) fn over(alloc: Global, bank: Bank<T>, watch: W) -> Result<Refill<T, W>, AllocError>
        ensures bank { IfOk result (λ refill. refill.bank ≡ bank) }
        ensures nothing { IfOk result (IsUnplanned T.Store) }
    {
        let planned = vec![in alloc; UNPLANNED; LAST_BRANCH as usize + 1]?;
        Ok(Refill {
            bank,
            planned,
            moment: Moment::new(0).unwrap(),
            batch: ArrayVec::new(),
            watch,
        })
    }

    // Posts what is yet to be posted.
    fn post(&mut self) -> Result<(), ReplayFault>
        ensures holds { IsNeverInDoubt T.Store → (plan : ℕ → Option Terms) (log : List Command)
            → Holds T.Store plan log self.old → OnOk result (Holds T.Store plan log self.new) }
        ensures planned { self.new.planned ≡ self.old.planned }
        ensures empty { OnOk result (self.new.batch.items ≡ []) }
        ensures memory { IfErr result (λ fault. fault ≡ OfBank Memory) }
    {
        post_batch(&mut self.bank, self.moment, self.batch.as_slice())?;
        self.batch.clear();
        Ok(())
    }

    // Opens a branch, if it is yet to be opened, after all that came before.
    fn open(&mut self, branch: u64) -> Result<(), ReplayFault>
        ensures holds { IsNeverInDoubt T.Store → (plan : ℕ → Option Terms) → IsPlan plan → (log : List Command)
            → Holds T.Store plan log self.old → OnOk result (Holds T.Store plan (opening plan branch log) self.new) }
        ensures memory { IfErr result (λ fault. fault ≡ OfBank Memory) }
    {
        let yet = planned_at(&self.planned, branch);
        if yet.accounts == 0 {
            return Ok(());
        }
        self.post()?;
        plan_at(&mut self.planned, branch, UNPLANNED);
        open_planned(&mut self.bank, branch, yet)
    }

    // Posts what came at other moments, or is as much as is posted together.
    fn make_room(&mut self, moment: Moment) -> Result<(), ReplayFault>
        ensures holds { IsNeverInDoubt T.Store → (plan : ℕ → Option Terms) (log : List Command)
            → Holds T.Store plan log self.old → OnOk result (Holds T.Store plan log self.new) }
        ensures moment { OnOk result (self.new.moment ≡ moment) }
        ensures room { OnOk result (length self.new.batch.items < RECORDS_PER_BATCH) }
        ensures memory { IfErr result (λ fault. fault ≡ OfBank Memory) }
    {
        if moment == self.moment && !self.batch.is_full() {
            return Ok(());
        }
        self.post()?;
        self.moment = moment;
        Ok(())
    }

    // Opens the branches that no request needed, and posts the rest.
    pub(crate) fn finish(&mut self) -> Result<(), ReplayFault>
        ensures rest { IsNeverInDoubt T.Store → (plan : ℕ → Option Terms) → IsPlan plan → (log : List Command)
            → Holds T.Store plan log self.old → OnOk result (OpensRest T.Store plan log self.new.bank) }
        ensures memory { IfErr result (λ fault. fault ≡ OfBank Memory) }
    {
        'branches: for branch in 1..=LAST_BRANCH {
            self.open(branch)?;
        }
        self.post()
    }

    // Opens the branches that a request needs, and takes it to be posted. One that wasn't posted comes at the moment
    // before it: no row has one of its own.
    fn take(
        &mut self,
        request: &Request,
        had: bool,
        posting: Option<StoredPosting>,
    ) -> Result<(), ReplayFault>
        ensures holds { IsNeverInDoubt T.Store → (plan : ℕ → Option Terms) → IsPlan plan → (log : List Command)
            → Holds T.Store plan log self.old
            → OnOk result (HoldsMore T.Store plan log had posting request.now self.new) }
        ensures memory { IfErr result (λ fault. fault ≡ OfBank Memory) }
    {
        self.open(branch_of_teller(request.teller()))?;
        if had {
            self.open(branch_of_account(request.account()))?;
        }
        let moment = match posting {
            Some(posting) => posting.moment,
            None => self.moment,
        };
        self.make_room(moment)?;
        self.batch.push(encode_request(request));
        Ok(())
    }

    // Tells that this request is reached.
    fn reach(&mut self, row: &KeptRequest)
        ensures { (plan : ℕ → Option Terms) (log : List Command) → Holds T.Store plan log self.old
            → Holds T.Store plan log self.new }
    {
        self.watch.reached(row.request.ordinal.get());
    }

    // The bank, where no more is to come.
    pub(crate) fn into_bank(self) -> Bank<T>
        ensures { result ≡ self.bank }
    {
        let Refill {
            bank,
            planned: _,
            moment: _,
            batch: _,
            mut watch,
        } = self;
        watch.ended();
        bank
    }
}

impl<T: Alter + Drop, W: Watch + Drop> Visitor<StoredBranch, Refill<T, W>> for Filling {
    ghost use Rattle.walked_rows.specs.Stored.{branch_entry};
    ghost use Rattle.bank_replays.specs.Holding.{bars_held, branches_held};
    ghost use Rattle.bank_replays.specs.Prefixes.{plans_none};
    ghost use Rattle.bank_replays.specs.Refilling.{Plans, with_accounts};

    ghost Visited = { λ visitor first last rows. Plans T.Store (λ r. r.branch) with_accounts first last rows };

    ghost none_yet = { λ visitor refill. plans_none (λ r. r.branch) with_accounts refill };

    ghost in_part = { λ visitor first last rows fault many visited. tt };

    ghost held = { λ visitor. bars_held branches_held branch_entry };

    fn visit(&self, row: StoredBranch, refill: &mut Refill<T, W>) -> Result<(), ReplayFault> {
        let branch = row.branch.get();
        let yet = Planned {
            accounts: row.accounts.get() as u32,
            floor: planned_at(&refill.planned, branch).floor,
        };
        plan_at(&mut refill.planned, branch, yet);
        Ok(())
    }
}

impl<T: Alter + Drop, W: Watch + Drop> Visitor<StoredFloor, Refill<T, W>> for Filling {
    ghost use Rattle.walked_rows.specs.StoredBeside.{floor_entry};
    ghost use Rattle.bank_replays.specs.Holding.{bars_held, floors_held};
    ghost use Rattle.bank_replays.specs.Prefixes.{plans_none};
    ghost use Rattle.bank_replays.specs.Refilling.{Plans, with_floor};

    ghost Visited = { λ visitor first last rows. Plans T.Store (λ r. r.branch) with_floor first last rows };

    ghost none_yet = { λ visitor refill. plans_none (λ r. r.branch) with_floor refill };

    ghost in_part = { λ visitor first last rows fault many visited. tt };

    ghost held = { λ visitor. bars_held floors_held floor_entry };

    fn visit(&self, row: StoredFloor, refill: &mut Refill<T, W>) -> Result<(), ReplayFault> {
        let branch = row.branch.get();
        let yet = Planned {
            accounts: planned_at(&refill.planned, branch).accounts,
            floor: Cents::new(row.lowest),
        };
        plan_at(&mut refill.planned, branch, yet);
        Ok(())
    }
}

// Whether a request was judged by its account, which is open then.
fn had_account(row: &KeptRequest) -> bool
    ensures { (o : OfOutcome) → row.now.request.outcome ≡ pos (code_of o) → result ≡ had_account o }
{
    let outcome = row.request.outcome;
    outcome != i64::from(Outcome::WrongBranch.code())
        && outcome != i64::from(Outcome::NoAccount.code())
}

impl<T: Alter + Drop, W: Watch + Drop> Visitor<KeptRequest, Refill<T, W>> for Filling {
    ghost use Rattle.std.specs.Prelude.{map};
    ghost use Rattle.walked_rows.specs.KeptRows.{kept_item};
    ghost use Rattle.bank_replays.specs.Holding.{bars_held, read_held};
    ghost use Rattle.bank_replays.specs.Prefixes.{follows_none};
    ghost use Rattle.bank_replays.specs.Refilling.{FollowsRows};

    ghost Visited = { λ visitor first last rows. FollowsRows T.Store first last (map kept_item rows) };

    ghost none_yet = { λ visitor refill. follows_none refill };

    ghost in_part = { λ visitor first last rows fault many visited. tt };

    ghost held = { λ visitor. bars_held read_held kept_item };

    fn visit(&self, row: KeptRequest, refill: &mut Refill<T, W>) -> Result<(), ReplayFault> {
        refill.reach(&row);
        let Some(request) = request_of(&row) else {
            return Ok(());
        };
        refill.take(&request, had_account(&row), row.posting)
    }
}
