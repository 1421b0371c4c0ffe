//! Entries of a log are posted at their moments, and branches of a plan are opened where the first entry needs them.
ghost use Rattle.std.specs.Prelude.{◌≡◌, ◌≤◌, ◌<◌, ◌+◌, ◌^◌, ◌++◌, ◌∷◌, [], List, IfNone, IfOk, IfSome};
ghost use Rattle.std.specs.Prelude.{Bool, Contains, IsSome, MatchResult, OnOk, Some, false, length, true, vec_len};
ghost use Rattle.std.specs.List.{AllByRecursion, slice_get};
ghost use Rattle.message_records.specs.believed.Outcomes.{has_balance};
ghost use Rattle.posting_rules.specs.declared.limits.TheConstants.{LAST_BRANCH};
ghost use Rattle.posting_core.specs.Entries.{IsMomentOf, answered};
ghost use Rattle.posting_core.specs.believed.LogEntries.{AnsweredRequest};
ghost use Rattle.branch_loader.specs.Following.{AreCounted, AreReady, AreTexts, HasOpened, HasPosted, HasRoom};
ghost use Rattle.branch_loader.specs.Following.{IsFirstOther, IsFollowing, IsLooked, IsWaiting, LooksAt, NoneLooked, Stops};
ghost use Rattle.branch_loader.specs.Following.{TakesAll, had_account, needed_by, row_of};
ghost use Rattle.branch_loader.specs.believed.Plans.{Rows};
ghost use Rattle.branch_loader.specs.Plans.{IsRow};

use crate::follow_fault::{FollowFault, OtherReply};
use crate::plan::{Plan, PlanRow};
use arrayvec::ArrayVec;
use message_records::{Moment, Outcome, REPLY_BYTES, REQUEST_BYTES, encode_reply, encode_request};
use posting_core::{
    Count, Counter, ENTRY_BYTES, Entry, LAST_BRANCH, RECORDS_PER_BATCH, branch_of_account,
    branch_of_teller, decode_entry,
};
use std::alloc::{AllocError, Global};

/// The records that are yet to be posted, all at one moment, and the replies of their entries; how many entries were
/// posted before them.
#[derive(Drop)]
pub(crate) struct Waiting {
    posted: Count,
    moment: Moment,
    records: ArrayVec<[u8; REQUEST_BYTES], RECORDS_PER_BATCH>,
    replies: ArrayVec<[u8; REPLY_BYTES], RECORDS_PER_BATCH>,
}

// The first reply that is another than its entry's, where so many entries came before.
fn first_other(
    before: Count,
    given: &[[u8; REPLY_BYTES]],
    due: &[[u8; REPLY_BYTES]],
) -> Option<OtherReply>
    ensures none { length given.now ≡ length due.now → IfNone result (given.now ≡ due.now) }
    ensures other { before + length given.now < 2 ^ 128
        → IfSome result (IsFirstOther before given.now due.now) }
{
    for i in 0..given.len().min(due.len()) {
        if given[i] != due[i] {
            return Some(OtherReply {
                entry: before.wrapping_add(i as Count).wrapping_add(1),
                stands: given[i],
                due: due[i],
            });
        }
    }
    None
}

// Posts records together, whose entries have these replies, where so many entries came before.
fn post_together<C: Counter>(
    before: Count,
    moment: Moment,
    records: &[[u8; REQUEST_BYTES]],
    due: &[[u8; REPLY_BYTES]],
    counter: &mut C,
) -> Result<(), FollowFault>
    requires { length records.now ≤ RECORDS_PER_BATCH }
    ensures { (first : C) (rows : Rows) (looked : List Bool) (done entries next : List AnsweredRequest)
        → (it : HasOpened C.seen C.spares rows first counter.old done (entries ++ next) looked)
        → AreCounted before done → AreTexts moment records.now due.now entries → AreReady it.followed entries
        → MatchResult result (λ _. HasOpened C.seen C.spares rows first counter.new (done ++ entries) next looked)
        (Stops C.seen C.spares C.reason rows first counter.new (done ++ entries) next) }
{
    if records.is_empty() {
        return Ok(());
    }
    let replies = counter.submit_all(moment, records)?;
    match first_other(before, replies.as_slice(), due) {
        None => Ok(()),
        Some(other) => Err(FollowFault::Differs(other)),
    }
}

// Posts what waits.
fn post_waiting<C: Counter>(waiting: &mut Waiting, counter: &mut C) -> Result<(), FollowFault>
    ensures follows { (first : C) (rows : Rows) (looked : List Bool) (given next : List AnsweredRequest)
        → IsFollowing C.seen C.spares rows first counter.old given next waiting.old looked
        → MatchResult result (λ _. HasPosted C.seen C.spares rows first counter.new given next waiting.new looked)
        (Stops C.seen C.spares C.reason rows first counter.new given next) }
    ensures empty { OnOk result (IsWaiting waiting.new []) }
    ensures moment { waiting.new.moment ≡ waiting.old.moment }
{
    post_together(
        waiting.posted,
        waiting.moment,
        waiting.records.as_slice(),
        waiting.replies.as_slice(),
        counter,
    )?;
    waiting.posted = waiting.posted.wrapping_add(waiting.records.len() as Count);
    waiting.records.clear();
    waiting.replies.clear();
    Ok(())
}

// The first row of a branch.
fn find_row(rows: &[PlanRow], branch: u64) -> Option<PlanRow>
    ensures { result ≡ row_of rows.now branch }
{
    for row in rows {
        if row.0.get() == branch {
            return Some(*row);
        }
    }
    None
}

// The plan's row of a branch.
fn row_of(plan: &Plan, branch: u64) -> Option<PlanRow>
    ensures value { result ≡ row_of plan.now branch }
    ensures named { IfSome result (λ row. row.0 ≡ branch) }
    ensures within { IfSome result IsRow }
{
    find_row(plan.rows(), branch)
}

// Opens a branch as the plan has it, if it has the branch, for the next entry, where it wasn't opened before.
fn open_planned<C: Counter>(plan: &Plan, branch: u64, counter: &mut C) -> Result<(), FollowFault>
    ensures opens { (first : C) (rows : Rows) (looked : List Bool) (done : List AnsweredRequest) (a : AnsweredRequest)
        → plan.now ≡ rows → Contains (needed_by a) branch → (slice_get looked branch ≡ Some true → ⊥)
        → HasOpened C.seen C.spares rows first counter.old done (a ∷ []) looked
        → MatchResult result (λ _. (looked' : List Bool) → LooksAt looked looked' branch
        → (branch ≤ LAST_BRANCH → slice_get looked' branch ≡ Some true)
        → HasOpened C.seen C.spares rows first counter.new done (a ∷ []) looked')
        (Stops C.seen C.spares C.reason rows first counter.new done (a ∷ [])) }
    ensures within { IsSome (row_of plan.now branch) → branch ≤ LAST_BRANCH }
{
    let Some(row) = row_of(plan, branch) else {
        return Ok(());
    };
    let (branch, accounts, floor) = row;
    counter.open_branch(branch, accounts, floor)?;
    Ok(())
}

impl Waiting {
    // Nothing waits.
    pub(crate) fn none() -> Waiting
        ensures waits { IsWaiting result [] }
        ensures posted { result.posted ≡ 0 }
    {
        Waiting {
            posted: 0,
            moment: Moment::new(0).unwrap(),
            records: ArrayVec::new(),
            replies: ArrayVec::new(),
        }
    }

    // An entry waits, too.
    fn push(&mut self, entry: &Entry)
        requires { HasRoom self.old }
        ensures waits { (entries : List AnsweredRequest) → IsWaiting self.old entries
            → IsMomentOf (answered entry.now) self.old.moment
            → IsWaiting self.new (entries ++ answered entry.now ∷ []) }
        ensures posted { self.new.posted ≡ self.old.posted }
    {
        self.records.push(encode_request(&entry.request));
        self.replies.push(encode_reply(&entry.reply));
    }
}

/// Follows the entries of a log, one by one.
#[derive(Drop)]
pub(crate) struct Follower<'p> {
    plan: &'p Plan,
    // By the branch's number, whether the plan was looked at for it.
    looked: Vec<bool>,
    pub(crate) waiting: Waiting,
    ghost sized: { vec_len looked ≡ LAST_BRANCH + 1 },
}

// Whether a request with this outcome is posted.
fn is_posted(outcome: Outcome) -> bool
    ensures { result ≡ has_balance outcome }
{
    match outcome {
        Outcome::Posted => true,
        _ => false,
    }
}

// Whether a request with this outcome was judged by its account, which is open then.
fn had_account(outcome: Outcome) -> bool
    ensures { result ≡ had_account outcome }
{
    match outcome {
        Outcome::WrongBranch | Outcome::NoAccount => false,
        _ => true,
    }
}

impl<'p> Follower<'p> {
    // No entry was followed yet.
    pub(crate) fn over(alloc: Global, plan: &'p Plan) -> Result<Follower<'p>, AllocError>
        ensures { IfOk result (λ follower. (follower.plan.now ≡ plan.now) × IsWaiting follower.waiting []
            × (follower.waiting.posted ≡ 0) × NoneLooked follower.looked.items) }
    {
        let looked = vec![in alloc; false; LAST_BRANCH as usize + 1]?;
        Ok(Follower {
            plan,
            looked,
            waiting: Waiting::none(),
        })
    }

    // Posts what waits.
    pub(crate) fn post<C: Counter>(&mut self, counter: &mut C) -> Result<(), FollowFault>
        ensures follows { (first : C) (rows : Rows) (looked : List Bool) (given next : List AnsweredRequest)
            → IsFollowing C.seen C.spares rows first counter.old given next self.old.waiting looked
            → MatchResult result
            (λ _. HasPosted C.seen C.spares rows first counter.new given next self.new.waiting looked)
            (Stops C.seen C.spares C.reason rows first counter.new given next) }
        ensures empty { OnOk result (IsWaiting self.new.waiting []) }
        ensures plan { self.new.plan.now ≡ self.old.plan.now }
        ensures looked { self.new.looked ≡ self.old.looked }
    {
        post_waiting(&mut self.waiting, counter)
    }

    // Opens a branch that the next entry needs, if the plan has it and it wasn't asked for yet, after all that came
    // before.
    fn open<C: Counter>(&mut self, branch: u64, counter: &mut C) -> Result<(), FollowFault>
        ensures follows { (first : C) (rows : Rows) (given : List AnsweredRequest) (a : AnsweredRequest)
            → self.old.plan.now ≡ rows → Contains (needed_by a) branch
            → IsFollowing C.seen C.spares rows first counter.old given (a ∷ []) self.old.waiting self.old.looked.items
            → MatchResult result
            (λ _. IsFollowing C.seen C.spares rows first counter.new given (a ∷ []) self.new.waiting
            self.new.looked.items)
            (Stops C.seen C.spares C.reason rows first counter.new given (a ∷ [])) }
        ensures looked { OnOk result (IsLooked self.old.plan.now self.new.looked.items branch) }
        ensures keeps { OnOk result (LooksAt self.old.looked.items self.new.looked.items branch) }
        ensures plan { self.new.plan.now ≡ self.old.plan.now }
    {
        if self.has_looked(branch) {
            return Ok(());
        }
        self.post(counter)?;
        open_planned(self.plan, branch, counter)?;
        self.note(branch);
        Ok(())
    }

    // Whether the plan was looked at for a branch.
    fn has_looked(&self, branch: u64) -> bool
        ensures yes { result ≡ true → slice_get self.now.looked.items branch ≡ Some true }
        ensures no { result ≡ false → slice_get self.now.looked.items branch ≡ Some true → ⊥ }
    {
        match self.looked.get(branch as usize) {
            Some(looked) => *looked,
            None => false,
        }
    }

    // The plan was looked at for a branch.
    fn note(&mut self, branch: u64)
        ensures looked { LooksAt self.old.looked.items self.new.looked.items branch }
        ensures has { branch ≤ LAST_BRANCH → slice_get self.new.looked.items branch ≡ Some true }
        ensures waiting { self.new.waiting ≡ self.old.waiting }
        ensures plan { self.new.plan.now ≡ self.old.plan.now }
    {
        if let Some(looked) = self.looked.get_mut(branch as usize) {
            *looked = true;
        }
    }

    // Posts what waits at another moment, or is as much as is posted together.
    fn make_room<C: Counter>(&mut self, moment: Moment, counter: &mut C) -> Result<(), FollowFault>
        ensures follows { (first : C) (rows : Rows) (given next : List AnsweredRequest)
            → IsFollowing C.seen C.spares rows first counter.old given next self.old.waiting self.old.looked.items
            → MatchResult result
            (λ _. IsFollowing C.seen C.spares rows first counter.new given next self.new.waiting
            self.new.looked.items)
            (Stops C.seen C.spares C.reason rows first counter.new given next) }
        ensures moment { OnOk result (self.new.waiting.moment ≡ moment) }
        ensures room { OnOk result (HasRoom self.new.waiting) }
        ensures plan { self.new.plan.now ≡ self.old.plan.now }
        ensures looked { self.new.looked ≡ self.old.looked }
    {
        if moment == self.waiting.moment
            && !self.waiting.records.is_full()
            && !self.waiting.replies.is_full()
        {
            return Ok(());
        }
        self.post(counter)?;
        self.waiting.moment = moment;
        Ok(())
    }

    // The moment at which an entry is posted: its own, or where it wasn't posted that of those before it.
    fn moment_for(&self, entry: &Entry) -> Moment
        ensures { IsMomentOf (answered entry.now) result }
    {
        if is_posted(entry.reply.outcome()) {
            entry.moment
        } else {
            self.waiting.moment
        }
    }

    // Opens the branches that the next entry needs: its teller's, and its account's where it was judged by that.
    fn open_needed<C: Counter>(&mut self, entry: &Entry, counter: &mut C) -> Result<(), FollowFault>
        ensures follows { (first : C) (rows : Rows) (given : List AnsweredRequest)
            → self.old.plan.now ≡ rows
            → IsFollowing C.seen C.spares rows first counter.old given (answered entry.now ∷ []) self.old.waiting
            self.old.looked.items
            → MatchResult result
            (λ _. IsFollowing C.seen C.spares rows first counter.new given (answered entry.now ∷ [])
            self.new.waiting self.new.looked.items)
            (Stops C.seen C.spares C.reason rows first counter.new given (answered entry.now ∷ [])) }
        ensures looked { OnOk result (AllByRecursion (IsLooked self.old.plan.now self.new.looked.items)
            (needed_by (answered entry.now))) }
        ensures plan { self.new.plan.now ≡ self.old.plan.now }
    {
        self.open(branch_of_teller(entry.request.teller()), counter)?;
        if !had_account(entry.reply.outcome()) {
            return Ok(());
        }
        self.open(branch_of_account(entry.request.account()), counter)
    }

    // Takes an entry, once the branches that it needs are open.
    pub(crate) fn take<C: Counter>(
        &mut self,
        entry: &Entry,
        counter: &mut C,
    ) -> Result<(), FollowFault>
        ensures follows { (first : C) (rows : Rows) (given : List AnsweredRequest)
            → self.old.plan.now ≡ rows
            → IsFollowing C.seen C.spares rows first counter.old given [] self.old.waiting self.old.looked.items
            → MatchResult result
            (λ _. IsFollowing C.seen C.spares rows first counter.new (given ++ answered entry.now ∷ []) []
            self.new.waiting self.new.looked.items)
            (Stops C.seen C.spares C.reason rows first counter.new given (answered entry.now ∷ [])) }
        ensures plan { self.new.plan.now ≡ self.old.plan.now }
    {
        self.open_needed(entry, counter)?;
        let moment = self.moment_for(entry);
        self.make_room(moment, counter)?;
        self.waiting.push(entry);
        Ok(())
    }

    // Takes entries, and posts all that waits, up to bytes that are no entry.
    pub(crate) fn take_all<C: Counter>(
        &mut self,
        entries: &[[u8; ENTRY_BYTES]],
        before: Count,
        counter: &mut C,
    ) -> Result<(), FollowFault>
        requires waits { IsWaiting self.old.waiting [] }
        requires few { before + length entries.now < 2 ^ 128 }
        ensures follows { (first : C) (rows : Rows) (given : List AnsweredRequest)
            → self.old.plan.now ≡ rows
            → HasPosted C.seen C.spares rows first counter.old given [] self.old.waiting self.old.looked.items
            → TakesAll C.seen C.spares C.reason rows first counter.new given entries.now before self.new.waiting
            self.new.looked.items result }
        ensures empty { OnOk result (IsWaiting self.new.waiting []) }
        ensures plan { self.new.plan.now ≡ self.old.plan.now }
    {
        for i in 0..entries.len() {
            let entry = match decode_entry(&entries[i]) {
                Some(entry) => entry,
                None => {
                    self.post(counter)?;
                    return Err(FollowFault::NoEntry(before + i as Count));
                }
            };
            self.take(&entry, counter)?;
        }
        self.post(counter)
    }
}
