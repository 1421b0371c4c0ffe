//! A machine goes as far as the shared log, and the shared log as far as the machine, before it serves.
ghost use Rattle.std.specs.Prelude.{◌≡◌, true, IfErr, IfOk, IfSome, List, [], OnOk, length, min, take};
ghost use Rattle.posting_core.specs.believed.LogEntries.{AnsweredRequest};
ghost use Rattle.branch_loader.specs.Following.{HasFollowed};
ghost use Rattle.shared_log.specs.Known.{with_more};
ghost use Rattle.shared_log.specs.Joined.{HasCaughtUp, HasJoined, HasSent, HasTakenGiven, IsAsked};

use crate::log::{LogFault, SharedLog};
use crate::publishing::{PublishFault, publish};
use crate::replicated::Replicated;
use crate::settled::MOST_TRIES;
use branch_loader::{FollowFault, FollowWatch, OtherReply, Plan, follow};
use posting_core::{Count, ENTRY_BYTES, Fault, Followed};
use std::alloc::Global;

/// Why a machine can't serve.
#[derive(Clone, Copy, Debug, PartialEq, Eq)]
pub enum JoinFault {
    /// The bank's entry with this number, counted from 1, is another than the shared log's, or isn't there. It was never
    /// on a quorum, and nobody was told of it: the bank is made anew.
    Differs(Count),
    /// It stopped following the shared log, of whose entries the numbers are.
    Follow(FollowFault),
    /// The bank refused a call.
    Bank(Fault),
    /// The shared log gave nothing, or took nothing.
    Log(LogFault),
}

impl From<Fault> for JoinFault {
    ghost use Rattle.shared_log.specs.declared.joining.JoinFault.TheVariants.{Bank};

    ghost from_gives = { λ fault answer. answer ≡ Bank fault };

    fn from(fault: Fault) -> JoinFault {
        JoinFault::Bank(fault)
    }
}

impl From<LogFault> for JoinFault {
    ghost use Rattle.shared_log.specs.declared.joining.JoinFault.TheVariants.{Log};

    ghost from_gives = { λ fault answer. answer ≡ Log fault };

    fn from(fault: LogFault) -> JoinFault {
        JoinFault::Log(fault)
    }
}

/// How far a machine and the shared log went.
#[derive(Clone, Copy, Debug, PartialEq, Eq)]
pub struct Joined {
    /// How many entries the shared log held, all of which the bank has.
    pub held: u64,
    /// How many both have now: those behind are the bank's alone before.
    pub holds: u64,
}

/// What says when a machine that follows the others is to serve.
pub trait Turn {
    /// Whether it is to serve from now on. It may wait a while before it answers.
    fn is_here(&mut self) -> bool;
}

/// It is to serve as soon as it can.
#[derive(Drop)]
pub struct AtOnce;

impl Turn for AtOnce {
    fn is_here(&mut self) -> bool {
        true
    }
}

// Reads the next entries, and asks again where that isn't answered.
fn read_settled<L: SharedLog>(log: &mut L) -> Result<Vec<[u8; ENTRY_BYTES]>, LogFault>
    ensures given { IfOk result (λ given. L.known log.new ≡ with_more (L.known log.old) given.items) }
    ensures fault { IfErr result (λ fault. L.known log.new ≡ L.known log.old) }
{
    for _ in 1..MOST_TRIES {
        if let Ok(given) = log.read() {
            return Ok(given);
        }
    }
    log.read()
}

// How many of the first entries are alike: all that both have, or the number of the first that isn't, counted from 1
// behind so many.
fn alike(
    place: u64,
    own: &[[u8; ENTRY_BYTES]],
    given: &[[u8; ENTRY_BYTES]],
) -> Result<usize, JoinFault>
    ensures count { IfOk result (λ n. n ≡ min (length own.now) (length given.now)) }
    ensures alike { IfOk result (λ n. take n own.now ≡ take n given.now) }
{
    let both = own.len().min(given.len());
    for i in 0..both {
        if own[i] != given[i] {
            return Err(JoinFault::Differs(place as Count + i as Count + 1));
        }
    }
    Ok(both)
}

// How many of the entries that were given the bank has at this place, if it has no others there.
fn has_given<C: Followed>(
    counter: &mut C,
    place: u64,
    given: &[[u8; ENTRY_BYTES]],
) -> Result<usize, JoinFault>
    ensures asked { IfOk result (IsAsked C.seen C.spares counter.old counter.new place given.now) }
    ensures others { C.spares counter.old counter.new }
{
    let Some(bytes) = counter.entries_after(place)? else {
        return Err(JoinFault::Differs(place as Count));
    };
    let (own, _rest) = bytes.as_slice().as_chunks::<ENTRY_BYTES>();
    alike(place, own, given)
}

// A fault of entries that come behind so many, with the entry's number in the shared log.
fn placed(before: Count, fault: FollowFault) -> FollowFault {
    match fault {
        FollowFault::Differs(other) => FollowFault::Differs(OtherReply {
            entry: before.saturating_add(other.entry),
            ..other
        }),
        FollowFault::NoEntry(count) => FollowFault::NoEntry(before.saturating_add(count)),
        fault => fault,
    }
}

// Whoever watches is told of the entries of all that was given, and not of each part.
#[derive(Drop)]
struct Unwatched;

impl FollowWatch for Unwatched {
    fn followed(&mut self, _entries: Count) {}
}

// Follows entries of the shared log that come behind so many.
fn follow_lacked<C: Followed>(
    alloc: Global,
    plan: &Plan,
    counter: &mut C,
    before: Count,
    lacked: &[[u8; ENTRY_BYTES]],
) -> Result<(), JoinFault>
    ensures followed { OnOk result ((entries : List AnsweredRequest)
        × HasFollowed C.seen C.spares plan.now counter.old counter.new entries []) }
    ensures others { C.spares counter.old counter.new }
{
    let mut bytes = lacked.as_flattened();
    match follow(alloc, plan, &mut bytes, counter, &mut Unwatched) {
        Ok(_) => Ok(()),
        Err(fault) => Err(JoinFault::Follow(placed(before, fault))),
    }
}

// Takes the entries that the shared log has at a place: the bank has them already, or follows those that it lacks.
fn take_given<C: Followed>(
    alloc: Global,
    plan: &Plan,
    counter: &mut C,
    place: u64,
    given: &[[u8; ENTRY_BYTES]],
) -> Result<(), JoinFault>
    ensures taken { OnOk result (HasTakenGiven C.seen C.spares plan.now counter.old counter.new place given.now) }
    ensures others { C.spares counter.old counter.new }
{
    let had = has_given(counter, place, given)?;
    if had == given.len() {
        return Ok(());
    }
    let before = place as Count + had as Count;
    follow_lacked(alloc, plan, counter, before, &given[had..])?;
    let has = has_given(counter, place, given)?;
    if has == given.len() {
        Ok(())
    } else {
        Err(JoinFault::Differs(place as Count + has as Count + 1))
    }
}

// Follows the shared log until its turn has come, and then to its end.
fn catch_up<C: Followed, L: SharedLog, T: FollowWatch, U: Turn>(
    alloc: Global,
    plan: &Plan,
    bank: &mut C,
    log: &mut L,
    watch: &mut T,
    turn: &mut U,
) -> Result<(), JoinFault>
    requires { IfSome (L.known log.old) (λ entries. entries ≡ []) }
    ensures caught { OnOk result (HasCaughtUp C.seen C.spares plan.now bank.old bank.new (L.known log.new)) }
    ensures others { C.spares bank.old bank.new }
{
    let mut is_turn = false;
    for _ in 0..u64::MAX {
        let place = log.count();
        let given = read_settled(log)?;
        if given.is_empty() {
            if is_turn {
                return Ok(());
            }
            is_turn = turn.is_here();
            continue;
        }
        take_given(alloc, plan, bank, place, given.as_slice())?;
        watch.followed(log.count() as Count);
    }
    Err(JoinFault::Log(LogFault::Unanswered))
}

// Why the bank's entries from a place on weren't appended.
fn unsent(place: u64, fault: PublishFault) -> JoinFault {
    match fault {
        PublishFault::Bank(fault) => JoinFault::Bank(fault),
        PublishFault::Fewer => JoinFault::Differs(place as Count),
        PublishFault::Log(LogFault::Refused) => JoinFault::Differs(place as Count + 1),
        PublishFault::Log(fault) => JoinFault::Log(fault),
    }
}

// Appends all that the bank has beyond the shared log's end.
fn send_rest<C: Followed, L: SharedLog>(bank: &mut C, log: &mut L) -> Result<(), JoinFault>
    ensures sent { OnOk result (HasSent C.seen C.spares bank.old bank.new (L.known log.old) (L.known log.new)) }
    ensures others { C.spares bank.old bank.new }
{
    for _ in 0..u64::MAX {
        let place = log.count();
        let count = match publish(bank, log) {
            Ok(count) => count,
            Err(fault) => return Err(unsent(place, fault)),
        };
        if count == 0 {
            return Ok(());
        }
    }
    Err(JoinFault::Log(LogFault::Unanswered))
}

impl<C: Followed + Drop, L: SharedLog + Drop> Replicated<C, L> {
    /// Follows the shared log from its first entry on until its turn has come, and then to its end: the bank has its
    /// entries already, or posts them, with branches of the plan opened as they are needed. Then all that only the bank
    /// has is appended. It serves from then on, and not before.
    ///
    /// # Errors
    ///
    /// A [`JoinFault`]. It serves nothing.
    pub fn join<T: FollowWatch, U: Turn>(
        &mut self,
        alloc: Global,
        plan: &Plan,
        watch: &mut T,
        turn: &mut U,
    ) -> Result<Joined, JoinFault>
        requires { IfSome (L.known self.old.log) (λ entries. entries ≡ []) }
        ensures joined { OnOk result (HasJoined C.seen L.known C.spares plan.now self.old self.new) }
        ensures counts { IfOk result (λ joined. IfSome (L.known self.new.log) (λ entries. joined.holds ≡ length entries)) }
        ensures down { IfErr result (λ fault. self.new.is_down ≡ true) }
        ensures others { C.spares self.old.counter self.new.counter }
    {
        self.is_down = true;
        catch_up(alloc, plan, &mut self.counter, &mut self.log, watch, turn)?;
        let held = self.log.count();
        send_rest(&mut self.counter, &mut self.log)?;
        let holds = self.log.count();
        self.is_down = false;
        Ok(Joined { held, holds })
    }
}
