//! Life after life of a bank that is stopped at one of its calls on a file, until all is answered.
use crate::cases::{Case, Way};
use crate::drawn::records_of;
use crate::files::{ALL_PASS, Ended, Image, Passed, play_on};
use crate::stops::{made, passed};
use crate::tasks::{BRANCHES, Task};
use bank_scenarios::History;
use std::alloc::{Alloc, Global};
use std::process::Abort;

const MAX_LIVES: u32 = 60;

// What is in the files after lives that answered all, and how many were stopped before.
#[derive(Drop)]
struct Lived {
    stopped: u32,
    left: Image,
}

fn copied(rt: &(impl Abort + Alloc<A = Global>), image: &Image) -> Image {
    Image {
        db: image.db.as_slice().to_vec(rt.alloc()).expect(rt, "memory"),
        log: image.log.as_slice().to_vec(rt.alloc()).expect(rt, "memory"),
    }
}

// Lives of which each is stopped after so many calls, or answers the rest of the records. None if too many are
// stopped. What wasn't synced is lost at a crash, or kept.
fn lives(
    rt: &(impl Abort + Alloc<A = Global>),
    start: &Image,
    case: Case,
    passed: Passed,
    loses: bool,
) -> Option<Lived> {
    let mut left = copied(rt, start);
    let mut answered = 0usize;
    for stopped in 0..MAX_LIVES {
        let task = Task::Work(case.after(answered));
        let Ended {
            progress,
            written,
            synced,
        } = play_on(rt, &left.db, &left.log, passed, &[task]);
        answered = answered.saturating_add(progress.parts);
        left = if loses { synced } else { written };
        if progress.is_done {
            return Some(Lived { stopped, left });
        }
    }
    None
}

// The tables hold all once, and the same records get the same replies and change none.
fn holds_all(rt: &(impl Abort + Alloc<A = Global>), left: &Image, case: Case) {
    let task = Task::Again(case, case.parts.len());
    let ended = play_on(rt, &left.db, &left.log, ALL_PASS, &[task]);
    assert!(rt; ended.progress.is_done);
}

// Stops lives at each call on the one file or the other, up to a life that isn't stopped.
fn live_at_each(
    rt: &(impl Abort + Alloc<A = Global>),
    start: &Image,
    case: Case,
    stops_db: bool,
    loses: bool,
) -> Image {
    let mut ended = 0u32;
    for calls in 0..10_000u64 {
        let Some(lived) = lives(rt, start, case, passed(stops_db, calls), loses) else {
            continue;
        };
        holds_all(rt, &lived.left, case);
        if lived.stopped == 0 {
            assert!(rt; ended > 0);
            return lived.left;
        }
        ended = ended.saturating_add(1);
    }
    panic!(rt; "a life that isn't stopped");
}

// The records once more in reverse order, twice: they get their replies, and no table changes.
fn are_answered_in_reverse(rt: &(impl Abort + Alloc<A = Global>), left: &Image, case: Case) {
    let last = case.last();
    let mut parts = Vec::new(rt.alloc());
    for part in case.parts.iter().rev() {
        parts.push(part.again(last)).expect(rt, "memory");
    }
    let case = Case {
        way: Way::OneByOne,
        parts: &parts,
        before: last,
    };
    let tasks = [Task::Again(case, 0), Task::Again(case, 0)];
    let ended = play_on(rt, &left.db, &left.log, ALL_PASS, &tasks);
    assert!(rt; ended.progress.is_done);
}

// The first 20 records of the seed 7, of which a read gives one.
fn live(rt: &(impl Abort + Alloc<A = Global>), stops_db: bool, loses: bool) {
    let records = records_of(rt, BRANCHES, 7, 20);
    let history = History::of(rt.alloc(), BRANCHES, &records).expect(rt, "a history");
    let case = Case::of(Way::Stream(100), &history, BRANCHES.len());
    let start = made(rt, &[Task::Make(BRANCHES)]);
    let left = live_at_each(rt, &start, case, stops_db, loses);
    are_answered_in_reverse(rt, &left, case);
}

#[test]
fn lives_that_lose_what_was_written_at_the_database_file(rt: HostRuntime) {
    live(&rt, true, true);
}

#[test]
fn lives_that_lose_what_was_written_at_the_log(rt: HostRuntime) {
    live(&rt, false, true);
}

#[test]
fn lives_that_keep_what_was_written_at_the_database_file(rt: HostRuntime) {
    live(&rt, true, false);
}

#[test]
fn lives_that_keep_what_was_written_at_the_log(rt: HostRuntime) {
    live(&rt, false, false);
}
