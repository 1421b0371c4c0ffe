//! Files that fail, and steps that are limited, while all that was posted is read.
use crate::files::{ALL_PASS, Image, Passed, play_on};
use crate::readings::Reading;
use crate::stops::made;
use crate::tasks::{BRANCHES, Progress, Task};
use std::alloc::{Alloc, Global};
use std::process::Abort;

// Reading changes neither file.
fn is_unchanged(rt: &impl Abort, start: &Image, left: &Image) {
    assert!(rt; left.db.as_slice() == start.db.as_slice());
    assert!(rt; left.log.as_slice() == start.log.as_slice());
}

// Reads the files by a task, each of which fails after so many calls.
fn read_by(
    rt: &(impl Abort + Alloc<A = Global>),
    start: &Image,
    task: Task,
    passed: Passed,
) -> Progress {
    let ended = play_on(rt, &start.db, &start.log, passed, &[task]);
    is_unchanged(rt, start, &ended.written);
    ended.progress
}

fn walk_until(rt: &(impl Abort + Alloc<A = Global>), start: &Image, calls: u64) -> Progress {
    let passed = Passed {
        db: calls,
        log: calls,
    };
    read_by(rt, start, Task::Read(Reading::History), passed)
}

// The least number of calls after which a walk has begun.
fn calls_to_begin(rt: &(impl Abort + Alloc<A = Global>), start: &Image) -> u64 {
    let mut low = 0u64;
    let mut high = 4_096u64;
    for _ in 0..12u8 {
        let middle = low.midpoint(high);
        if walk_until(rt, start, middle).is_begun {
            high = middle;
        } else {
            low = middle;
        }
    }
    high
}

// Lets the files fail after more and more calls, from the first walk that begins up to one that ends: the others
// stop late.
#[test]
fn a_walk_stops_after_its_first_row(rt: HostRuntime) {
    let start = made(&rt, &[Task::Make(BRANCHES), Task::Post]);
    let first = calls_to_begin(&rt, &start);
    for more in 0..1_000u64 {
        let progress = walk_until(&rt, &start, first.saturating_add(more));
        assert!(rt; progress.is_begun);
        if progress.is_done {
            assert!(rt; more > 0);
            return;
        }
    }
    panic!(rt; "a walk that ends");
}

// Lets each statement visit more and more rows, up to a walk that ends. It is refused before its first row or
// not at all, since no statement of it visits more rows than its first.
#[test]
fn a_walk_of_limited_steps(rt: HostRuntime) {
    let start = made(&rt, &[Task::Make(BRANCHES), Task::Post]);
    for rows in 1..1_000u64 {
        let progress = read_by(&rt, &start, Task::Limited(rows), ALL_PASS);
        if progress.is_done {
            assert!(rt; rows > 1);
            return;
        }
        assert!(rt; !progress.is_begun, "{rows}");
    }
    panic!(rt; "a walk that ends");
}
