//! A machine that stops at each call on one of the files: what is left then, and what a resend gets.
use crate::calls::{RECORD, REPLY, is_reply, padded};
use crate::cases::{Case, Way};
use crate::drawn::{ONE_ACCOUNT, records_of};
use crate::files::{ALL_PASS, Ended, Image, Passed, play_on};
use crate::readings::Reading;
use crate::tasks::{BRANCHES, Progress, Task};
use bank_scenarios::History;
use message_records::REQUEST_BYTES;
use std::alloc::{Alloc, Global};
use std::process::Abort;

// Three records on two tellers and two accounts, and their replies.
const RECORDS: [&str; 3] = [
    "DC01000000000001000000010000010000000001+0000000001",
    "DC01000000000002000000010000010000000002+0000000001",
    "DC01000000000001000000020000010000000001+0000000001",
];

const REPLIES: [&str; 3] = [
    "DR0100000000000001000000010000010000000001+0000000001+000000000001POSTED",
    "DR0100000000000002000000010000010000000002+0000000001+000000000001POSTED",
    "DR0100000000000001000000020000010000000001+0000000001+000000000002POSTED",
];

/// What the tasks leave in files that hold nothing.
pub fn made(rt: &(impl Abort + Alloc<A = Global>), tasks: &[Task]) -> Image {
    let ended = play_on(rt, &[], &[], ALL_PASS, tasks);
    assert!(rt; ended.progress.is_done);
    ended.written
}

// The first bytes if it is to be, or else the others.
fn either<'a>(is_first: bool, first: &'a [u8], other: &'a [u8]) -> &'a [u8] {
    if is_first { first } else { other }
}

// The task is done on files that hold these bytes.
fn is_done_on(rt: &(impl Abort + Alloc<A = Global>), db: &[u8], log: &[u8], task: Task) {
    let ended = play_on(rt, db, log, ALL_PASS, &[task]);
    assert!(rt; ended.progress.is_done, "files that open again");
}

// Each file holds all that was written, or just what was synced.
fn holds_whatever_is_left(rt: &(impl Abort + Alloc<A = Global>), ended: &Ended, task: Task) {
    let Ended {
        written,
        synced,
        ..
    } = ended;
    let is_db_same = written.db.as_slice() == synced.db.as_slice();
    let is_log_same = written.log.as_slice() == synced.log.as_slice();
    for (loses_db, loses_log) in [(false, false), (false, true), (true, false), (true, true)] {
        if loses_db && is_db_same || loses_log && is_log_same {
            continue;
        }
        let db = either(loses_db, &synced.db, &written.db);
        let log = either(loses_log, &synced.log, &written.log);
        is_done_on(rt, db, log, task);
    }
}

// Does the task, until the machine stops, and again on whatever that leaves.
fn stop_after(
    rt: &(impl Abort + Alloc<A = Global>),
    start: &Image,
    task: Task,
    passed: Passed,
) -> Progress {
    let ended = play_on(rt, &start.db, &start.log, passed, &[task]);
    holds_whatever_is_left(rt, &ended, task.again(ended.progress));
    ended.progress
}

/// So many calls pass on the one file or the other.
pub fn passed(stops_db: bool, calls: u64) -> Passed {
    let mut passed = ALL_PASS;
    if stops_db {
        passed.db = calls;
    } else {
        passed.log = calls;
    }
    passed
}

/// Stops the machine at each call on the one file or the other, and returns how many stops were in the task.
pub fn stops_at_each(
    rt: &(impl Abort + Alloc<A = Global>),
    start: &Image,
    task: Task,
    stops_db: bool,
) -> u64 {
    let mut stops = 0u64;
    for calls in 0..10_000u64 {
        let progress = stop_after(rt, start, task, passed(stops_db, calls));
        if progress.is_done {
            return stops;
        }
        stops = stops.saturating_add(u64::from(progress.is_begun));
    }
    panic!(rt; "a run that ends");
}

// Stops at each call on either file. Some stops are in the task.
fn stop_at_each(rt: &(impl Abort + Alloc<A = Global>), start: &Image, task: Task) {
    let at_db = stops_at_each(rt, start, task, true);
    let at_log = stops_at_each(rt, start, task, false);
    assert!(rt; at_db.saturating_add(at_log) > 0);
}

// A history of branches and of records after them.
fn history_of(
    rt: &(impl Abort + Alloc<A = Global>),
    open: &[(u64, u32)],
    records: &[[u8; REQUEST_BYTES]],
) -> History {
    History::of(rt.alloc(), open, records).expect(rt, "a history")
}

// Stops in a history on a bank in which its branches are open.
fn stop_in(
    rt: &(impl Abort + Alloc<A = Global>),
    open: &[(u64, u32)],
    way: Way,
    history: &History,
) {
    let start = made(rt, &[Task::Make(open)]);
    let case = Case::of(way, history, open.len());
    stop_at_each(rt, &start, Task::Work(case));
}

// Stops in records that get these replies.
fn stop_in_records(
    rt: &(impl Abort + Alloc<A = Global>),
    way: Way,
    records: &[[u8; REQUEST_BYTES]],
    replies: &[&str],
) {
    let history = history_of(rt, BRANCHES, records);
    for (part, reply) in history.after(BRANCHES.len()).iter().zip(replies) {
        is_reply(rt, &part.reply, *reply);
    }
    stop_in(rt, BRANCHES, way, &history);
}

#[test]
fn a_new_bank_stops(rt: HostRuntime) {
    let start = Image {
        db: Vec::new(rt.alloc()),
        log: Vec::new(rt.alloc()),
    };
    stop_at_each(&rt, &start, Task::Create);
}

#[test]
fn a_plan_stops(rt: HostRuntime) {
    let history = history_of(&rt, BRANCHES, &[]);
    stop_in(&rt, &[], Way::Load, &history);
}

#[test]
fn a_posting_stops(rt: HostRuntime) {
    stop_in_records(&rt, Way::OneByOne, &[padded(RECORD)], &[REPLY]);
}

#[test]
fn a_batch_stops(rt: HostRuntime) {
    stop_in_records(&rt, Way::Together, &RECORDS.map(padded::<100>), &REPLIES);
}

// Two messages with the first posting's record.
#[test]
fn a_connection_stops(rt: HostRuntime) {
    stop_in_records(&rt, Way::Serve, &[padded(RECORD); 2], &[REPLY; 2]);
}

// The 50 records of the seed 7 over one account, by a stream or a drive.
fn stop_in_drive(rt: &(impl Abort + Alloc<A = Global>), way: Way) {
    let records = records_of(rt, ONE_ACCOUNT, 7, 50);
    stop_in(rt, ONE_ACCOUNT, way, &history_of(rt, ONE_ACCOUNT, &records));
}

// A read gives 1,300 bytes at most, so that the stream has four batches.
#[test]
fn a_stream_stops(rt: HostRuntime) {
    stop_in_drive(&rt, Way::Stream(1300));
}

#[test]
fn a_drive_stops(rt: HostRuntime) {
    stop_in_drive(&rt, Way::Drive);
}

// A report of a bank with two postings, the first with a reference.
fn stop_in_report(rt: &(impl Abort + Alloc<A = Global>), reading: Reading) {
    let referenced = "DC02000000000001000000010000010000000001+0000000500RENT MAY";
    let remote = "DC01000000100001000000010000010000000002-0000000700";
    let history = history_of(rt, BRANCHES, &[padded(referenced), padded(remote)]);
    let case = Case::of(Way::OneByOne, &history, BRANCHES.len());
    let start = made(rt, &[Task::Make(BRANCHES), Task::Work(case)]);
    stop_at_each(rt, &start, Task::Read(reading));
}

#[test]
fn the_text_of_an_audit_stops(rt: HostRuntime) {
    stop_in_report(&rt, Reading::AuditText);
}

#[test]
fn the_text_of_a_statement_stops(rt: HostRuntime) {
    stop_in_report(&rt, Reading::Statement);
}
