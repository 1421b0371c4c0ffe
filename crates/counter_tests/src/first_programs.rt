//! The programs of the crates' pages, one in each file: a page shows all of its file but the head. Those that
//! are no tests are run by the tests here.
mod batches;
mod clocks;
mod drives;
mod plans;
mod records;
mod requests;
mod runs;
mod sheets;
mod streams;
mod verdicts;

use crate::streams::{FIRST_REPLY, first_record};
use batches::first_batch;
use drives::first_drive;
use failing_ends::open_both;
use message_records::{Account, Cents, Outcome};
use posting_core::{Counter, PlainBank, StoredClock};
use posting_rules::Verdict;
pub use requests::first_requests;
use runs::first_runs;
use std::alloc::{Alloc, Global};
use std::process::Abort;
use streams::first_stream;
use verdicts::first_verdict;

fn stream_one_record<C: Counter>(rt: &(impl Abort + Alloc<A = Global>), bank: &mut C) {
    let mut clock = StoredClock::new(Vec::new(rt.alloc()));
    let mut replies = Vec::new(rt.alloc());
    let record = first_record();
    let count = first_stream(bank, &mut clock, record.as_slice(), &mut replies);
    assert!(rt; count == Ok(1) && replies.starts_with(FIRST_REPLY));
    assert!(rt; bank.balance(Account::new(1).unwrap()) == Ok(Cents::new(500)));
}

fn drive_over_two_branches<C: Counter>(rt: &(impl Abort + Alloc<A = Global>), bank: &mut C) {
    assert!(rt; open_both(bank).is_ok());
    let driven = first_drive(rt.alloc(), bank).expect(rt, "a drive");
    assert!(rt; driven.posted == 1_000 && driven.refused == 0);
}

#[test]
fn a_stream_and_a_drive(rt: HostRuntime) {
    stream_one_record(&rt, &mut PlainBank::new(rt.alloc()));
    drive_over_two_branches(&rt, &mut PlainBank::new(rt.alloc()));
}

#[test]
fn a_batch_of_one_record(rt: HostRuntime) {
    let judged = first_batch(rt.alloc(), first_record()).expect(&rt, "memory");
    assert!(rt; judged.replies.len() == 1 && judged.replies[0].starts_with(FIRST_REPLY));
    let accounts = &judged.overlay.accounts;
    assert!(rt; accounts.len() == 1 && accounts[0].changed == Cents::new(500));
}

#[test]
fn an_open_account_and_none(rt: HostRuntime) {
    let (zero, delta) = (Cents::zero(), Cents::new(500).unwrap());
    let posted = Verdict::Posted {
        account: delta,
        teller: delta,
        branch: delta,
    };
    assert!(rt; first_verdict(Some(zero)) == (posted, Some(delta)));
    let refused = Verdict::Refused(Outcome::NoAccount);
    assert!(rt; first_verdict(None) == (refused, None));
}

#[test]
fn numbers_that_differ(rt: HostRuntime) {
    assert!(rt; first_runs(rt.alloc()) == Ok(Some(3)));
}
