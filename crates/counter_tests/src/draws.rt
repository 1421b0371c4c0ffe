//! The requests of known seeds, and what a long run of them names.
use crate::first_programs::first_requests;
use branch_loader::Plan;
use load_driver::Driver;
use message_records::{Branch, REQUEST_BYTES, Request, decode_request};
use std::alloc::{Alloc, Global};
use std::process::Abort;

const THREE_BRANCHES: [(u64, u32); 3] = [(3, 70_000), (1, 5), (22, 100_000)];

// The plan of these branches and counts.
fn plan_of(rt: &(impl Abort + Alloc<A = Global>), list: &[(u64, u32)]) -> Plan {
    let mut rows = Vec::new(rt.alloc());
    for (branch, accounts) in list {
        let branch = Branch::new(*branch).expect(rt, "a branch");
        rows.push((branch, *accounts, None)).expect(rt, "memory");
    }
    Plan::from_list(rows).expect(rt, "a plan")
}

fn driver_of(rt: &(impl Abort + Alloc<A = Global>), list: &[(u64, u32)], seed: u64) -> Driver {
    let driver = Driver::new(rt.alloc(), &plan_of(rt, list), seed);
    driver.expect(rt, "a driver")
}

// There is a record, and it is this one with 49 spaces.
fn is_record(rt: &impl Abort, record: Option<[u8; REQUEST_BYTES]>, text: &[u8; 51]) {
    let mut want = [b' '; REQUEST_BYTES];
    want[..51].copy_from_slice(text);
    assert!(rt; record == Some(want));
}

// The first records of the seed over these branches are these.
fn draws(rt: &(impl Abort + Alloc<A = Global>), list: &[(u64, u32)], seed: u64, want: &[[u8; 51]]) {
    let mut driver = driver_of(rt, list, seed);
    for text in want {
        is_record(rt, driver.next(), text);
    }
}

// From tools/driver_vectors.py, with the arguments `7 12 3:70000 1:5 22:100000`.
const TWELVE_RECORDS: [[u8; 51]; 12] = [
    *b"DC01000000233386000002170000220000000001+0000232911",
    *b"DC01000002161064000002160000220000000001+0000052382",
    *b"DC01000000203623000000270000030000000001+0000206313",
    *b"DC01000000210695000000240000030000000001-0000763092",
    *b"DC01000002139115000002160000220000000002-0000741958",
    *b"DC01000002112108000000250000030000000001+0000249945",
    *b"DC01000002149132000002160000220000000003+0000494548",
    *b"DC01000002196353000002120000220000000001-0000753718",
    *b"DC01000000227277000002180000220000000001-0000955235",
    *b"DC01000000245353000000300000030000000001+0000780504",
    *b"DC01000000000004000000070000010000000001-0000964975",
    *b"DC01000000220974000000270000030000000002-0000914880",
];

#[test]
fn three_branches(rt: HostRuntime) {
    draws(&rt, &THREE_BRANCHES, 7, &TWELVE_RECORDS);
}

// Those of the function on the driver's page are the first three of them.
#[test]
fn first_three(rt: HostRuntime) {
    let records = first_requests(rt.alloc(), &plan_of(&rt, &THREE_BRANCHES));
    let records = records.expect(&rt, "a driver");
    for (record, text) in records.iter().zip(&TWELVE_RECORDS) {
        is_record(&rt, *record, text);
    }
}

// From tools/driver_vectors.py, with the arguments `18446744073709551615 4 1:1`.
#[test]
fn one_account(rt: HostRuntime) {
    let want = [
        *b"DC01000000000001000000020000010000000001-0000395323",
        *b"DC01000000000001000000080000010000000001-0000796073",
        *b"DC01000000000001000000030000010000000001+0000263492",
        *b"DC01000000000001000000070000010000000001-0000960298",
    ];
    draws(&rt, &[(1, 1)], u64::MAX, &want);
}

// Whether the list opens the account at this place of the branch, from 0.
fn is_open(list: &[(u64, u32)], branch: u64, place: u64) -> bool {
    list.iter()
        .any(|row| row.0 == branch && place < u64::from(row.1))
}

// Whether a request is of its account's own branch. It names an open account and a teller of an open branch.
fn is_at_home(rt: &impl Abort, list: &[(u64, u32)], request: &Request) -> bool {
    let account = request.account().get() - 1;
    let home = account / 100_000 + 1;
    let branch = request.branch().get();
    assert!(rt; is_open(list, home, account % 100_000) && is_open(list, branch, 0));
    assert!(rt; (request.teller().get() - 1) / 10 + 1 == branch);
    home == branch
}

#[test]
fn the_85_15_rule(rt: HostRuntime) {
    let mut driver = driver_of(&rt, &THREE_BRANCHES, 1);
    let mut at_home = 0u32;
    for _ in 0..100_000 {
        let bytes = driver.next().expect(&rt, "a record");
        let request = decode_request(&bytes).expect(&rt, "a request");
        if is_at_home(&rt, &THREE_BRANCHES, &request) {
            at_home = at_home.saturating_add(1);
        }
    }
    assert!(rt; at_home >= 83_000 && at_home <= 87_000);
}
