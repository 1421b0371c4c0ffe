//! The records of a driver.
use branch_loader::Plan;
use load_driver::Driver;
use message_records::{Branch, REQUEST_BYTES};
use std::alloc::{Alloc, Global};
use std::process::Abort;

/// Branch 1 with one account.
pub const ONE_ACCOUNT: &[(u64, u32)] = &[(1, 1)];

// The plan of these branches and counts.
fn plan_of(rt: &(impl Abort + Alloc<A = Global>), list: &[(u64, u32)]) -> Plan {
    let mut rows = Vec::new(rt.alloc());
    for (branch, accounts) in list {
        let branch = Branch::new(*branch).expect(rt, "a branch");
        rows.push((branch, *accounts, None)).expect(rt, "memory");
    }
    Plan::from_list(rows).expect(rt, "a plan")
}

/// The first records of a seed over these branches.
pub fn records_of(
    rt: &(impl Abort + Alloc<A = Global>),
    plan: &[(u64, u32)],
    seed: u64,
    count: u32,
) -> Vec<[u8; REQUEST_BYTES]> {
    let mut driver = Driver::new(rt.alloc(), &plan_of(rt, plan), seed).expect(rt, "a driver");
    let mut records = Vec::new(rt.alloc());
    for _ in 0..count {
        let record = driver.next().expect(rt, "a record");
        records.push(record).expect(rt, "memory");
    }
    records
}
