//! Plans: sources and lists, and the plan or the fault that each gives.
use branch_loader::{Plan, PlanFault, read_plan};
use failing_ends::CutReader;
use message_records::{Branch, Cents};
use std::alloc::{Alloc, Global};
use std::io::{ErrorKind, Read};
use std::process::Abort;

// The source's plan has so many rows, or this fault.
fn is_read<R: Read>(
    rt: &impl Alloc<A = Global>,
    source: &mut R,
    want: Result<usize, PlanFault>,
) -> bool {
    match read_plan(rt.alloc(), source) {
        Ok(plan) => want == Ok(plan.rows().len()),
        Err(fault) => want == Err(fault),
    }
}

// The parts after a byte order mark, if there is to be one, and with these line ends.
pub fn written(
    rt: &(impl Abort + Alloc<A = Global>),
    mark: bool,
    line_end: &[u8],
    parts: &[&[u8]],
) -> Vec<u8> {
    let mut text = Vec::new(rt.alloc());
    if mark {
        text.extend_from_slice(b"\xEF\xBB\xBF").expect(rt, "memory");
    }
    for part in parts {
        for byte in *part {
            if *byte == b'\n' {
                text.extend_from_slice(line_end).expect(rt, "memory");
            } else {
                text.push(*byte).expect(rt, "memory");
            }
        }
    }
    text
}

pub const LINE_ENDS: [&[u8]; 3] = [b"\n", b"\r\n", b"\r"];

// The source gives this with each line end, after a byte order mark and with none.
fn gives(rt: &(impl Abort + Alloc<A = Global>), source: &[u8], want: Result<usize, PlanFault>) {
    for line_end in &LINE_ENDS {
        for mark in [false, true] {
            let text = written(rt, mark, line_end, &[source]);
            assert!(rt; is_read(rt, &mut text.as_slice(), want));
        }
    }
}

const SOURCES: [(&[u8], Result<usize, PlanFault>); 36] = [
    (b"", Err(PlanFault::Header)),
    (b"branch,account\n", Err(PlanFault::Header)),
    (b"branch,accounts,\n1,3\n", Err(PlanFault::Header)),
    (b" branch,accounts\n", Err(PlanFault::Header)),
    (b"1,3\n", Err(PlanFault::Header)),
    (b"branch,accounts", Ok(0)),
    (b"branch,accounts\n", Ok(0)),
    (b"branch,accounts\n1,3\n2\n", Err(PlanFault::Columns(2))),
    (b"branch,accounts\n1,3,\n0,3\n", Err(PlanFault::Columns(1))),
    (b"branch,accounts\n0,3\n", Err(PlanFault::Branch(1))),
    (b"branch,accounts\n9999,100000\n", Ok(1)),
    (b"branch,accounts\n10000,3\n", Err(PlanFault::Branch(1))),
    (b"branch,accounts\n+1,3\n", Err(PlanFault::Branch(1))),
    (b"branch,accounts\n 1,3\n", Err(PlanFault::Branch(1))),
    (b"branch,accounts\n,3\n", Err(PlanFault::Branch(1))),
    (
        b"branch,accounts\n0000000001,3\n",
        Err(PlanFault::Branch(1)),
    ),
    (b"branch,accounts\n1,100001\n", Err(PlanFault::Accounts(1))),
    (b"branch,accounts\n1,0\n", Err(PlanFault::Accounts(1))),
    (b"branch,accounts\n1,3\n2,-2\n", Err(PlanFault::Accounts(2))),
    (b"branch,accounts\n1,3\n0001,3\n", Err(PlanFault::Twice(2))),
    (
        b"branch,accounts\n1,3\n2,2\n1,x\n",
        Err(PlanFault::Accounts(3)),
    ),
    (
        b"branch,accounts\n1,3\n1,3\n0,0\n",
        Err(PlanFault::Twice(2)),
    ),
    (b"\"branch\",\"accounts\"\n\"1\",3\n2,\"2\"", Ok(2)),
    (b"branch,accounts\n\n1,000000003\n", Ok(1)),
    (b"branch,accounts,floor\n1,3,-1000\n2,2,\n", Ok(2)),
    (b"branch,accounts,floor\n", Ok(0)),
    (b"branch,accounts,lowest\n1,3,0\n", Err(PlanFault::Header)),
    (b"branch,accounts,floor\n1,3\n", Err(PlanFault::Columns(1))),
    (b"branch,accounts\n1,3,0\n", Err(PlanFault::Columns(1))),
    (b"branch,accounts,floor\n1,3,1\n", Err(PlanFault::Floor(1))),
    (b"branch,accounts,floor\n1,3,+0\n", Err(PlanFault::Floor(1))),
    (b"branch,accounts,floor\n1,3,-\n", Err(PlanFault::Floor(1))),
    (
        b"branch,accounts,floor\n1,3,-9999999999999\n",
        Err(PlanFault::Floor(1)),
    ),
    (
        b"branch,accounts,floor\n1,3,0\n2,2,-0\n3,1,-999999999999\n4,1,000000000000\n",
        Ok(4),
    ),
    (
        b"branch,accounts,floor\n1,3,\n1,3,1\n",
        Err(PlanFault::Floor(2)),
    ),
    (
        b"branch,accounts,floor\n1,3,0\n1,3,0\n",
        Err(PlanFault::Twice(2)),
    ),
];

#[test]
fn sources(rt: HostRuntime) {
    for (source, want) in &SOURCES {
        gives(&rt, source, *want);
    }
}

#[test]
fn rows_in_their_order(rt: HostRuntime) {
    let mut source = b"branch,accounts\n22,000100000\n0003,2\n".as_slice();
    let plan = read_plan(rt.alloc(), &mut source).expect(&rt, "a plan");
    let rows = [
        (Branch::new(22).unwrap(), 100_000, None),
        (Branch::new(3).unwrap(), 2, None),
    ];
    assert!(rt; plan.rows() == rows.as_slice());
}

#[test]
fn a_failing_source(rt: HostRuntime) {
    let whole = b"branch,accounts\n1,3\n2,2\n".as_slice();
    for i in 0..=whole.len() {
        let mut source = CutReader {
            before: &whole[..i],
            fault: Some(ErrorKind::BrokenPipe),
            after: b"",
        };
        assert!(rt; is_read(&rt, &mut source, Err(PlanFault::Csv)));
    }
}

// The second row of a list whose first one is branch 1 with one account, and how many rows its plan has.
const SECOND_ROWS: [(u64, u32, Option<i64>, Result<usize, PlanFault>); 9] = [
    (1, 3, None, Err(PlanFault::Twice(2))),
    (9999, 100_000, None, Ok(2)),
    (10_000, 1, None, Err(PlanFault::Branch(2))),
    (999_999, 0, None, Err(PlanFault::Branch(2))),
    (2, 0, None, Err(PlanFault::Accounts(2))),
    (2, 100_001, None, Err(PlanFault::Accounts(2))),
    (2, 1, Some(0), Ok(2)),
    (2, 1, Some(-999_999_999_999), Ok(2)),
    (2, 1, Some(1), Err(PlanFault::Floor(2))),
];

// How many rows the plan of these rows has, or the fault.
fn rows_of(
    rt: &(impl Abort + Alloc<A = Global>),
    rows: &[(Branch, u32, Option<Cents>)],
) -> Result<usize, PlanFault> {
    let mut list = Vec::new(rt.alloc());
    list.extend_from_slice(rows).expect(rt, "memory");
    Ok(Plan::from_list(list)?.rows().len())
}

#[test]
fn lists(rt: HostRuntime) {
    let first = Branch::new(1).unwrap();
    for (branch, accounts, floor, want) in &SECOND_ROWS {
        let branch = Branch::new(*branch).expect(&rt, "a branch");
        let floor = floor.and_then(Cents::new);
        let rows = [(first, 1, None), (branch, *accounts, floor)];
        assert!(rt; rows_of(&rt, &rows) == *want);
    }
}
