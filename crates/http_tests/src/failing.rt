//! Ends and a bank that fail.
use crate::connection::{Connection, play};
use crate::texts::{
    FIRST_AND_REMOTE, FIRST_ANSWER, FIRST_TWICE, REMOTE_ANSWER, UNAVAILABLE, joined,
};
use counter_http::ServeFault;
use posting_core::Fault;
use std::alloc::{Alloc, Global};
use std::io::ErrorKind;
use std::process::Abort;

// Two messages of 144 bytes, their answers, and the balances after none of their records, after one and after both.
#[derive(Clone, Copy)]
struct Two<'a> {
    input: &'a [u8],
    answers: [&'a [u8]; 2],
    balances: [(i64, i64); 3],
}

// The second record is another one, or the first again, which is posted once.
const BOTH: [Two<'static>; 2] = [
    Two {
        input: FIRST_AND_REMOTE,
        answers: [FIRST_ANSWER, REMOTE_ANSWER],
        balances: [(0, 0), (500, 0), (500, -700)],
    },
    Two {
        input: FIRST_TWICE,
        answers: [FIRST_ANSWER, FIRST_ANSWER],
        balances: [(0, 0), (500, 0), (500, 0)],
    },
];

// The reader gives so many bytes, then fails once if it has a fault, and then gives the rest: so many messages are
// answered.
fn read_in_two<'a>(
    two: &Two<'a>,
    at: usize,
    read_fault: Option<ErrorKind>,
    answered: usize,
) -> Connection<'a> {
    let (before, after) = two.input.split_at(at.min(two.input.len()));
    let none: &[u8] = b"";
    let [none_posted, one_posted, both_posted] = two.balances;
    let [first, second] = two.answers;
    let (answers, balances) = match answered {
        0 => ([none, none], none_posted),
        1 => ([first, none], one_posted),
        _ => ([first, second], both_posted),
    };
    Connection {
        read_fault,
        after,
        ..Connection::new(before, answered as u128, answers, balances)
    }
}

// The reader breaks there, or nothing comes in time. Where it was interrupted, the read is made again.
fn is_read_at(rt: &(impl Abort + Alloc<A = Global>), two: &Two, at: usize) {
    for fault in [ErrorKind::BrokenPipe, ErrorKind::TimedOut] {
        let broken = Connection {
            ended: Err(ServeFault::Read),
            ..read_in_two(two, at, Some(fault), at / 144)
        };
        play(rt, &[broken]);
    }
    for fault in [None, Some(ErrorKind::Interrupted)] {
        play(rt, &[read_in_two(two, at, fault, 2)]);
    }
}

#[test]
fn a_reader_that_fails_at_each_byte(rt: HostRuntime) {
    for two in &BOTH {
        assert!(rt; two.input.len() == 288);
        for at in 0..=288usize {
            is_read_at(&rt, two, at);
        }
    }
}

// The writer takes so many bytes of the answers, and then fails, or takes none. What was not answered wholly is
// submitted, and what is after it isn't.
fn written_in_part(
    rt: &(impl Abort + Alloc<A = Global>),
    two: &Two,
    most: usize,
    write_fault: Option<ErrorKind>,
) {
    let none: &[u8] = b"";
    let [_, one_posted, both_posted] = two.balances;
    let [first, second] = two.answers;
    let (answers, balances) = match most.checked_sub(first.len()) {
        None => ([first.get(..most).unwrap_or(first), none], one_posted),
        // Where the flush after the first answer fails, it isn't answered wholly.
        Some(0) if write_fault.is_some() => ([first, none], one_posted),
        Some(more) => ([first, second.get(..more).unwrap_or(second)], both_posted),
    };
    let connection = Connection {
        most,
        write_fault,
        ended: Err(ServeFault::Write),
        ..Connection::new(two.input, 0, answers, balances)
    };
    play(rt, &[connection]);
}

#[test]
fn a_writer_that_fails_at_each_byte(rt: HostRuntime) {
    for two in &BOTH {
        let [first, second] = two.answers;
        for most in 0..first.len().saturating_add(second.len()) {
            written_in_part(&rt, two, most, None);
            written_in_part(&rt, two, most, Some(ErrorKind::BrokenPipe));
        }
    }
}

// A bank that has memory for one call answers so to the second, which this message makes, and is posted to no more.
fn refused_at(rt: &(impl Abort + Alloc<A = Global>), second: &[u8]) {
    let first = &FIRST_TWICE[..144];
    let input = joined(rt, &[first, second, first]);
    let connection = Connection {
        calls: 1,
        ended: Err(ServeFault::Bank(Fault::Memory)),
        ..Connection::new(&input, 0, [FIRST_ANSWER, UNAVAILABLE], (500, 0))
    };
    play(rt, &[connection]);
}

#[test]
fn a_bank_that_fails(rt: HostRuntime) {
    refused_at(&rt, &FIRST_AND_REMOTE[144..]);
    refused_at(&rt, b"GET /account/1 HTTP/1.1\r\n\r\n");
    refused_at(&rt, b"GET /branches HTTP/1.1\r\n\r\n");
}
