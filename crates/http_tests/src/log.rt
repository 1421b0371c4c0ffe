//! The log and the plan over HTTP.
use crate::texts::{NOT_ALLOWED, NOT_FOUND, get};
use counter_http::serve_connection;
use failing_ends::open_both;
use message_records::{Branch, Cents, Moment};
use posting_core::{Followed, PlainBank, StoredClock};
use std::alloc::{Alloc, Global};
use std::process::Abort;

// Three messages with a record each: one of account 1, one of an account of another branch with a reference, and one of
// an account that isn't open.
const THREE: &[u8] = b"POST /post HTTP/1.1\r\nContent-Length: 100\r\n\r\n\
    DC01000000000001000000010000010000000001+0000000500                                                 \
    POST /post HTTP/1.1\r\nContent-Length: 100\r\n\r\n\
    DC02000000100001000000010000010000000002-0000000700RENT MAY                                         \
    POST /post HTTP/1.1\r\nContent-Length: 100\r\n\r\n\
    DC01000000000004000000020000010000000001+0000000100                                                 ";

// Their entries, where the first two are posted 5 and 1,700,000,000 seconds after 1970-01-01T00:00:00Z.
const ENTRIES: [&[u8]; 3] = [
    b"DC01000000000001000000010000010000000001+0000000500                                                 \
        DR0100000000000001000000010000010000000001+0000000500+000000000500POSTED                                                                                                                                \
        \0\0\0\0\0\0\0\x05",
    b"DC02000000100001000000010000010000000002-0000000700RENT MAY                                         \
        DR0100000000100001000000010000010000000002-0000000700-000000000700POSTED                                                                                                                                \
        \0\0\0\0eS\xf1\0",
    b"DC01000000000004000000020000010000000001+0000000100                                                 \
        DR0113000000000004000000020000010000000001+0000000100+000000000000NO ACCOUNT                                                                                                                            \
        \0\0\0\0\0\0\0\0",
];

// Opens both branches and a third that has a floor, and posts the three records.
fn keep_three<C: Followed>(rt: &(impl Abort + Alloc<A = Global>), bank: &mut C) {
    let (branch, floor) = (Branch::new(30).unwrap(), Cents::new(-2500));
    assert!(rt; open_both(bank).is_ok() && bank.open_branch(branch, 100_000, floor).is_ok());
    let moments = vec![in rt.alloc();
        Moment::new(5).unwrap(),
        Moment::new(1_700_000_000).unwrap(),
        Moment::new(9).unwrap(),
    ];
    let mut clock = StoredClock::new(moments.expect(rt, "memory"));
    let mut answers = Vec::new(rt.alloc());
    let mut input = THREE;
    let served = serve_connection(rt.alloc(), &mut input, &mut answers, &mut clock, bank);
    assert!(rt; served == Ok(3));
}

// The message is answered with a head and the texts after it.
fn ask<C: Followed>(
    rt: &(impl Abort + Alloc<A = Global>),
    bank: &mut C,
    mut message: &[u8],
    head: &[u8],
    texts: &[&[u8]],
) {
    let mut answers = Vec::new(rt.alloc());
    let mut clock = StoredClock::new(Vec::new(rt.alloc()));
    let served = serve_connection(rt.alloc(), &mut message, &mut answers, &mut clock, bank);
    assert!(rt; served == Ok(1));
    let mut rest = answers.strip_prefix(head);
    for text in texts {
        rest = rest.and_then(|left| left.strip_prefix(*text));
    }
    let nothing: &[u8] = b"";
    assert!(rt; rest == Some(nothing));
}

// A message, and the head of its answer: all entries from a place on come after it.
const ENTRIES_FROM: &[(&[u8], &[u8], usize)] = &[
    (
        b"GET /log/0 HTTP/1.1\r\n\r\n",
        b"HTTP/1.1 200 OK\r\nContent-Type: application/octet-stream\r\nContent-Length: 924\r\n\r\n",
        0,
    ),
    (
        b"GET /log/1?x HTTP/1.1\r\n\r\n",
        b"HTTP/1.1 200 OK\r\nContent-Type: application/octet-stream\r\nContent-Length: 616\r\n\r\n",
        1,
    ),
    (
        b"GET /log/2 HTTP/1.0\r\n\r\n",
        b"HTTP/1.1 200 OK\r\nContent-Type: application/octet-stream\r\nContent-Length: 308\r\n\
              Connection: close\r\n\r\n",
        2,
    ),
    (
        b"GET /log/3 HTTP/1.1\r\n\r\n",
        b"HTTP/1.1 200 OK\r\nContent-Type: application/octet-stream\r\nContent-Length: 0\r\n\r\n",
        3,
    ),
    (
        b"HEAD /log/0 HTTP/1.1\r\n\r\n",
        b"HTTP/1.1 200 OK\r\nContent-Type: application/octet-stream\r\nContent-Length: 924\r\n\r\n",
        3,
    ),
];

// What there is none of.
const NOT_THERE: [&[u8]; 13] = [
    b"/log/4",
    b"/log/00",
    b"/log/01",
    b"/log/1x",
    b"/log/-1",
    b"/log/9999999999999",
    b"/log/10000000000000",
    b"/log/18446744073709551617",
    b"/log/",
    b"/log",
    b"/log/1/2",
    b"/plan/",
    b"/plot",
];

// A message, its answer but for the last text, and that text.
const OTHERS: &[(&[u8], &[u8], &[u8])] = &[
    (b"POST /log/0 HTTP/1.1\r\n\r\n", NOT_ALLOWED, b""),
    (b"POST /plan HTTP/1.1\r\n\r\n", NOT_ALLOWED, b""),
    (
        b"GET /plan HTTP/1.1\r\n\r\n",
        b"HTTP/1.1 200 OK\r\nContent-Type: text/csv\r\nContent-Length: 48\r\n\r\n",
        b"branch,accounts,floor\n1,3,\n2,2,\n30,100000,-2500\n",
    ),
    (
        b"HEAD /plan HTTP/1.1\r\n\r\n",
        b"HTTP/1.1 200 OK\r\nContent-Type: text/csv\r\nContent-Length: 48\r\n\r\n",
        b"",
    ),
];

fn ask_of_entries<C: Followed>(rt: &(impl Abort + Alloc<A = Global>), bank: &mut C) {
    for &(message, head, from) in ENTRIES_FROM {
        ask(rt, bank, message, head, &ENTRIES[from..]);
    }
}

fn ask_of_none<C: Followed>(rt: &(impl Abort + Alloc<A = Global>), bank: &mut C) {
    for path in &NOT_THERE {
        ask(rt, bank, &get(rt, path), NOT_FOUND, &[]);
    }
}

fn ask_of_others<C: Followed>(rt: &(impl Abort + Alloc<A = Global>), bank: &mut C) {
    for &(message, head, text) in OTHERS {
        ask(rt, bank, message, head, &[text]);
    }
}

fn ask_of_three<C: Followed>(rt: &(impl Abort + Alloc<A = Global>), bank: &mut C) {
    keep_three(rt, bank);
    ask_of_entries(rt, bank);
    ask_of_none(rt, bank);
    ask_of_others(rt, bank);
}

// The entry of a record of one cent to account 1 under a number, where it is the first of its teller.
fn entry_of(rt: &(impl Abort + Alloc<A = Global>), number: u64) -> String {
    let entry = format!(in rt.alloc();
        "DC0100000000000100000001000001{number:010}+0000000001{:49}\
        DR0100000000000001000000010000010000{number:06}+0000000001+{number:012}POSTED{:128}\0\0\0\0\0\0\0\0",
        "", ""
    );
    entry.expect(rt, "memory")
}

// The heads of answers with 192 entries and with 2.
const MANY: &[u8] =
    b"HTTP/1.1 200 OK\r\nContent-Type: application/octet-stream\r\nContent-Length: 59136\r\n\r\n";

const FEW: &[u8] =
    b"HTTP/1.1 200 OK\r\nContent-Type: application/octet-stream\r\nContent-Length: 616\r\n\r\n";

// Of 194 kept requests an answer has 192.
fn ask_of_many<C: Followed>(rt: &(impl Abort + Alloc<A = Global>), bank: &mut C) {
    assert!(rt; open_both(bank).is_ok());
    let mut due = Vec::new(rt.alloc());
    for number in 1..=194 {
        let entry = entry_of(rt, number);
        let record = entry.as_bytes().first_chunk::<100>().expect(rt, "a record");
        assert!(rt; bank.submit(Moment::new(0).unwrap(), record).is_ok());
        due.extend_from_slice(entry.as_bytes()).expect(rt, "memory");
    }
    let (many, few) = due.split_at(due.len().min(59_136));
    ask(rt, bank, b"GET /log/0 HTTP/1.1\r\n\r\n", MANY, &[many]);
    ask(rt, bank, b"GET /log/192 HTTP/1.1\r\n\r\n", FEW, &[few]);
}

#[test]
fn entries_after_a_place_and_the_plan(rt: HostRuntime) {
    ask_of_three(&rt, &mut PlainBank::new(rt.alloc()));
    ask_of_many(&rt, &mut PlainBank::new(rt.alloc()));
}
