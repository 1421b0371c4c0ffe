//! Messages and their answers.
use crate::connection::{Connection, play};
use crate::first_message::first_message;
use crate::texts::{
    BAD, FIRST_AND_REMOTE, FIRST_ANSWER, FIRST_TWICE, NOT_ALLOWED, NOT_FOUND, REMOTE_ANSWER, get,
    joined,
};
use failing_ends::{balances, open_both};
use posting_core::{PlainBank, StoredClock};
use std::alloc::{Alloc, Global};
use std::process::Abort;

// The record of the first message on a connection of its own.
#[test]
fn a_record_in_a_message(rt: HostRuntime) {
    let mut bank = PlainBank::new(rt.alloc());
    assert!(rt; open_both(&mut bank).is_ok());
    let mut clock = StoredClock::new(Vec::new(rt.alloc()));
    let mut record = [b' '; 100];
    record.copy_from_slice(&FIRST_TWICE[44..144]);
    let answers = first_message(rt.alloc(), &mut bank, &mut clock, &record);
    assert!(rt; answers.expect(&rt, "an answer").as_slice() == FIRST_ANSWER);
    assert!(rt; balances(&mut bank) == Some((500, 0)));
}

// The input ends after one whole message, or after none, and within the next.
fn ends_at(rt: &(impl Abort + Alloc<A = Global>), input: &[u8]) {
    let (first, count, balance): (&[u8], _, _) = match input.len() / 144 {
        0 => (b"", 0, 0),
        _ => (FIRST_ANSWER, 1, 500),
    };
    let connection = match input.len() % 144 {
        0 => Connection::new(input, count, [first, b""], (balance, 0)),
        _ => Connection::new(input, count + 1, [first, BAD], (balance, 0)),
    };
    play(rt, &[connection]);
}

// The input ends within one of the messages.
#[test]
fn an_input_that_ends_at_each_byte(rt: HostRuntime) {
    for at in 0..FIRST_TWICE.len() {
        ends_at(&rt, &FIRST_TWICE[..at]);
    }
}

// What a bank answers to an input after the first postings.
fn expect<'a>(
    rt: &(impl Abort + Alloc<A = Global>),
    input: &'a [u8],
    count: u128,
    answers: &'a [u8],
) {
    let balances = (500, -700);
    let posted = [FIRST_ANSWER, REMOTE_ANSWER];
    let postings = Connection::new(FIRST_AND_REMOTE, 2, posted, balances);
    let connection = Connection::new(input, count, [answers, b""], balances);
    play(rt, &[postings, connection]);
}

// An input, how many messages it has, and their answers.
const CASES: &[(&[u8], u128, &[u8])] = &[
    (
        b"GET /account/100001 HTTP/1.1\r\n\r\n",
        1,
        b"HTTP/1.1 200 OK\r\nContent-Type: text/plain\r\nContent-Length: 28\r\n\r\n\
              account 100001 balance -700\n",
    ),
    (
        b"HEAD /account/100001 HTTP/1.1\r\n\r\n",
        1,
        b"HTTP/1.1 200 OK\r\nContent-Type: text/plain\r\nContent-Length: 28\r\n\r\n",
    ),
    (
        b"HEAD /account/4 HTTP/1.1\r\n\r\n",
        1,
        b"HTTP/1.1 404 Not Found\r\nContent-Type: text/plain\r\nContent-Length: 14\r\n\r\n",
    ),
    (
        b"GET /teller/1 HTTP/1.1\r\n\r\n",
        1,
        b"HTTP/1.1 200 OK\r\nContent-Type: text/plain\r\nContent-Length: 22\r\n\r\nteller 1 balance -200\n",
    ),
    (
        b"HEAD /teller/20 HTTP/1.1\r\n\r\n",
        1,
        b"HTTP/1.1 200 OK\r\nContent-Type: text/plain\r\nContent-Length: 20\r\n\r\n",
    ),
    (b"PUT /metrics HTTP/1.1\r\n\r\n", 1, NOT_ALLOWED),
    (
        b"GET /post HTTP/1.1\r\n\r\n",
        1,
        b"HTTP/1.1 405 Method Not Allowed\r\nContent-Type: text/plain\r\nContent-Length: 23\r\n\
              Allow: POST\r\n\r\n405 Method Not Allowed\n",
    ),
    (
        b"HEAD /post HTTP/1.1\r\n\r\n",
        1,
        b"HTTP/1.1 405 Method Not Allowed\r\nContent-Type: text/plain\r\nContent-Length: 23\r\n\
              Allow: POST\r\n\r\n",
    ),
    (
        b"GET /branches HTTP/1.1\r\n\r\n",
        1,
        b"HTTP/1.1 200 OK\r\nContent-Type: text/plain\r\nContent-Length: 60\r\n\r\n\
              \x20    1       3           -200\n     2       2              0\n",
    ),
    (
        b"HEAD /branches HTTP/1.1\r\n\r\n",
        1,
        b"HTTP/1.1 200 OK\r\nContent-Type: text/plain\r\nContent-Length: 60\r\n\r\n",
    ),
    (
        b"GET /health HTTP/1.1\r\n\r\n",
        1,
        b"HTTP/1.1 200 OK\r\nContent-Type: text/plain\r\nContent-Length: 3\r\n\r\nok\n",
    ),
    (
        b"A-METHOD-OF-MANY-LETTERS /branches HTTP/1.1\r\n\r\n",
        1,
        NOT_ALLOWED,
    ),
    (
        b"POST /post HTTP/1.1\r\n\r\n",
        1,
        b"HTTP/1.1 400 Bad Request\r\nContent-Type: text/plain\r\nContent-Length: 16\r\n\r\n400 Bad Request\n",
    ),
    (
        b"GET /accounts HTTP/1.0\r\n\r\nGET /post HTTP/1.1\r\n\r\n",
        1,
        b"HTTP/1.1 404 Not Found\r\nContent-Type: text/plain\r\nContent-Length: 14\r\n\
              Connection: close\r\n\r\n404 Not Found\n",
    ),
    (
        b"HEAD /branches?all HTTP/1.1\r\nCONNECTION: keep-alive,\tClose \r\n\r\nGET /post HTTP/1.1\r\n\r\n",
        1,
        b"HTTP/1.1 200 OK\r\nContent-Type: text/plain\r\nContent-Length: 60\r\nConnection: close\r\n\r\n",
    ),
    (
        b"\r\n\r\nHEAD /account/1 HTTP/1.1\r\nContent-Length: 4\r\n\r\nbodyHEAD /account/1 HTTP/1.1\r\n\r\n",
        2,
        b"HTTP/1.1 200 OK\r\nContent-Type: text/plain\r\nContent-Length: 22\r\n\r\n\
              HTTP/1.1 200 OK\r\nContent-Type: text/plain\r\nContent-Length: 22\r\n\r\n",
    ),
];

#[test]
fn answers_to_what_is_read(rt: HostRuntime) {
    for &(input, count, answers) in CASES {
        expect(&rt, input, count, answers);
    }
}

// A connection that is served by itself has no figures.
const NOT_THERE: [&[u8]; 5] = [
    b"/account/4",
    b"/account/01",
    b"/teller/21",
    b"/teller/000000001",
    b"/metrics",
];

#[test]
fn what_there_is_none_of(rt: HostRuntime) {
    for path in &NOT_THERE {
        expect(&rt, &get(&rt, path), 1, NOT_FOUND);
    }
}

// A body of 99 bytes is no record: the message is refused, and the next is answered.
#[test]
fn a_record_that_is_too_short(rt: HostRuntime) {
    let first: &[u8] = b"POST /post HTTP/1.1\r\nContent-Length: 99\r\n\r\n";
    let input = joined(&rt, &[first, &[b'x'; 99], &FIRST_TWICE[..144]]);
    let refused: &[u8] =
        b"HTTP/1.1 400 Bad Request\r\nContent-Type: text/plain\r\nContent-Length: 16\r\n\r\n400 Bad Request\n";
    let answers = [refused, FIRST_ANSWER];
    play(&rt, &[Connection::new(&input, 2, answers, (500, 0))]);
}
