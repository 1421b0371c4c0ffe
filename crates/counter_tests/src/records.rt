//! The formats of records by worked examples and fault by fault, and the ends of the ranges.
use message_records::{
    Account, Bad, BadReply, Branch, Cents, Moment, Number, Outcome, Reference, Reply, Request,
    Teller, decode_reply, decode_request, encode_reply, encode_request, one_spelling,
};
use std::process::Abort;

const DEPOSIT: &[u8] = b"DC01000000000001000000010000010000000001+0000000500";

const RENT: &[u8] = b"DC02000000000001000000010000010000000001+0000000500RENT MAY 2026 FLAT 7";

const POSTED: &[u8] = b"DR0100000000000001000000010000010000000001+0000000500+000000000500POSTED";

const MALFORMED: &[u8] =
    b"DR0190000000000000000000000000000000000000+0000000000+000000000000MALFORMED";

// What a record begins with, what stands at a place of it instead, and its fault; of several faults the first is told.
const FAULTY_REQUESTS: &[(&[u8], usize, &[u8], Bad)] = &[
    (DEPOSIT, 3, b"3", Bad::Tag),
    (DEPOSIT, 15, b"0", Bad::Account),
    (DEPOSIT, 19, b"A", Bad::Teller),
    (DEPOSIT, 29, b"0", Bad::Branch),
    (DEPOSIT, 35, b" ", Bad::Number),
    (DEPOSIT, 40, b"-0000000000", Bad::Delta),
    (DEPOSIT, 99, b"X", Bad::Filler),
    (RENT, 99, b"X", Bad::Filler),
    (
        RENT,
        51,
        b"\x7fENT MAY                                        X",
        Bad::Reference,
    ),
    (
        RENT,
        50,
        b" \x7fENT MAY                                        X",
        Bad::Delta,
    ),
];

const FAULTY_REPLIES: &[(&[u8], usize, &[u8], BadReply)] = &[
    (POSTED, 3, b"2", BadReply::Tag),
    (POSTED, 4, b"20", BadReply::Outcome),
    (POSTED, 17, b"0", BadReply::Account),
    (MALFORMED, 25, b"1", BadReply::Teller),
    (POSTED, 29, b"A", BadReply::Branch),
    (POSTED, 41, b"0", BadReply::Number),
    (MALFORMED, 42, b"-", BadReply::Delta),
    (POSTED, 4, b"15", BadReply::Balance),
    (MALFORMED, 66, b"NO TELLER", BadReply::Name),
    (POSTED, 82, b"a", BadReply::Filler),
];

fn put(rt: &impl Abort, record: &mut [u8], at: usize, bytes: &[u8]) {
    assert!(rt; at <= record.len() && bytes.len() <= record.len() - at);
    record[at..at + bytes.len()].copy_from_slice(bytes);
}

// A record that begins so, and goes on with spaces, but has these bytes at a place.
fn record_of<const SIZE: usize>(
    rt: &impl Abort,
    front: &[u8],
    at: usize,
    bytes: &[u8],
) -> [u8; SIZE] {
    let mut record = [b' '; SIZE];
    put(rt, &mut record, 0, front);
    put(rt, &mut record, at, bytes);
    record
}

// A request to account 1, by teller 1 of branch 1, under the number 1.
fn request_of(cents: i64, reference: Option<Reference>) -> Option<Request> {
    let account = Account::new(1).unwrap();
    let teller = Teller::new(1).unwrap();
    let branch = Branch::new(1).unwrap();
    let number = Number::new(1).unwrap();
    let delta = Cents::new(cents)?;
    Request::new(account, teller, branch, number, delta, reference)
}

fn is_reply(rt: &impl Abort, front: &[u8], reply: Option<Reply>) {
    let reply = reply.expect(rt, "a reply");
    let bytes = record_of(rt, front, 0, b"");
    assert!(rt; decode_reply(&bytes) == Ok(reply));
    assert!(rt; encode_reply(&reply) == bytes);
}

// The record that begins so and the request are read and written as one another. A reply shows the request without its
// reference.
fn is_deposit(rt: &impl Abort, front: &[u8], reference: Option<Reference>) {
    let request = request_of(500, reference).expect(rt, "a request");
    let bytes = record_of(rt, front, 0, b"");
    assert!(rt; decode_request(&bytes) == Ok(request));
    assert!(rt; encode_request(&request) == bytes);
    let posted = Reply::new(Outcome::Posted, Some(request), Cents::new(500));
    is_reply(rt, POSTED, posted);
}

#[test]
fn requests_and_replies(rt: HostRuntime) {
    one_spelling();
    is_deposit(&rt, DEPOSIT, None);
    is_deposit(&rt, RENT, Reference::new(b"RENT MAY 2026 FLAT 7"));
    is_reply(&rt, MALFORMED, Reply::new(Outcome::Malformed, None, None));
}

#[test]
fn faulty_requests(rt: HostRuntime) {
    for &(front, at, bytes, fault) in FAULTY_REQUESTS {
        let answer = decode_request(&record_of(&rt, front, at, bytes));
        assert!(rt; answer.err() == Some(fault));
    }
}

#[test]
fn faulty_replies(rt: HostRuntime) {
    for &(front, at, bytes, fault) in FAULTY_REPLIES {
        let answer = decode_reply(&record_of(&rt, front, at, bytes));
        assert!(rt; answer.err() == Some(fault));
    }
}

// Spaces alone are a reference; a byte less, a byte more or one that isn't printable are none.
const REFERENCES: [(&[u8], bool); 6] = [
    (b"                    ", true),
    (b"                   ", false),
    (b"                     ", false),
    (b"~~~~~~~~~~~~~~~~~~~~", true),
    (b"~~~~~~~~~~~~~~~~~~~\x1f", false),
    (b"\x7f~~~~~~~~~~~~~~~~~~~", false),
];

#[test]
fn ends_of_references(rt: HostRuntime) {
    for (text, want) in &REFERENCES {
        assert!(rt; Reference::new(text).is_some() == *want);
    }
}

// A number, whether it is an amount, and whether a request may add it.
const AMOUNTS: [(i64, bool, bool); 8] = [
    (-1_000_000_000_000, false, false),
    (-999_999_999_999, true, false),
    (-10_000_000_000, true, false),
    (-9_999_999_999, true, true),
    (9_999_999_999, true, true),
    (10_000_000_000, true, false),
    (999_999_999_999, true, false),
    (1_000_000_000_000, false, false),
];

#[test]
fn ends_of_amounts_and_moments(rt: HostRuntime) {
    for (cents, is_amount, is_added) in &AMOUNTS {
        assert!(rt; Cents::new(*cents).is_some() == *is_amount);
        assert!(rt; request_of(*cents, None).is_some() == *is_added);
    }
    assert!(rt; Moment::new(0).is_some() && Moment::new(253_402_300_799).is_some());
    assert!(rt; Moment::new(253_402_300_800).is_none());
}

// Parts of which some are missing or too many: the outcome, and whether there are a request and a balance.
const LOOSE_PARTS: [(Outcome, bool, bool); 6] = [
    (Outcome::Posted, true, false),
    (Outcome::Posted, false, true),
    (Outcome::NoTeller, false, false),
    (Outcome::NoTeller, true, true),
    (Outcome::Malformed, true, false),
    (Outcome::Malformed, false, true),
];

#[test]
fn parts_that_do_not_belong_together(rt: HostRuntime) {
    for (outcome, with_request, with_balance) in &LOOSE_PARTS {
        let request = if *with_request {
            request_of(500, None)
        } else {
            None
        };
        let balance = if *with_balance { Cents::new(500) } else { None };
        assert!(rt; Reply::new(*outcome, request, balance).is_none());
    }
}

#[test]
fn printed(rt: HostRuntime) {
    let account = Account::new(100_001).unwrap();
    let cents = Cents::new(-700).unwrap();
    let outcome = Outcome::ReusedNumber;
    let (bad, bad_reply) = (Bad::Delta, BadReply::Balance);
    let text = format!(in rt.alloc(); "{account} {cents} {outcome}, {bad}, {bad_reply}");
    let want = "100001 -700 REUSED NUMBER, faulty delta, faulty balance";
    assert!(rt; text.expect(&rt, "memory").as_str() == want);
}
