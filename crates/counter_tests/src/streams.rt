//! Streams over ends and a bank that fail, at every byte.
use failing_ends::{CutReader, CutWriter, Failing, FailingBank, balances, open_both};
use message_records::{Moment, REPLY_BYTES, REQUEST_BYTES};
use posting_core::{
    Clock, Count, Counter, Fault, PlainBank, StoredClock, StreamFault, post_stream,
};
use std::alloc::{Alloc, Global};
use std::io::{ErrorKind, Read, Write};
use std::process::Abort;

const FIRST: &[u8; 51] = b"DC01000000000001000000010000010000000001+0000000500";

const REMOTE: &[u8; 51] = b"DC01000000100001000000010000010000000002-0000000700";

// All but the last digit of a third request.
const CUT: &[u8; 50] = b"DC01000000000002000000020000010000000001+000000030";

pub const FIRST_REPLY: &[u8; 72] =
    b"DR0100000000000001000000010000010000000001+0000000500+000000000500POSTED";

const REMOTE_REPLY: &[u8; 72] =
    b"DR0100000000100001000000010000010000000002-0000000700-000000000700POSTED";

pub fn first_record() -> [u8; REQUEST_BYTES] {
    let mut record = [b' '; 100];
    record[..51].copy_from_slice(FIRST);
    record
}

fn first_reply() -> [u8; REPLY_BYTES] {
    let mut reply = [b' '; 200];
    reply[..72].copy_from_slice(FIRST_REPLY);
    reply
}

// Two records and the first 50 bytes of a third.
fn truncated_input() -> [u8; 250] {
    let mut input = [b' '; 250];
    input[..51].copy_from_slice(FIRST);
    input[100..151].copy_from_slice(REMOTE);
    input[200..].copy_from_slice(CUT);
    input
}

// The replies to the two.
fn two_replies() -> [u8; 400] {
    let mut replies = [b' '; 400];
    replies[..72].copy_from_slice(FIRST_REPLY);
    replies[200..272].copy_from_slice(REMOTE_REPLY);
    replies
}

// How a stream ends, and the balances then of the accounts that the two records name.
type Ended = (Result<Count, StreamFault>, (i64, i64));

fn play<R: Read, W: Write, C: Counter>(
    rt: &(impl Abort + Alloc<A = Global>),
    reader: &mut R,
    writer: &mut W,
    bank: &mut C,
    (end, left): Ended,
) {
    assert!(rt; open_both(bank).is_ok());
    let mut clock = StoredClock::new(Vec::new(rt.alloc()));
    assert!(rt; post_stream(reader, writer, &mut clock, bank) == end);
    assert!(rt; balances(bank) == Some(left));
}

// A stream on a new bank ends so.
pub fn ends<R: Read, W: Write>(
    rt: &(impl Abort + Alloc<A = Global>),
    reader: &mut R,
    writer: &mut W,
    wanted: Ended,
) {
    play(rt, reader, writer, &mut PlainBank::new(rt.alloc()), wanted);
}

// The stream ends so where the writer has room for these replies alone, and these are what it takes.
fn answers<R: Read>(
    rt: &(impl Abort + Alloc<A = Global>),
    reader: &mut R,
    fault: Option<ErrorKind>,
    wanted: Ended,
    replies: &[u8],
) {
    let mut writer = CutWriter::new(rt.alloc(), replies.len(), fault);
    ends(rt, reader, &mut writer, wanted);
    assert!(rt; writer.taken.as_slice() == replies);
}

// The same record 130 times: two full buffers and a part of one.
#[test]
fn a_long_stream(rt: HostRuntime) {
    let input = [first_record(); 130];
    let replies = [first_reply(); 130];
    let mut reader = input.as_flattened();
    let wanted = (Ok(130), (500, 0));
    answers(&rt, &mut reader, None, wanted, replies.as_flattened());
}

// How a stream of two records and a part ends whose reader fails after so many bytes, and how many records
// are answered. A read that was interrupted is made again.
fn ended_at(at: usize, fault: ErrorKind) -> (StreamFault, usize) {
    match fault {
        ErrorKind::Interrupted => (StreamFault::Truncated(50), 2),
        _ => (StreamFault::Read, at / 100),
    }
}

// The balances after so many of the two records, and their replies.
fn balances_after(count: usize, replies: &[u8; 400]) -> ((i64, i64), &[u8]) {
    match count {
        0 => ((0, 0), b""),
        1 => ((500, 0), &replies[..200]),
        _ => ((500, -700), replies),
    }
}

// The reader fails between these bytes.
fn read_in_two(
    rt: &(impl Abort + Alloc<A = Global>),
    (before, after): (&[u8], &[u8]),
    fault: ErrorKind,
    replies: &[u8; 400],
) {
    let (fault, (end, count)) = (Some(fault), ended_at(before.len(), fault));
    let mut reader = CutReader {
        before,
        fault,
        after,
    };
    let (balances, replies) = balances_after(count, replies);
    answers(rt, &mut reader, None, (Err(end), balances), replies);
}

#[test]
fn a_reader_that_fails_at_each_byte(rt: HostRuntime) {
    let input = truncated_input();
    let replies = two_replies();
    for at in 0..=input.len() {
        let parts = input.split_at(at);
        read_in_two(&rt, parts, ErrorKind::BrokenPipe, &replies);
        read_in_two(&rt, parts, ErrorKind::Interrupted, &replies);
    }
}

// The writer takes so many bytes of the replies, and then fails, or takes none.
#[test]
fn a_writer_that_fails_at_each_byte(rt: HostRuntime) {
    let input = truncated_input();
    let replies = two_replies();
    for most in 0..=replies.len() {
        for fault in [None, Some(ErrorKind::BrokenPipe)] {
            // After the last byte only the flush can fail.
            let end = match fault {
                None if most == replies.len() => StreamFault::Truncated(50),
                _ => StreamFault::Write,
            };
            let wanted = (Err(end), (500, -700));
            answers(&rt, &mut input.as_slice(), fault, wanted, &replies[..most]);
        }
    }
}

// Of three streams of the first record the second meets a store that fails.
#[test]
fn a_store_that_fails(rt: HostRuntime) {
    let bank = FailingBank::new(rt.alloc(), 1, Failing::Store);
    let mut bank = bank.expect(&rt, "a bank");
    let mut clock = StoredClock::new(Vec::new(rt.alloc()));
    let mut output: Vec<u8> = Vec::new(rt.alloc());
    let record = first_record();
    for wanted in [
        Ok(1),
        Err(StreamFault::Bank(Fault::Store)),
        Err(StreamFault::Bank(Fault::Down)),
    ] {
        let end = post_stream(&mut record.as_slice(), &mut output, &mut clock, &mut bank);
        assert!(rt; end == wanted);
    }
    assert!(rt; output.as_slice() == first_reply().as_slice());
}

#[test]
fn a_stored_clock(rt: HostRuntime) {
    let moments = vec![in rt.alloc(); Moment::new(1000).unwrap(), Moment::new(2000).unwrap()];
    let mut clock = StoredClock::new(moments.expect(&rt, "memory"));
    for moment in [1000, 2000, 0, 0] {
        assert!(rt; clock.now().get() == moment);
    }
}
