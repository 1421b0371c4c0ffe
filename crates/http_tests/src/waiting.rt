//! A client that waits for its answers before it sends more.
use crate::texts::{FIRST_AND_REMOTE, FIRST_ANSWER, REMOTE_ANSWER};
use counter_http::serve_connection;
use failing_ends::{HeardWriter, WaitingReader, balances, open_both};
use posting_core::{PlainBank, StoredClock};
use std::alloc::{Alloc, Global};
use std::cell::Cell;
use std::process::Abort;

// How many bytes a message has.
const MESSAGE: usize = 144;

fn sends_in_pieces(rt: &(impl Abort + Alloc<A = Global>), bank: &mut PlainBank, piece: usize) {
    let heard = Cell::new(0);
    let mut reader = WaitingReader {
        heard: &heard,
        bytes: FIRST_AND_REMOTE,
        piece,
        sent: 0,
        message: MESSAGE,
        answer: FIRST_ANSWER.len(),
    };
    let mut writer = HeardWriter {
        heard: &heard,
        taken: Vec::new(rt.alloc()),
    };
    let mut clock = StoredClock::new(Vec::new(rt.alloc()));
    let served = serve_connection(rt.alloc(), &mut reader, &mut writer, &mut clock, bank);
    assert!(rt; served == Ok(2));
    assert!(rt; writer.taken.strip_prefix(FIRST_ANSWER) == Some(REMOTE_ANSWER));
}

// It sends pieces of one byte, of a message, and of more. The records that come again have the same answers.
#[test]
fn a_client_that_waits_for_its_answers(rt: HostRuntime) {
    let mut bank = PlainBank::new(rt.alloc());
    assert!(rt; open_both(&mut bank).is_ok());
    for piece in [1, MESSAGE, 200] {
        sends_in_pieces(&rt, &mut bank, piece);
    }
    assert!(rt; balances(&mut bank) == Some((500, -700)));
}
