//! Connections that are served, and what comes of them.
use counter_http::{ServeFault, Served, serve_connection};
use failing_ends::{CutReader, CutWriter, Failing, FailingBank, balances};
use posting_core::{Followed, StoredClock};
use std::alloc::{Alloc, Global};
use std::io::ErrorKind;
use std::process::Abort;

/// What is read and how its ends fail, and what comes of it.
#[derive(Clone, Copy)]
pub struct Connection<'a> {
    /// What is read before the reader fails once, if it does.
    pub before: &'a [u8],
    pub read_fault: Option<ErrorKind>,
    /// What is read then.
    pub after: &'a [u8],
    /// The writer takes so many bytes, and then fails, or takes none.
    pub most: usize,
    pub write_fault: Option<ErrorKind>,
    /// The bank has memory for so many calls.
    pub calls: u64,
    pub ended: Result<Served, ServeFault>,
    /// What is written: one answer after another.
    pub answers: [&'a [u8]; 2],
    /// Of account 1 and of account 100001.
    pub balances: (i64, i64),
}

impl<'a> Connection<'a> {
    /// One that ends well.
    pub fn new(
        input: &'a [u8],
        count: Served,
        answers: [&'a [u8]; 2],
        balances: (i64, i64),
    ) -> Connection<'a> {
        Connection {
            before: input,
            read_fault: None,
            after: b"",
            most: 1000,
            write_fault: None,
            calls: u64::MAX,
            ended: Ok(count),
            answers,
            balances,
        }
    }
}

/// Serves connections, one after another, on a new bank.
pub fn play(rt: &(impl Abort + Alloc<A = Global>), connections: &[Connection]) {
    let mut bank = FailingBank::new(rt.alloc(), 0, Failing::Memory).expect(rt, "a bank");
    play_on(rt, connections, &mut bank);
}

/// The input has one answer, and nothing is posted.
pub fn is_answered<'a>(rt: &(impl Abort + Alloc<A = Global>), input: &'a [u8], answer: &'a [u8]) {
    play(rt, &[Connection::new(input, 1, [answer, b""], (0, 0))]);
}

fn play_on(
    rt: &(impl Abort + Alloc<A = Global>),
    connections: &[Connection],
    bank: &mut FailingBank,
) {
    for connection in connections {
        bank.left = connection.calls;
        serve(rt, connection, bank);
        assert!(rt; balances(&mut bank.bank) == Some(connection.balances));
    }
}

// Serves one of them, by a clock at the moment 0.
fn serve<C: Followed>(
    rt: &(impl Abort + Alloc<A = Global>),
    connection: &Connection,
    bank: &mut C,
) {
    let mut reader = CutReader {
        before: connection.before,
        fault: connection.read_fault,
        after: connection.after,
    };
    let mut writer = CutWriter::new(rt.alloc(), connection.most, connection.write_fault);
    let mut clock = StoredClock::new(Vec::new(rt.alloc()));
    let ended = serve_connection(rt.alloc(), &mut reader, &mut writer, &mut clock, bank);
    assert!(rt; ended == connection.ended);
    compare(rt, connection, &writer);
}

// The writer took the answers, and each in one write where the connection ended well.
fn compare(rt: &impl Abort, connection: &Connection, writer: &CutWriter) {
    let [first, second] = connection.answers;
    assert!(rt; writer.taken.strip_prefix(first) == Some(second));
    if let Ok(count) = connection.ended {
        assert!(rt; u128::from(writer.writes) == count);
    }
}
