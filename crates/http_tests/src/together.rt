//! Clients who are served at once: each gets the answers to what it sent, however the bytes of all interleave, and
//! what it may have where the bank fails.
use crate::crowd::{Closed, Played, Teller, serve};
use crate::texts::{
    BAD, BALANCE, BALANCE_ANSWER, CLOSES, FIGURES_ANSWER, FIRST_AND_REMOTE, FIRST_ANSWER,
    FIRST_TWICE, HEALTH_ANSWER, IS_REFUSED, LAST_HEALTH_ANSWER, NO_ACCOUNT_ANSWER, OTHER_ANSWER,
    OTHER_LAST_ANSWER, OTHER_TWO, POSTS_AND_WATCHES, READS_BETWEEN, REMOTE_ANSWER, UNAVAILABLE,
};
use counter_http::ListenFault;
use failing_ends::{Failing, FailingBank, balances};
use posting_core::{Fault, RECORDS_PER_BATCH};
use std::alloc::{Alloc, Global};
use std::io::ErrorKind;
use std::process::Abort;

// A bank and how it fails, how the serving ends then, and what each client has: so many of its answers, all where none is
// said, and then a 503 or nothing.
#[derive(Clone, Copy)]
struct Serving<'a> {
    // It takes so many calls.
    calls: u64,
    // It has memory for batches of so many records.
    most: usize,
    failing: Failing,
    fault: Option<Fault>,
    answered: &'a [usize],
    refused: &'a [bool],
    // Of account 1 and of account 100001.
    balances: (i64, i64),
}

// The bank doesn't fail, and each client has all its answers.
const WELL: Serving<'static> = Serving {
    calls: 1_000,
    most: RECORDS_PER_BATCH,
    failing: Failing::Memory,
    fault: None,
    answered: &[],
    refused: &[],
    balances: (500, -700),
};

fn new_bank(rt: &(impl Abort + Alloc<A = Global>), serving: &Serving) -> FailingBank {
    let bank = FailingBank::new(rt.alloc(), serving.calls, serving.failing);
    let mut bank = bank.expect(rt, "a bank");
    bank.most = serving.most;
    bank
}

// The bytes are so many of the answers, and then a 503 or nothing.
fn is_answered(rt: &impl Abort, taken: &[u8], answers: &[&[u8]], count: usize, is_refused: bool) {
    let mut rest = taken;
    for answer in answers.iter().take(count) {
        rest = rest.strip_prefix(*answer).expect(rt, "an answer");
    }
    let last: &[u8] = if is_refused { UNAVAILABLE } else { b"" };
    assert!(rt; rest == last);
}

fn are_answered(rt: &impl Abort, tellers: &[Teller], serving: &Serving, closed: &[Closed]) {
    assert!(rt; closed.len() == tellers.len());
    for Closed { number, taken } in closed {
        let place = *number as usize;
        let teller = tellers.get(place).expect(rt, "a client");
        let count = serving.answered.get(place).copied().unwrap_or(3);
        let is_refused = serving.refused.get(place).copied().unwrap_or(false);
        is_answered(rt, taken, &teller.answers, count, is_refused);
    }
}

// Serves clients on a new bank, and gives how many calls it took.
fn play(rt: &(impl Abort + Alloc<A = Global>), tellers: &[Teller], serving: &Serving) -> u64 {
    let mut bank = new_bank(rt, serving);
    let Played {
        closed,
        ended,
        waits_for_all,
    } = serve(rt.alloc(), tellers, &mut bank);
    assert!(rt; ended.err() == serving.fault.map(ListenFault::Bank));
    assert!(rt; waits_for_all);
    are_answered(rt, tellers, serving, &closed);
    assert!(rt; balances(&mut bank.bank) == Some(serving.balances));
    serving.calls.saturating_sub(bank.left)
}

// A client that asks once its own record was answered on another connection sees it; and twelve clients are served.
#[test]
fn who_asks_later_sees_what_was_posted(rt: HostRuntime) {
    let serving = Serving {
        balances: (500, 0),
        ..WELL
    };
    let first = Teller::new(&FIRST_TWICE[..144], [FIRST_ANSWER, b"", b""]);
    let later = Teller {
        comes: 3,
        ..Teller::new(BALANCE, [BALANCE_ANSWER, b"", b""])
    };
    play(&rt, &[first, later], &serving);
    play(&rt, &[first; 12], &serving);
}

// Nobody waits for one that is slow.
#[test]
fn who_is_slow_holds_up_no_other(rt: HostRuntime) {
    let quick = Teller::new(&FIRST_TWICE[..144], [FIRST_ANSWER, b"", b""]);
    let slow = Teller { piece: 7, ..quick };
    let mut bank = new_bank(&rt, &WELL);
    let tellers = [slow, quick, quick];
    let played = serve(rt.alloc(), &tellers, &mut bank);
    let last = played.closed.as_slice().last().expect(&rt, "a client");
    assert!(rt; played.ended.is_ok() && last.number == 0);
}

// Two clients, of whom each sends two records, in two pieces: the one at each cut, the other before a whole message,
// behind one or two, within each, and as much behind as the one has before. It sends records of its own, or the same.
#[test]
fn two_clients_at_every_cut(rt: HostRuntime) {
    let first = Teller::new(FIRST_AND_REMOTE, [FIRST_ANSWER, REMOTE_ANSWER, b""]);
    let other = Teller::new(OTHER_TWO, [OTHER_ANSWER, OTHER_LAST_ANSWER, b""]);
    for second in [first, other] {
        assert!(rt; first.before.len() == 288 && second.before.len() == 288);
        for at in 0..=288usize {
            for then in [0, 72, 144, 216, 288, 288 - at] {
                play(&rt, &[first.cut(at), second.cut(then)], &WELL);
            }
        }
    }
}

// The records that wait together are one call, of up to 64 records.
#[test]
fn records_that_wait_are_one_call(rt: HostRuntime) {
    let serving = Serving {
        balances: (500, 0),
        ..WELL
    };
    let teller = Teller::new(&FIRST_TWICE[..144], [FIRST_ANSWER, b"", b""]);
    assert!(rt; play(&rt, &[teller; 2], &serving) == 1);
    assert!(rt; play(&rt, &[teller; 64], &serving) == 1);
    assert!(rt; play(&rt, &[teller; 65], &serving) == 2);
}

// The figures count what was replied before, and who is connected.
#[test]
fn figures_of_what_was_replied(rt: HostRuntime) {
    let refused = [NO_ACCOUNT_ANSWER, HEALTH_ANSWER, OTHER_ANSWER];
    let tellers = [
        Teller {
            most: 2_000,
            ..Teller::new(POSTS_AND_WATCHES, [FIRST_ANSWER, FIGURES_ANSWER, b""])
        },
        Teller::new(IS_REFUSED, refused),
    ];
    let serving = Serving {
        balances: (500, 0),
        ..WELL
    };
    play(&rt, &tellers, &serving);
}

// A client that reads between its records, one whose record is refused, and one with the first record twice.
fn three_clients<'a>() -> [Teller<'a>; 3] {
    let answers = [FIRST_ANSWER, BALANCE_ANSWER, REMOTE_ANSWER];
    let refused = [NO_ACCOUNT_ANSWER, HEALTH_ANSWER, OTHER_ANSWER];
    [
        Teller::new(READS_BETWEEN, answers),
        Teller::new(FIRST_TWICE, [FIRST_ANSWER, FIRST_ANSWER, b""]),
        Teller::new(IS_REFUSED, refused),
    ]
}

// Clients who end, fail, or are slow, each of whom sends the first record, but for the last two.
fn clients_who_leave<'a>() -> [Teller<'a>; 7] {
    let twice = Teller::new(FIRST_TWICE, [FIRST_ANSWER, b"", b""]);
    [
        Teller::new(CLOSES, [FIRST_ANSWER, LAST_HEALTH_ANSWER, b""]),
        Teller {
            piece: 7,
            ..Teller::new(FIRST_AND_REMOTE, [FIRST_ANSWER, REMOTE_ANSWER, b""])
        },
        Teller {
            read_fault: Some(ErrorKind::BrokenPipe),
            ..twice.cut(200)
        },
        Teller {
            most: 100,
            write_fault: Some(ErrorKind::BrokenPipe),
            answers: [&FIRST_ANSWER[..100], b"", b""],
            ..twice
        },
        Teller {
            most: 10,
            write_fault: Some(ErrorKind::Interrupted),
            patience: 30,
            answers: [&FIRST_ANSWER[..10], b"", b""],
            ..twice
        },
        Teller::new(b"\0", [BAD, b"", b""]),
        Teller::new(b"", [b"", b"", b""]).cut(0),
    ]
}

// All of them at once, in one round. Where there is no memory for their records together, each is submitted alone.
#[test]
fn clients_of_each_kind(rt: HostRuntime) {
    let [one, two, three] = three_clients();
    let [four, five, six, seven, eight, nine, ten] = clients_who_leave();
    let tellers = [one, two, three, four, five, six, seven, eight, nine, ten];
    play(&rt, &tellers, &WELL);
    play(&rt, &tellers, &Serving { most: 1, ..WELL });
}

// How many calls a bank takes before it fails, and for batches of how many records it has memory; how many answers each
// of the three clients has then, and whether it has a 503 after them; and the balances.
type Failure = (u64, usize, [usize; 3], [bool; 3], (i64, i64));

// The first records of the three are the first call, the reading of the first client is the second, and the next
// records of all are the third. A client is answered a 503 where its record or its reading was in the call that the
// bank refused. What was answered before is in the bank, and nothing else.
const STORE: [Failure; 4] = [
    (0, 64, [0, 0, 0], [true, true, true], (0, 0)),
    (1, 64, [1, 1, 1], [true, false, false], (500, 0)),
    (2, 64, [2, 1, 2], [true, true, true], (500, 0)),
    (1, 1, [1, 0, 0], [false, true, false], (500, 0)),
];

// So it is where memory is refused, but that the serving goes on. Where each is submitted alone, the calls are seven.
const MEMORY: [Failure; 7] = [
    (0, 64, [0, 0, 0], [true, true, true], (0, 0)),
    (1, 64, [1, 1, 2], [true, true, true], (500, 0)),
    (2, 64, [2, 1, 2], [true, true, true], (500, 0)),
    (2, 1, [1, 1, 0], [true, true, true], (500, 0)),
    (4, 1, [2, 1, 2], [true, true, true], (500, 0)),
    (5, 1, [3, 1, 2], [false, true, true], (500, -700)),
    (6, 1, [3, 2, 2], [false, false, true], (500, -700)),
];

fn fail(
    rt: &(impl Abort + Alloc<A = Global>),
    failing: Failing,
    fault: Option<Fault>,
    failure: &Failure,
) {
    let (calls, most, answered, refused, balances) = failure;
    let serving = Serving {
        calls: *calls,
        most: *most,
        failing,
        fault,
        answered,
        refused,
        balances: *balances,
    };
    play(rt, &three_clients(), &serving);
}

#[test]
fn a_bank_that_fails_at_each_call(rt: HostRuntime) {
    for failure in &STORE {
        fail(&rt, Failing::Store, Some(Fault::Store), failure);
    }
    for failure in &MEMORY {
        fail(&rt, Failing::Memory, None, failure);
    }
}
