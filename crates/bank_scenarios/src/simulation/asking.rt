//! What a bank is asked for in one go, on any counter, and how far that came.
use super::history::{Given, Part, moment};
use super::messages::Script;
use crate::answers::is_floor;
use branch_loader::{Plan, load};
use counter_http::{ServeFault, serve_connection};
use failing_ends::Pieces;
use load_driver::{DriveFault, MAX_DRIVEN, drive_records};
use message_records::{Account, Branch, Cents, REPLY_BYTES, REQUEST_BYTES};
use posting_core::{
    Counter, Fault, Followed, Opening, RECORDS_PER_BATCH, StoredClock, StreamFault, post_stream,
};
use std::alloc::{AllocError, Global};

/// What a bank is asked for.
#[derive(Clone, Copy)]
pub enum Asked<'a> {
    /// To open a branch with so many accounts, and with a floor in cents if it has one.
    Open(Branch, u32, Option<i64>),
    /// To open branches by a plan.
    Load(&'a [Part]),
    /// Records one by one.
    OneByOne(&'a [Part]),
    /// Records together.
    Together(&'a [Part]),
    /// A stream of records, of which a read gives so many bytes at most.
    Stream(&'a Script, usize),
    /// The messages of a connection.
    Serve(&'a Script, usize),
    /// A drive of a seed, whose records these are.
    Drive(u64, &'a [Part]),
    /// The balance of an account, none if it isn't open.
    Balance(Account, Option<i64>),
}

/// How something ended.
#[derive(Clone, Copy, PartialEq, Eq)]
pub enum End {
    Done,
    /// A call of the store failed.
    Stopped,
    /// Something else came than what has to.
    Differs(&'static str),
}

/// How many parts were answered, and how that ended.
#[derive(Clone, Copy)]
pub struct Came {
    pub parts: usize,
    pub end: End,
}

impl Came {
    /// It came to its end.
    pub fn all(parts: usize) -> Came {
        Came {
            parts,
            end: End::Done,
        }
    }

    /// A call was refused.
    pub fn until(parts: usize, fault: Fault) -> Came {
        Came {
            parts,
            end: end_of(fault),
        }
    }

    fn differs(what: &'static str) -> Came {
        Came {
            parts: 0,
            end: End::Differs(what),
        }
    }
}

/// How a call that a bank refused ended.
pub fn end_of(fault: Fault) -> End {
    match fault {
        Fault::Store => End::Stopped,
        Fault::Memory => End::Differs("a call was refused memory"),
        Fault::Down => End::Differs("a bank is down that had answered"),
        Fault::Damaged(_) => End::Differs("a bank is damaged"),
    }
}

fn opened<C: Counter>(bank: &mut C, branch: Branch, accounts: u32, floor: Option<i64>) -> Came {
    let floor = floor.and_then(Cents::new);
    if branch.get() > 9999 || accounts < 1 || accounts > 100_000 || !is_floor(&floor) {
        return Came::differs("a branch out of range");
    }
    match bank.open_branch(branch, accounts, floor) {
        Ok(Opening::Opened | Opening::Already) => Came::all(1),
        Ok(Opening::Differs) => Came::differs("a branch with other terms"),
        Err(fault) => Came::until(0, fault),
    }
}

// The plan of parts that are branches without floors; none where it is no plan.
fn plan_of(alloc: Global, parts: &[Part]) -> Option<Plan> {
    let mut rows = Vec::new(alloc);
    for part in parts {
        if let Given::Branch(branch, accounts, _) = part.given {
            rows.push((branch, accounts, None)).ok()?;
        }
    }
    Plan::from_list(rows).ok()
}

fn loaded<C: Counter>(alloc: Global, bank: &mut C, parts: &[Part]) -> Came {
    let Some(plan) = plan_of(alloc, parts) else {
        return Came::differs("a plan");
    };
    match load(&plan, bank) {
        Ok(loaded) => {
            let open = loaded.opened.saturating_add(loaded.already) as usize;
            if open == parts.len() && loaded.differs == 0 {
                Came::all(open)
            } else {
                Came::differs("the branches of a plan")
            }
        }
        Err(fault) => Came::until(0, fault),
    }
}

// The record of a part; spaces for a branch.
fn record_of(part: &Part) -> [u8; REQUEST_BYTES] {
    match part.given {
        Given::Record(record) => record,
        Given::Branch(_, _, _) => [b' '; REQUEST_BYTES],
    }
}

fn one_by_one<C: Counter>(bank: &mut C, parts: &[Part]) -> Came {
    let mut count = 0usize;
    for part in parts {
        match bank.submit(moment(), &record_of(part)) {
            Ok(reply) if reply == part.reply => count = count.saturating_add(1),
            Ok(_) => return Came::differs("a reply"),
            Err(fault) => return Came::until(count, fault),
        }
    }
    Came::all(count)
}

// The replies are those of the parts.
fn are_replies(replies: &[[u8; REPLY_BYTES]], parts: &[Part]) -> bool {
    replies.len() == parts.len()
        && replies
            .iter()
            .zip(parts)
            .all(|(reply, part)| *reply == part.reply)
}

fn records_of(alloc: Global, parts: &[Part]) -> Result<Vec<[u8; REQUEST_BYTES]>, AllocError> {
    parts.iter().map(record_of).collect(alloc)
}

fn together<C: Counter>(alloc: Global, bank: &mut C, parts: &[Part]) -> Came {
    let Ok(records) = records_of(alloc, parts) else {
        return Came::differs("no memory");
    };
    if records.is_empty() || records.len() > RECORDS_PER_BATCH {
        return Came::differs("a batch out of range");
    }
    match bank.submit_all(moment(), records.as_slice()) {
        Ok(replies) if are_replies(replies.as_slice(), parts) => Came::all(parts.len()),
        Ok(_) => Came::differs("a reply in a batch"),
        Err(fault) => Came::until(0, fault),
    }
}

// How far a stream or a connection came that wrote these bytes.
fn written(script: &Script, output: &[u8], fault: Option<Fault>) -> Came {
    match (fault, script.answered_by(output)) {
        (_, None) => Came::differs("the bytes of a stream or a connection"),
        (Some(fault), Some(count)) => Came::until(count, fault),
        (None, Some(count)) if output.len() == script.output.len() => Came::all(count),
        (None, Some(_)) => Came::differs("a stream or a connection that ended early"),
    }
}

fn streamed<C: Counter>(alloc: Global, bank: &mut C, script: &Script, most: usize) -> Came {
    let mut reader = Pieces {
        rest: script.input.as_slice(),
        most,
    };
    let mut output: Vec<u8> = Vec::new(alloc);
    let mut clock = StoredClock::new(Vec::new(alloc));
    match post_stream(&mut reader, &mut output, &mut clock, bank) {
        Ok(_) => written(script, output.as_slice(), None),
        Err(StreamFault::Bank(fault)) => written(script, output.as_slice(), Some(fault)),
        Err(_) => Came::differs("a stream that fails"),
    }
}

fn served<C: Followed>(alloc: Global, bank: &mut C, script: &Script, most: usize) -> Came {
    let mut reader = Pieces {
        rest: script.input.as_slice(),
        most,
    };
    let mut output: Vec<u8> = Vec::new(alloc);
    let mut clock = StoredClock::new(Vec::new(alloc));
    match serve_connection(alloc, &mut reader, &mut output, &mut clock, bank) {
        Ok(_) => written(script, output.as_slice(), None),
        Err(ServeFault::Bank(fault)) => {
            written(script, without_last(output.as_slice()), Some(fault))
        }
        Err(_) => Came::differs("a connection that fails"),
    }
}

const UNAVAILABLE: &[u8] =
    b"HTTP/1.1 503 Service Unavailable\r\nContent-Type: text/plain\r\nContent-Length: 24\r\n\
    Connection: close\r\n\r\n503 Service Unavailable\n";

// The answers before the last one, which says that the bank failed. Other bytes are no answers.
fn without_last(output: &[u8]) -> &[u8] {
    output
        .strip_suffix(UNAVAILABLE)
        .unwrap_or(b"no last answer")
}

// Each record of a drive is posted.
fn driven<C: Counter>(alloc: Global, bank: &mut C, seed: u64, parts: &[Part]) -> Came {
    let count = parts.len() as u64;
    if count < 1 || count > MAX_DRIVEN {
        return Came::differs("a drive out of range");
    }
    let mut clock = StoredClock::new(Vec::new(alloc));
    match drive_records(alloc, bank, &mut clock, seed, count) {
        Ok(driven) if driven.posted == count => Came::all(parts.len()),
        Ok(_) => Came::differs("a drive"),
        Err(DriveFault::Bank(fault)) => Came::until(0, fault),
        Err(_) => Came::differs("a drive that fails"),
    }
}

fn balance_is<C: Counter>(bank: &mut C, account: Account, wanted: Option<i64>) -> Came {
    match bank.balance(account) {
        Ok(found) if found.map(|balance| balance.get()) == wanted => Came::all(0),
        Ok(_) => Came::differs("a balance"),
        Err(fault) => Came::until(0, fault),
    }
}

/// Asks any counter.
pub fn ask_counter<C: Followed>(alloc: Global, bank: &mut C, asked: &Asked<'_>) -> Came {
    match asked {
        Asked::Open(branch, accounts, floor) => opened(bank, *branch, *accounts, *floor),
        Asked::Load(parts) => loaded(alloc, bank, parts),
        Asked::OneByOne(parts) => one_by_one(bank, parts),
        Asked::Together(parts) => together(alloc, bank, parts),
        Asked::Stream(script, most) => streamed(alloc, bank, script, *most),
        Asked::Serve(script, most) => served(alloc, bank, script, *most),
        Asked::Drive(seed, parts) => driven(alloc, bank, *seed, parts),
        Asked::Balance(account, wanted) => balance_is(bank, *account, *wanted),
    }
}
