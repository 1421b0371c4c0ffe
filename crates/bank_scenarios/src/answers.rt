//! What a bank answers to a call, whatever keeps its tables.
ghost use Rattle.std.specs.Prelude.{◌≤ℤ◌, pos, IfSome, IsTrue};

use crate::records::Record;
use load_driver::{MAX_DRIVEN, drive_records};
use message_records::{Account, Branch, Cents, Moment, REPLY_BYTES, REQUEST_BYTES};
use posting_core::{Counter, Opening, RECORDS_PER_BATCH, StoredClock};
use std::alloc::{AllocError, Global};

/// What separates the things that a step names, and what is answered to each.
const BETWEEN: &str = ", ";

/// A call of a bank, but for the things that it names.
#[derive(Clone, Copy)]
pub enum Call {
    /// Opens branches: each a number, a count of accounts, and a floor if it has one.
    Open,
    /// Submits records one by one.
    Post(Moment),
    /// Submits records together.
    Batch(Moment),
    /// Asks for the balances of accounts.
    Balance,
    /// Submits so many records of a seed over the open branches, each at the moment 0.
    Drive { seed: u64 },
}

impl Call {
    /// The call that a step says, and the things that it names; none where it says no call.
    pub fn of<'a>(word: &str, rest: &'a str) -> Option<(Self, &'a str)> {
        let (first, list) = rest.split_once(' ').unwrap_or((rest, ""));
        match word {
            "open" => Some((Call::Open, rest)),
            "balance" => Some((Call::Balance, rest)),
            "post" => Some((Call::Post(moment_of(first)?), list)),
            "batch" => Some((Call::Batch(moment_of(first)?), list)),
            "drive" => {
                let seed = first.parse::<u64>().ok()?;
                Some((Call::Drive { seed }, list))
            }
            _ => None,
        }
    }
}

fn moment_of(text: &str) -> Option<Moment> {
    Moment::new(text.parse::<u64>().ok()?)
}

/// Makes the call, and prints what was answered to each thing that it names.
pub fn make_call<C: Counter>(
    alloc: Global,
    bank: &mut C,
    call: &Call,
    list: &str,
) -> Result<String, AllocError> {
    if let Call::Batch(moment) = call {
        return together(alloc, bank, *moment, list);
    }
    let mut answers = String::new(alloc);
    for item in list.split(BETWEEN) {
        let said = one_by_one(alloc, bank, call, item);
        add(&mut answers, said)?;
    }
    Ok(answers)
}

// Adds an answer after the others.
fn add(answers: &mut String, said: Result<String, AllocError>) -> Result<(), AllocError> {
    let said = said?;
    if !answers.is_empty() {
        answers.push_str(BETWEEN)?;
    }
    answers.push_str(said.as_str())
}

fn one_by_one<C: Counter>(
    alloc: Global,
    bank: &mut C,
    call: &Call,
    item: &str,
) -> Result<String, AllocError> {
    match call {
        Call::Open => opened(alloc, bank, item),
        Call::Post(moment) | Call::Batch(moment) => posted(alloc, bank, *moment, item),
        Call::Balance => balance_of(alloc, bank, item),
        Call::Drive { seed } => driven(alloc, bank, *seed, item),
    }
}

// A branch, its count of accounts, and its floor if it has one: `1 with 3`, or `1 with 3 down to -1000`.
fn branch_of(item: &str) -> Option<(Branch, u32, Option<Cents>)> {
    let (branch, terms) = item.split_once(" with ")?;
    let (count, floor) = match terms.split_once(" down to ") {
        Some((count, floor)) => (count, Some(Cents::new(floor.parse::<i64>().ok()?)?)),
        None => (terms, None),
    };
    Some((
        Branch::new(branch.parse::<u64>().ok()?)?,
        count.parse::<u32>().ok()?,
        floor,
    ))
}

// Whether a floor is at most zero, where there is one.
pub(crate) fn is_floor(floor: &Option<Cents>) -> bool
    ensures { IsTrue result → IfSome floor.now (λ z. z ≤ℤ pos 0) }
{
    match floor {
        Some(floor) => floor.get() <= 0,
        None => true,
    }
}

fn opened<C: Counter>(alloc: Global, bank: &mut C, item: &str) -> Result<String, AllocError> {
    let Some((branch, count, floor)) = branch_of(item) else {
        return "no branch".to_string(alloc);
    };
    if branch.get() > 9999 || count < 1 || count > 100_000 || !is_floor(&floor) {
        return "out of range".to_string(alloc);
    }
    match bank.open_branch(branch, count, floor) {
        Ok(opening) => word_of(opening).to_string(alloc),
        Err(fault) => fault.to_string(alloc),
    }
}

fn word_of(opening: Opening) -> &'static str {
    match opening {
        Opening::Opened => "opened",
        Opening::Already => "already",
        Opening::Differs => "differs",
    }
}

fn posted<C: Counter>(
    alloc: Global,
    bank: &mut C,
    moment: Moment,
    item: &str,
) -> Result<String, AllocError> {
    let Some(record) = Record::of(item) else {
        return "no record".to_string(alloc);
    };
    match bank.submit(moment, &record.bytes) {
        Ok(reply) => record.answer_text(alloc, &reply),
        Err(fault) => fault.to_string(alloc),
    }
}

fn balance_of<C: Counter>(alloc: Global, bank: &mut C, item: &str) -> Result<String, AllocError> {
    let Some(account) = item.parse::<u64>().ok().and_then(Account::new) else {
        return "no account".to_string(alloc);
    };
    match bank.balance(account) {
        Ok(Some(balance)) => balance.to_string(alloc),
        Ok(None) => "not open".to_string(alloc),
        Err(fault) => fault.to_string(alloc),
    }
}

// The records of a list, none where one of them is none.
fn records_of(alloc: Global, list: &str) -> Result<Option<Vec<Record>>, AllocError> {
    let mut records = Vec::new(alloc);
    for item in list.split(BETWEEN) {
        let Some(record) = Record::of(item) else {
            return Ok(None);
        };
        records.push(record)?;
    }
    Ok(Some(records))
}

fn together<C: Counter>(
    alloc: Global,
    bank: &mut C,
    moment: Moment,
    list: &str,
) -> Result<String, AllocError> {
    match records_of(alloc, list)? {
        Some(records) => submitted(alloc, bank, moment, records.as_slice()),
        None => "no record".to_string(alloc),
    }
}

fn submitted<C: Counter>(
    alloc: Global,
    bank: &mut C,
    moment: Moment,
    records: &[Record],
) -> Result<String, AllocError> {
    let bytes: Vec<[u8; REQUEST_BYTES]> = records.iter().map(|record| record.bytes).collect(alloc)?;
    if bytes.is_empty() || bytes.len() > RECORDS_PER_BATCH {
        return "no batch".to_string(alloc);
    }
    match bank.submit_all(moment, bytes.as_slice()) {
        Ok(replies) => told_each(alloc, records, replies.as_slice()),
        Err(fault) => fault.to_string(alloc),
    }
}

// The texts of the replies to the records.
fn told_each(
    alloc: Global,
    records: &[Record],
    replies: &[[u8; REPLY_BYTES]],
) -> Result<String, AllocError> {
    let mut answers = String::new(alloc);
    for (record, reply) in records.iter().zip(replies) {
        add(&mut answers, record.answer_text(alloc, reply))?;
    }
    Ok(answers)
}

fn driven<C: Counter>(
    alloc: Global,
    bank: &mut C,
    seed: u64,
    item: &str,
) -> Result<String, AllocError> {
    let count = item.parse::<u64>().unwrap_or(0);
    if count < 1 || count > MAX_DRIVEN {
        return "out of range".to_string(alloc);
    }
    let mut clock = StoredClock::new(Vec::new(alloc));
    match drive_records(alloc, bank, &mut clock, seed, count) {
        Ok(driven) => format!(in alloc; "posted {} refused {}", driven.posted, driven.refused),
        Err(fault) => fault.to_string(alloc),
    }
}
