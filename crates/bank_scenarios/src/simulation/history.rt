//! What a bank is given in a simulation, drawn from a seed, and what comes of each part by the bank in memory.
use crate::answers::is_floor;
use crate::draws::{Draws, draw_group};
use crate::sums::{Entry, ExpectedSums, Sums};
use anyhow::{Context, Result, ensure};
use message_records::{
    Account, Branch, Cents, Moment, REFERENCE_BYTES, REPLY_BYTES, REQUEST_BYTES, Reply,
    decode_reply, decode_request,
};
use posting_core::{Counter, Decision, PlainBank};
use std::alloc::Global;

/// What a bank is given.
#[derive(Clone, Copy)]
pub enum Given {
    /// A branch is opened with so many accounts, and with a floor in cents if it has one.
    Branch(Branch, u32, Option<i64>),
    Record([u8; REQUEST_BYTES]),
}

/// A part of what a bank is given, and what comes of it.
#[derive(Clone, Copy)]
pub struct Part {
    pub(crate) given: Given,
    /// The reply to a record.
    pub reply: [u8; REPLY_BYTES],
    // What it decides, if it is a request that wasn't decided before.
    pub(crate) entry: Option<Entry>,
    /// The sums over the tables after it.
    pub state: Sums,
}

impl Part {
    /// The same once more, when the tables have these sums.
    pub fn again(&self, state: Sums) -> Part {
        Part { state, ..*self }
    }
}

/// The parts, in their order.
#[derive(Drop)]
pub struct History {
    parts: Vec<Part>,
    expected: ExpectedSums,
}

/// The moment of each record.
pub fn moment() -> Moment {
    Moment::new(0).unwrap()
}

fn signed(number: u64) -> i64 {
    i64::try_from(number).unwrap_or(0)
}

// How many records a round has. Few have so many that limits are met.
fn length(draws: &mut Draws) -> u32 {
    match draws.below(12) {
        0 => draws.below(280).saturating_add(1),
        _ => draws.below(30).saturating_add(1),
    }
}

// A branch that is opened in the first round or in the second, and what it is opened with.
#[derive(Clone, Copy)]
struct Opened {
    branch: u64,
    accounts: u32,
    floor: Option<i64>,
    is_first: bool,
}

// A floor near zero, one that some amounts reach, or none.
fn floor(draws: &mut Draws) -> Option<i64> {
    match draws.below(4) {
        0 => Some(-i64::from(draws.below(1_000))),
        1 => Some(-10 * i64::from(draws.below(4_000_000_000))),
        _ => None,
    }
}

fn draw_branch(draws: &mut Draws, branch: u64, most: u32, chances: u32) -> Opened {
    Opened {
        branch,
        accounts: draws.below(most).saturating_add(1),
        floor: floor(draws),
        is_first: draws.below(chances) > 0,
    }
}

// The branches that are opened. Records name accounts beyond theirs too.
fn plan(draws: &mut Draws) -> [Opened; 3] {
    [
        draw_branch(draws, 1, 3, 8),
        draw_branch(draws, 2, 2, 3),
        draw_branch(draws, 9999, 20, 2),
    ]
}

// The bytes that a record is referred to by.
fn reference_in(record: &[u8; REQUEST_BYTES]) -> Option<[u8; REFERENCE_BYTES]> {
    let reference = decode_request(record).ok()?.reference()?;
    Some(*reference.text())
}

// A reply to a decided request, as the tables keep it; none to one that isn't kept.
fn entry_of(
    reply: &Reply,
    reference: Option<[u8; REFERENCE_BYTES]>,
    ordinal: i64,
) -> Option<Entry> {
    let request = reply.request()?;
    let (account, branch, delta) = (request.account(), request.branch(), request.delta());
    let balance = reply.balance().unwrap_or(Cents::zero());
    let decision = Decision::new(account, branch, delta, reply.outcome(), balance)?;
    Some(Entry {
        ordinal,
        account: signed(account.get()),
        teller: signed(request.teller().get()),
        branch: signed(branch.get()),
        number: signed(request.number().get()),
        delta: delta.get(),
        outcome: i64::from(decision.outcome().code()),
        balance: balance.get(),
        reference,
    })
}

// Takes away where a request of some numbers adds, so that floors are met as limits are. What came again stays the same.
fn lower(record: &mut [u8; REQUEST_BYTES]) {
    let is_lowered = matches!(record[39], b'1' | b'3' | b'6' | b'8');
    let is_zero = record[41..51].iter().all(|digit| *digit == b'0');
    if is_lowered && !is_zero {
        record[40] = b'-';
    }
}

impl History {
    fn new(alloc: Global) -> History {
        History {
            parts: Vec::new(alloc),
            expected: ExpectedSums::new(),
        }
    }

    /// Branches and their counts of accounts, and records after them.
    pub fn of(
        alloc: Global,
        plan: &[(u64, u32)],
        records: &[[u8; REQUEST_BYTES]],
    ) -> Result<History> {
        let mut history = History::new(alloc);
        let mut bank = PlainBank::new(alloc);
        for (branch, accounts) in plan {
            let opened = Opened {
                branch: *branch,
                accounts: *accounts,
                floor: None,
                is_first: true,
            };
            history.open(&mut bank, &opened)?;
        }
        history.post(&mut bank, records)?;
        Ok(history)
    }

    /// Two rounds, each of branches that are opened and of mixed records after them.
    pub fn draw(alloc: Global, draws: &mut Draws) -> Result<History> {
        let mut history = History::new(alloc);
        history.fill(draws, &mut PlainBank::new(alloc), &mut Vec::new(alloc))?;
        Ok(history)
    }

    fn fill(
        &mut self,
        draws: &mut Draws,
        bank: &mut PlainBank,
        sent: &mut Vec<[u8; REQUEST_BYTES]>,
    ) -> Result<()> {
        let plan = plan(draws);
        for is_first in [true, false] {
            self.open_round(bank, &plan, is_first)?;
            let before = sent.len();
            let count = length(draws);
            draw_group(draws, count, sent)?;
            for record in sent.iter_mut().skip(before) {
                lower(record);
            }
            self.post(bank, sent.get(before..).unwrap_or(&[]))?;
        }
        Ok(())
    }

    // Opens the branches of a round.
    fn open_round(&mut self, bank: &mut PlainBank, plan: &[Opened], is_first: bool) -> Result<()> {
        for opened in plan {
            if opened.is_first == is_first {
                self.open(bank, opened)?;
            }
        }
        Ok(())
    }

    fn open(&mut self, bank: &mut PlainBank, opened: &Opened) -> Result<()> {
        let (accounts, floor) = (opened.accounts, opened.floor);
        let branch = Branch::new(opened.branch).context("a branch")?;
        ensure!(
            branch.get() <= 9999 && accounts >= 1 && accounts <= 100_000,
            "a branch"
        );
        let lowest = floor.and_then(Cents::new);
        ensure!(is_floor(&lowest), "a floor");
        bank.open_branch(branch, accounts, lowest)?;
        self.expected.open(signed(branch.get()), accounts, floor);
        self.add(
            Given::Branch(branch, accounts, floor),
            [b' '; REPLY_BYTES],
            None,
        )
    }

    fn post(&mut self, bank: &mut PlainBank, records: &[[u8; REQUEST_BYTES]]) -> Result<()> {
        for record in records {
            let reply = bank.submit(moment(), record)?;
            let entry = self.decided_by(record, &reply);
            if let Some(entry) = &entry {
                self.expected.decide(entry);
            }
            self.add(Given::Record(*record), reply, entry)?;
        }
        Ok(())
    }

    // What a reply to a record says that is decided, unless it is that to an earlier record.
    fn decided_by(&self, record: &[u8; REQUEST_BYTES], reply: &[u8; REPLY_BYTES]) -> Option<Entry> {
        let reply = decode_reply(reply).ok()?;
        let entry = entry_of(&reply, reference_in(record), self.expected.next_ordinal())?;
        let is_known = self.parts.iter().any(|part| match &part.entry {
            Some(known) => known.teller == entry.teller && known.number == entry.number,
            None => false,
        });
        if is_known { None } else { Some(entry) }
    }

    fn add(&mut self, given: Given, reply: [u8; REPLY_BYTES], entry: Option<Entry>) -> Result<()> {
        let state = self.expected.sums();
        self.parts.push(Part {
            given,
            reply,
            entry,
            state,
        })?;
        Ok(())
    }

    pub fn len(&self) -> usize {
        self.parts.len()
    }

    pub fn part(&self, at: usize) -> Option<&Part> {
        self.parts.get(at)
    }

    /// Up to so many records from a part on, as far as no branch is opened.
    pub fn records(&self, at: usize, most: usize) -> &[Part] {
        let after = self.after(at);
        let count = after
            .iter()
            .take(most)
            .take_while(|part| matches!(part.given, Given::Record(_)))
            .count();
        after.get(..count).unwrap_or(&[])
    }

    /// The sums over the tables after so many parts.
    pub fn state(&self, count: usize) -> Sums {
        match count.checked_sub(1).and_then(|last| self.part(last)) {
            Some(part) => part.state,
            None => ExpectedSums::new().sums(),
        }
    }

    /// The first so many parts.
    pub fn first(&self, count: usize) -> &[Part] {
        self.parts.get(..count).unwrap_or(&[])
    }

    /// The parts after so many.
    pub fn after(&self, count: usize) -> &[Part] {
        self.parts.get(count..).unwrap_or(&[])
    }

    /// The last branch that is opened in so many parts: from there on a record may come again.
    pub fn last_opening(&self, count: usize) -> usize {
        let mut last = 0usize;
        for (place, part) in self.first(count).iter().enumerate() {
            if matches!(part.given, Given::Branch(_, _, _)) {
                last = place;
            }
        }
        last
    }
}
