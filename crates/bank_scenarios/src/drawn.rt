//! Runs of drawn records, on the bank in memory and on the bank in tables.
use crate::draws::{Draws, draw_group};
use crate::stored::Stored;
use anyhow::{Context, Result, bail, ensure};
use bank_store::Bank;
use branch_loader::Plan;
use load_driver::Driver;
use message_records::{
    Account, Branch, Cents, Moment, Outcome, REPLY_BYTES, REQUEST_BYTES, decode_reply,
};
use posting_core::{Counter, PlainBank};
use sqlite::Alter;
use std::alloc::{AllocError, Global};

/// How many groups of records a run has. After each the bank in tables is given back, and taken up again.
const GROUPS: u16 = 20;

/// The branches that the records name, and how many accounts each has.
const BRANCHES: [(u64, u32); 3] = [(1, 3), (2, 2), (9999, 1000)];

/// How many records a group has, unless its size is drawn.
const GROUP: u32 = 25;

/// How the records of a group are submitted.
#[derive(Clone, Copy, PartialEq, Eq)]
pub enum Way {
    OneByOne,
    InBatches,
    /// One by one to the bank in memory, and in batches of 1 to 64 to the bank in tables.
    Beside,
}

impl Way {
    fn in_memory(self) -> Self {
        match self {
            Way::Beside => Way::OneByOne,
            way => way,
        }
    }

    fn in_tables(self) -> Self {
        match self {
            Way::Beside => Way::InBatches,
            way => way,
        }
    }
}

/// Who draws the records.
#[derive(Clone, Copy, PartialEq, Eq)]
pub enum Drawn {
    /// Mixed ones.
    Mixed,
    /// The driver's, of a steady run.
    Driven,
}

/// A run of 20 groups of records.
#[derive(Clone, Copy)]
pub struct Run {
    pub drawn: Drawn,
    pub seed: u64,
    pub way: Way,
}

impl Run {
    /// The run that a step says after its word, as `1 one by one`, `2 in batches` or `5 in batches beside one
    /// by one`, none where it says no run.
    pub fn of(drawn: Drawn, text: &str) -> Option<Self> {
        let (seed, way) = text.split_once(' ')?;
        let way = match way {
            "one by one" => Way::OneByOne,
            "in batches" => Way::InBatches,
            "in batches beside one by one" => Way::Beside,
            _ => return None,
        };
        Some(Run {
            drawn,
            seed: seed.parse::<u64>().ok()?,
            way,
        })
    }
}

// The replies to the records of a group.
fn replies_of<C: Counter>(
    alloc: Global,
    bank: &mut C,
    group: u16,
    records: &[[u8; REQUEST_BYTES]],
    way: Way,
) -> Result<Vec<[u8; REPLY_BYTES]>> {
    let moment = Moment::new(u64::from(group)).context("a moment")?;
    if way == Way::InBatches {
        ensure!(!records.is_empty() && records.len() <= 64, "no batch");
        return Ok(bank.submit_all(moment, records)?);
    }
    let mut replies = Vec::new(alloc);
    for record in records {
        replies.push(bank.submit(moment, record)?)?;
    }
    Ok(replies)
}

// The balances of a branch's accounts, and of the one after them.
fn balances_of<C: Counter>(
    alloc: Global,
    bank: &mut C,
    branch: u64,
    count: u32,
) -> Result<Vec<Option<Cents>>> {
    let mut balances = Vec::new(alloc);
    let below = branch.saturating_sub(1).saturating_mul(100_000);
    for place in 1..=u64::from(count) + 1 {
        let account = Account::new(below.saturating_add(place)).context("an account")?;
        balances.push(bank.balance(account)?)?;
    }
    Ok(balances)
}

// The outcomes that came.
fn outcomes_text(alloc: Global, came: &[Outcome]) -> Result<String, AllocError> {
    let mut said = "agree:".to_string(alloc)?;
    for outcome in [
        Outcome::Posted,
        Outcome::NoTeller,
        Outcome::WrongBranch,
        Outcome::NoAccount,
        Outcome::BelowFloor,
        Outcome::OverLimit,
        Outcome::ReusedNumber,
        Outcome::Closed,
        Outcome::Sealed,
        Outcome::Full,
        Outcome::Malformed,
    ] {
        if came.contains(&outcome) {
            said.push_str(if said.ends_with(':') { " " } else { ", " })?;
            said.push_str(outcome.name())?;
        }
    }
    Ok(said)
}

// Adds the outcomes of the replies.
fn note(outcomes: &mut Vec<Outcome>, replies: &[[u8; REPLY_BYTES]]) -> Result<()> {
    for reply in replies {
        let Ok(reply) = decode_reply(reply) else {
            bail!("no reply");
        };
        outcomes.push(reply.outcome())?;
    }
    Ok(())
}

// The driver of a seed over the branches.
fn driver_of(alloc: Global, seed: u64) -> Result<Driver> {
    let mut rows = Vec::new(alloc);
    for (branch, count) in &BRANCHES {
        rows.push((Branch::new(*branch).context("a branch")?, *count, None))?;
    }
    let plan = Plan::from_list(rows).ok().context("a plan")?;
    Driver::new(alloc, &plan, seed).ok().context("a driver")
}

// What draws the records of a run.
#[derive(Drop)]
enum Drawing {
    Mixed(Draws),
    Driven(Driver),
}

impl Drawing {
    fn of(alloc: Global, run: Run) -> Result<Self> {
        match run.drawn {
            Drawn::Mixed => Ok(Drawing::Mixed(Draws::new(run.seed))),
            Drawn::Driven => Ok(Drawing::Driven(driver_of(alloc, run.seed)?)),
        }
    }

    // Puts a group of so many records after those that were sent.
    fn draw(&mut self, count: u32, sent: &mut Vec<[u8; REQUEST_BYTES]>) -> Result<()> {
        match self {
            Drawing::Mixed(draws) => draw_group(draws, count, sent),
            Drawing::Driven(driver) => {
                for _ in 0..count {
                    sent.push(driver.next().context("a record")?)?;
                }
                Ok(())
            }
        }
    }

    // How many records the next group has.
    fn size_of_group(&mut self, way: Way) -> u32 {
        match self {
            Drawing::Mixed(draws) if way == Way::Beside => draws.below(64).saturating_add(1),
            _ => GROUP,
        }
    }
}

// The records of a run, and what came of them.
#[derive(Drop)]
struct Course {
    alloc: Global,
    run: Run,
    drawing: Drawing,
    sent: Vec<[u8; REQUEST_BYTES]>,
    outcomes: Vec<Outcome>,
}

impl Course {
    // Draws a group and submits it to both banks, whose replies are the same.
    fn submit<C: Counter>(
        &mut self,
        plain: &mut PlainBank,
        bank: &mut C,
        group: u16,
    ) -> Result<()> {
        let before = self.sent.len();
        let way = self.run.way;
        let count = self.drawing.size_of_group(way);
        self.drawing.draw(count, &mut self.sent)?;
        let records = self.sent.get(before..).context("a group")?;
        let wanted = replies_of(self.alloc, plain, group, records, way.in_memory())?;
        let replies = replies_of(self.alloc, bank, group, records, way.in_tables())?;
        ensure!(
            replies.as_slice() == wanted.as_slice(),
            "other replies to group {group}"
        );
        note(&mut self.outcomes, replies.as_slice())
    }

    // Plays the groups, and asks for the balances that they may have changed after each.
    fn play<S: Alter + Drop>(
        &mut self,
        plain: &mut PlainBank,
        stored: &mut Stored<S>,
    ) -> Result<()> {
        for group in 0..GROUPS {
            self.submit(plain, taken_up(stored)?, group)?;
            agree(self.alloc, plain, stored, &[(1, 3), (2, 2)])?;
        }
        agree(self.alloc, plain, stored, &BRANCHES)
    }
}

fn taken_up<S: Alter + Drop>(stored: &mut Stored<S>) -> Result<&mut Bank<S>> {
    match stored.anew() {
        Ok(bank) => Ok(bank),
        Err(fault) => bail!("{fault}"),
    }
}

// Asks both banks for the balances of a branch, which are the same.
fn agree_on<C: Counter>(
    alloc: Global,
    plain: &mut PlainBank,
    bank: &mut C,
    branch: u64,
    count: u32,
) -> Result<()> {
    let wanted = balances_of(alloc, plain, branch, count)?;
    let balances = balances_of(alloc, bank, branch, count)?;
    ensure!(
        balances.as_slice() == wanted.as_slice(),
        "other balances in branch {branch}"
    );
    Ok(())
}

// Asks both banks for the balances of the branches. The bank in tables is taken up anew for each.
fn agree<S: Alter + Drop>(
    alloc: Global,
    plain: &mut PlainBank,
    stored: &mut Stored<S>,
    branches: &[(u64, u32)],
) -> Result<()> {
    for (branch, count) in branches {
        agree_on(alloc, plain, taken_up(stored)?, *branch, *count)?;
    }
    Ok(())
}

/// Submits the records of a run to both banks, group by group, and says that their replies and balances agree, and
/// which outcomes came. It fails where they don't agree.
pub fn play_run<S: Alter + Drop>(
    alloc: Global,
    plain: &mut PlainBank,
    stored: &mut Stored<S>,
    run: Run,
) -> Result<String> {
    let mut course = Course {
        alloc,
        run,
        drawing: Drawing::of(alloc, run)?,
        sent: Vec::new(alloc),
        outcomes: Vec::new(alloc),
    };
    course.play(plain, stored)?;
    stored.release();
    Ok(outcomes_text(alloc, course.outcomes.as_slice())?)
}
