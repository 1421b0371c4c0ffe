//! The lives of a bank that stops, or fails, at any call of its store, and goes on from what that leaves.
use super::asking::{Asked, Came, End, ask_counter};
use super::counts::{Counts, add};
use super::history::{Given, History};
use super::messages::Script;
use super::reports::{audit_after, balance_after, replay_between, state, statement_after};
use crate::draws::Draws;
use crate::sums::{Sums, sums_of};
use anyhow::{Result, bail};
use bank_store::{Bank, OpenFault, Refused, adopt, create};
use message_records::Account;
use sqlite::{Alter, Connection, Error, ErrorCode};
use std::alloc::{AllocError, Global};

/// A history that a bank is given, and how far it came.
#[derive(Drop)]
pub struct Simulation {
    alloc: Global,
    draws: Draws,
    history: History,
    // It was answered that the bank is made, or it was found.
    is_made: bool,
    // How many parts were answered, how many the tables hold at least, and how many they hold at most.
    answered: usize,
    held: usize,
    given: usize,
    // What was given last is one transaction, of which all is held or nothing.
    is_one: bool,
    // A life answered all.
    is_whole: bool,
    counts: Counts,
}

// The accounts that are looked at.
const ACCOUNTS: [u64; 8] = [1, 2, 3, 4, 100_001, 100_002, 100_003, 999_800_001];

/// So many lives at most are stopped; then one isn't.
const MAX_STOPS: u64 = 40;

// Takes the bank up, or makes it where there is none, if it wasn't answered that there is one.
fn taken<S: Alter + Drop>(
    alloc: Global,
    conn: Connection<S>,
    is_made: bool,
) -> Result<Bank<S>, Refused<S>> {
    if !conn.is_autocommit() {
        return Err(Refused {
            fault: OpenFault::Foreign,
            conn,
        });
    }
    match adopt(alloc, conn) {
        Ok(bank) => Ok(bank),
        Err(Refused { fault, conn }) => {
            if fault == OpenFault::Blank && !is_made {
                made(alloc, conn)
            } else {
                Err(Refused { fault, conn })
            }
        }
    }
}

fn made<S: Alter + Drop>(alloc: Global, conn: Connection<S>) -> Result<Bank<S>, Refused<S>> {
    if conn.is_autocommit() {
        create(alloc, conn)
    } else {
        Err(Refused {
            fault: OpenFault::Foreign,
            conn,
        })
    }
}

fn refused(fault: OpenFault) -> End {
    match fault {
        OpenFault::Store => End::Stopped,
        _ => End::Differs("a bank isn't found"),
    }
}

// Asks a bank. That a bank in a store is a counter is used here alone: it costs each function that uses it.
fn ask<S: Alter + Drop>(alloc: Global, bank: &mut Bank<S>, asked: &Asked<'_>) -> Came {
    ask_counter(alloc, bank, asked)
}

impl Simulation {
    /// The simulation of a seed.
    pub fn new(alloc: Global, seed: u64) -> Result<Self> {
        let mut draws = Draws::new(seed.saturating_add(1));
        let history = History::draw(alloc, &mut draws)?;
        Ok(Simulation {
            alloc,
            draws,
            history,
            is_made: false,
            answered: 0,
            held: 0,
            given: 0,
            is_one: false,
            is_whole: false,
            counts: Counts::none(),
        })
    }

    pub fn counts(&self) -> &Counts {
        &self.counts
    }

    /// A number below the bound, or 0.
    pub fn draw(&mut self, bound: u32) -> u32 {
        self.draws.below(bound)
    }

    /// Whether the next life doesn't stop: one that finds again what was answered in whole, or the last of many.
    pub fn is_last(&self) -> bool {
        self.is_whole || self.counts.lives >= MAX_STOPS
    }

    /// A life whose files couldn't be opened.
    pub fn fail_to_open(&mut self) -> End {
        add(&mut self.counts.lives, 1);
        End::Stopped
    }

    // The tables are those that were found before or that an answer led to, or those after a prefix of what was
    // given since.
    fn find(&mut self, found: &Sums) -> bool {
        for count in self.held..=self.given {
            let is_within = self.is_one && count > self.held && count < self.given;
            if !is_within && self.history.state(count) == *found {
                self.held = count;
                self.given = count;
                self.is_made = true;
                return true;
            }
        }
        false
    }

    // What is wrong with the tables that are found, if something is.
    fn wrong(&mut self, found: Result<Sums, Error>) -> Option<&'static str> {
        match found {
            Ok(sums) if self.find(&sums) => None,
            Ok(_) => Some("the tables behind a stop"),
            Err(Error::SqliteFailure(ErrorCode::SystemIoFailure | ErrorCode::Closed)) => None,
            Err(Error::SqlInputError(_)) if !self.is_made => None,
            Err(_) => Some("why the tables aren't read"),
        }
    }

    /// A life over a store: how it ended, and the store.
    pub fn live<S: Alter + Drop>(&mut self, mut conn: Connection<S>) -> (End, S) {
        add(&mut self.counts.lives, 1);
        let found = sums_of(&mut conn);
        let is_unread = found.is_err() && self.is_made;
        if let Some(what) = self.wrong(found) {
            return (End::Differs(what), conn.into_store());
        }
        // A bank may be taken up from what was read before the crash. What it holds isn't known, so it is asked for nothing.
        if is_unread {
            return (End::Stopped, conn.into_store());
        }
        match taken(self.alloc, conn, self.is_made) {
            Ok(mut bank) => {
                self.is_made = true;
                let end = self.go_on(&mut bank);
                self.review(end, bank.release())
            }
            Err(Refused { fault, conn }) => (refused(fault), conn.into_store()),
        }
    }

    /// Replays what a life left, over a store that doesn't stop: a bank that is there agrees, and has what was answered.
    pub fn replay_left<S: Alter + Drop>(&mut self, conn: Connection<S>) -> End {
        add(&mut self.counts.replays, 1);
        match taken(self.alloc, conn, self.is_made) {
            Ok(mut bank) => {
                let held = self.history.first(self.held);
                replay_between(&mut bank, held, self.history.first(self.given))
            }
            Err(Refused { fault, conn: _conn }) => refused(fault),
        }
    }

    // Looks at the tables when all is answered.
    fn review<S: Alter + Drop>(&self, end: End, mut conn: Connection<S>) -> (End, S) {
        let found = sums_of(&mut conn).ok();
        let wanted = Some(self.history.state(self.history.len()));
        let end = match found {
            Some(_) if end == End::Done && found != wanted => End::Differs("the tables at the end"),
            None if end == End::Done => End::Stopped,
            _ => end,
        };
        (end, conn.into_store())
    }

    // Gives the bank the parts from the first that wasn't answered on, or from one before it, and then looks at it.
    fn go_on<S: Alter + Drop>(&mut self, bank: &mut Bank<S>) -> End {
        let mut at = self.first_part();
        for _ in 0..1_000u32 {
            if at >= self.history.len() {
                return self.look_at_all(bank);
            }
            let Came { parts, end } = self.give(bank, at);
            at = at.saturating_add(parts);
            if end != End::Done {
                return end;
            }
            if self.draws.below(12) == 0 {
                let end = self.look(bank);
                if end != End::Done {
                    return end;
                }
            }
        }
        End::Differs("a life that doesn't end")
    }

    // Where a sender goes on. No branch is opened between that and what the tables hold.
    fn first_part(&mut self) -> usize {
        let least = self.history.last_opening(self.held.max(self.answered));
        let most = self.answered.saturating_sub(least);
        if self.draws.below(2) == 0 {
            return self.answered;
        }
        let back = self
            .draws
            .below(u32::try_from(most).unwrap_or(0).saturating_add(1));
        self.answered.saturating_sub(back as usize)
    }

    fn give<S: Alter + Drop>(&mut self, bank: &mut Bank<S>, at: usize) -> Came {
        let came = self.give_group(bank, at).unwrap_or(NO_MEMORY);
        let reached = at.saturating_add(came.parts);
        self.answered = self.answered.max(reached);
        self.held = self.held.max(reached);
        came
    }

    // These parts are given, in one transaction or in several.
    fn note_given(&mut self, at: usize, count: usize, is_one: bool) {
        self.given = self.held.max(at.saturating_add(count));
        self.is_one = is_one;
    }

    // Gives the part, or a group of records from there on.
    fn give_group<S: Alter + Drop>(
        &mut self,
        bank: &mut Bank<S>,
        at: usize,
    ) -> Result<Came, AllocError> {
        let opening = match self.history.part(at) {
            Some(part) => match part.given {
                Given::Branch(branch, accounts, floor) => Some(Asked::Open(
                    branch, accounts, floor,
                )),
                Given::Record(_) => None,
            },
            None => None,
        };
        if let Some(asked) = opening {
            self.note_given(at, 1, true);
            return Ok(ask(self.alloc, bank, &asked));
        }
        let most = self.draws.below(20).saturating_add(1) as usize;
        let count = self.history.records(at, most).len();
        add(&mut self.counts.records, count as u64);
        self.give_records(bank, at, count)
    }

    fn give_records<S: Alter + Drop>(
        &mut self,
        bank: &mut Bank<S>,
        at: usize,
        count: usize,
    ) -> Result<Came, AllocError> {
        let way = self.draws.below(4);
        self.note_given(at, count, way == 1);
        let most = self.draws.below(400).saturating_add(1) as usize;
        let script = match way {
            2 => self.stream(at, count)?,
            3 => self.connection(at, count)?,
            _ => Script::new(self.alloc),
        };
        let parts = self.history.records(at, count);
        let asked = match way {
            0 => Asked::OneByOne(parts),
            1 => Asked::Together(parts),
            2 => Asked::Stream(&script, most),
            _ => Asked::Serve(&script, most),
        };
        let came = ask(self.alloc, bank, &asked);
        match way {
            0 => {}
            1 => add(&mut self.counts.batches, 1),
            2 => add(&mut self.counts.streams, 1),
            _ => add(&mut self.counts.connections, 1),
        }
        Ok(came)
    }

    fn stream(&self, at: usize, count: usize) -> Result<Script, AllocError> {
        let mut script = Script::new(self.alloc);
        script.add_records(self.history.records(at, count))?;
        Ok(script)
    }

    // Messages with the records, among others that ask for accounts or have no record.
    fn connection(&mut self, at: usize, count: usize) -> Result<Script, AllocError> {
        let mut script = Script::new(self.alloc);
        for place in at..at.saturating_add(count) {
            if let Some(part) = self.history.part(place) {
                script.add_post(part)?;
            }
            let after = self.held.max(place.saturating_add(1));
            match self.draws.below(6) {
                0 => script.add_short()?,
                1 => self.add_get(&mut script, after)?,
                _ => {}
            }
        }
        Ok(script)
    }

    fn add_get(&mut self, script: &mut Script, after: usize) -> Result<(), AllocError> {
        let account = self.account();
        let balance = balance_after(self.history.first(after), account);
        script.add_get(self.alloc, account.get(), balance)
    }

    fn account(&mut self) -> Account {
        let place = self.draws.below(8) as usize;
        let number = ACCOUNTS.get(place).copied().unwrap_or(1);
        Account::new(number).unwrap_or(Account::new(1).unwrap())
    }

    // Asks for a balance, a statement or an audit.
    fn look<S: Alter + Drop>(&mut self, bank: &mut Bank<S>) -> End {
        let account = self.account();
        add(&mut self.counts.reports, 1);
        match self.draws.below(3) {
            0 => self.look_at_balance(bank, account),
            1 => self.look_at_statement(bank, account),
            _ => audit_after(bank, self.history.first(self.held)),
        }
    }

    fn look_at_balance<S: Alter + Drop>(&self, bank: &mut Bank<S>, account: Account) -> End {
        let wanted = balance_after(self.history.first(self.held), account);
        ask(self.alloc, bank, &Asked::Balance(account, wanted)).end
    }

    fn look_at_statement<S: Alter + Drop>(&self, bank: &mut Bank<S>, account: Account) -> End {
        match statement_after(self.alloc, self.history.first(self.held), account) {
            Ok(wanted) => state(self.alloc, bank, account, &wanted),
            Err(_) => NO_MEMORY.end,
        }
    }

    // Looks at the bank when all is answered.
    fn look_at_all<S: Alter + Drop>(&mut self, bank: &mut Bank<S>) -> End {
        let account = self.account();
        add(&mut self.counts.reports, 2);
        let end = self.look_at_statement(bank, account);
        if end != End::Done {
            return end;
        }
        audit_after(bank, self.history.first(self.held))
    }

    /// A life ended so. Whether all was answered, and then found again; what differed is an error.
    pub fn is_done(&mut self, end: End) -> Result<bool> {
        let was_last = self.is_whole || self.counts.lives > MAX_STOPS;
        match end {
            End::Done if self.is_whole => Ok(true),
            End::Done => {
                self.is_whole = true;
                Ok(false)
            }
            End::Stopped if was_last => bail!("differs: a life that needn't stop stopped"),
            End::Stopped => {
                add(&mut self.counts.stops, 1);
                Ok(false)
            }
            End::Differs(what) => bail!("differs: {what}"),
        }
    }
}

const NO_MEMORY: Came = Came {
    parts: 0,
    end: End::Differs("no memory"),
};
