//! What a bank is asked for, as plain data: parts of a history, by which calls it gets them, and the tables that they
//! lead to.
use bank_scenarios::{Asked, Came, History, Part, Script, Sums, ask_counter};
use posting_core::Followed;
use std::alloc::{AllocError, Global};

/// By which calls a bank gets the parts of a case.
#[derive(Clone, Copy, PartialEq, Eq)]
pub enum Way {
    /// Branches by a plan.
    Load,
    /// Records one by one.
    OneByOne,
    /// Together.
    Together,
    /// As a stream, of which a read gives so many bytes at most.
    Stream(usize),
    /// As the messages of a connection.
    Serve,
    /// By a drive of the seed 7, whose records these are.
    Drive,
}

impl Way {
    // Whether a crash may leave some of the parts.
    fn is_in_parts(self) -> bool {
        !matches!(self, Way::Together | Way::Drive)
    }
}

/// What a bank gets.
#[derive(Clone, Copy)]
pub struct Case<'a> {
    pub way: Way,
    pub parts: &'a [Part],
    /// The sums over the tables before it.
    pub before: Sums,
}

impl<'a> Case<'a> {
    /// The parts of a history after so many.
    pub fn of(way: Way, history: &'a History, count: usize) -> Case<'a> {
        Case {
            way,
            parts: history.after(count),
            before: history.state(count),
        }
    }

    /// The parts after so many that were answered.
    pub fn after(self, answered: usize) -> Case<'a> {
        Case {
            parts: self.parts.get(answered..).unwrap_or(&[]),
            before: self.state(answered),
            ..self
        }
    }

    // The sums over the tables after so many parts.
    fn state(&self, count: usize) -> Sums {
        match count.checked_sub(1).and_then(|last| self.parts.get(last)) {
            Some(part) => part.state,
            None => self.before,
        }
    }

    /// The sums over the tables when all is done.
    pub fn last(&self) -> Sums {
        self.state(self.parts.len())
    }

    /// Whether a crash may leave tables with these sums, where so many parts were answered.
    pub fn may_leave(&self, answered: usize, found: &Sums) -> bool {
        let all = self.parts.len();
        for count in answered..=all {
            let is_left = self.way.is_in_parts() || count == 0 || count == all;
            if is_left && self.state(count) == *found {
                return true;
            }
        }
        false
    }
}

// What a stream or a connection gets.
fn script_of(alloc: Global, case: &Case) -> Result<Script, AllocError> {
    let mut script = Script::new(alloc);
    match case.way {
        Way::Stream(_) => script.add_records(case.parts)?,
        Way::Serve => {
            for part in case.parts {
                script.add_post(part)?;
            }
        }
        _ => {}
    }
    Ok(script)
}

/// Asks a counter for what the case has.
pub fn work_on<C: Followed>(alloc: Global, bank: &mut C, case: &Case) -> Result<Came, AllocError> {
    let script = script_of(alloc, case)?;
    let asked = match case.way {
        Way::Load => Asked::Load(case.parts),
        Way::OneByOne => Asked::OneByOne(case.parts),
        Way::Together => Asked::Together(case.parts),
        Way::Stream(most) => Asked::Stream(&script, most),
        Way::Serve => Asked::Serve(&script, usize::MAX),
        Way::Drive => Asked::Drive(7, case.parts),
    };
    Ok(ask_counter(alloc, bank, &asked))
}
