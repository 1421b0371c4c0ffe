//! One scenario: the banks that it asks, and what they answer to each step.
use crate::answers::{Call, make_call};
use crate::drawn::play_run;
use crate::steps::{Place, Step, parts_of};
use crate::stored::Stored;
use crate::tables::{Look, Query, QueryAnswer};
use anyhow::{Context, Result};
use posting_core::PlainBank;
use sqlite::{Alter, Connection};
use std::alloc::{Alloc, AllocError, Global};

/// A scenario.
struct Scenario<S: Alter> {
    alloc: Global,
    place: Place,
    plain: PlainBank,
    stored: Stored<S>,
    // The sums over the tables at the last look.
    looked: Option<Look>,
}

// It is written out, so that a caller does not prove again how each part is dropped.
impl<S: Alter + Drop> Drop for Scenario<S> {
    fn drop(self) {
        let Scenario {
            alloc: _,
            place: _,
            plain: _,
            stored: _,
            looked: _,
        } = self;
    }
}

/// Plays a scenario, whose first line says where its bank is: prints that line, and an answer for each step.
pub fn play<S: Alter + Drop>(
    rt: &(impl Print + Alloc<A = Global>),
    conn: Connection<S>,
    text: &str,
) -> Result<()> {
    let (head, steps) = text.split_once('\n').unwrap_or((text, ""));
    let alloc = rt.alloc();
    let mut scenario = Scenario {
        alloc,
        place: place_of(rt, head)?,
        plain: PlainBank::new(alloc),
        stored: Stored::new(alloc, conn),
        looked: None,
    };
    scenario.play_steps(rt, steps)
}

// Prints the head of a scenario, and says where its bank is.
fn place_of(rt: &impl Print, head: &str) -> Result<Place> {
    println!(rt; "\nbank {head}")?;
    Place::of(head).context("a scenario is in memory, in tables or in both")
}

impl<S: Alter + Drop> Scenario<S> {
    fn play_steps(&mut self, rt: &impl Print, steps: &str) -> Result<()> {
        for line in steps.lines() {
            if !line.is_empty() && !line.starts_with('#') {
                let said = self.answer(line)?;
                println!(rt; "{said}")?;
            }
        }
        Ok(())
    }

    // What is answered to a line.
    fn answer(&mut self, line: &str) -> Result<String> {
        let (goes_on, word, rest) = parts_of(line);
        match Call::of(word, rest) {
            Some((call, list)) => Ok(self.ask(&call, list, goes_on)?),
            None => self.step(Step::of(word, rest), rest),
        }
    }

    // Asks the bank, or both banks. Where these differ, the answers of both are printed.
    fn ask(&mut self, call: &Call, list: &str, goes_on: bool) -> Result<String, AllocError> {
        match self.place {
            Place::Memory => make_call(self.alloc, &mut self.plain, call, list),
            Place::Tables => self.stored.ask(call, list, goes_on),
            Place::Both => {
                let said = self.stored.ask(call, list, goes_on)?;
                let plain = make_call(self.alloc, &mut self.plain, call, list)?;
                side_by_side(self.alloc, plain.as_str(), said.as_str())
            }
        }
    }

    // A step that only a bank in tables knows.
    fn step(&mut self, step: Step, text: &str) -> Result<String> {
        if self.place == Place::Memory {
            return Ok("no tables".to_string(self.alloc)?);
        }
        match step {
            Step::Run(run) => play_run(self.alloc, &mut self.plain, &mut self.stored, run),
            _ => Ok(self.step_on_tables(step, text)?),
        }
    }

    fn step_on_tables(&mut self, step: Step, text: &str) -> Result<String, AllocError> {
        match step {
            Step::Make => self.stored.make(),
            Step::Adopt => self.stored.adopt(),
            Step::Cause => self.stored.cause(),
            Step::Replay => self.stored.replay(),
            Step::Query(query) => self.query(query, text),
            _ => "no step".to_string(self.alloc),
        }
    }

    fn query(&mut self, query: Query, sql: &str) -> Result<String, AllocError> {
        match self.stored.query(query, sql) {
            Ok(QueryAnswer::Nothing) => "done".to_string(self.alloc),
            Ok(QueryAnswer::Number(number)) => number.to_string(self.alloc),
            Ok(QueryAnswer::Looked(look)) => {
                self.looked = Some(look);
                "looked".to_string(self.alloc)
            }
            Ok(QueryAnswer::Compared(look)) => self.compared(look).to_string(self.alloc),
            Err(error) => error.to_string(self.alloc),
        }
    }

    fn compared(&self, look: Look) -> &'static str {
        if self.looked == Some(look) {
            "same"
        } else {
            "changed"
        }
    }
}

// What both banks answered.
fn side_by_side(alloc: Global, plain: &str, stored: &str) -> Result<String, AllocError> {
    if plain == stored {
        format!(in alloc; "both: {plain}")
    } else {
        format!(in alloc; "in memory: {plain}; in tables: {stored}")
    }
}
