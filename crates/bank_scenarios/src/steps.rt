//! What the lines of a script say.
use crate::drawn::{Drawn, Run};
use crate::tables::Query;

/// Where the bank of a scenario is.
#[derive(Clone, Copy, PartialEq, Eq)]
pub enum Place {
    Memory,
    Tables,
    /// One in memory and one in tables, side by side.
    Both,
}

impl Place {
    /// By the head of a scenario, as `in memory: the first posting`.
    pub fn of(head: &str) -> Option<Self> {
        match head.split_once(':')?.0 {
            "in memory" => Some(Place::Memory),
            "in tables" => Some(Place::Tables),
            "in both" => Some(Place::Both),
            _ => None,
        }
    }
}

/// A step that is no call of a bank, but for the text that it takes.
#[derive(Clone, Copy)]
pub enum Step {
    Run(Run),
    Make,
    Adopt,
    Cause,
    Replay,
    Query(Query),
    Unknown,
}

impl Step {
    /// The step of a word and the text after it.
    pub fn of(word: &str, rest: &str) -> Self {
        match word {
            "mixed" => run_of(Drawn::Mixed, rest),
            "steady" => run_of(Drawn::Driven, rest),
            "make" => Step::Make,
            "adopt" => Step::Adopt,
            "cause" => Step::Cause,
            "replay" => Step::Replay,
            "sql" => Step::Query(Query::Batch),
            "number" => Step::Query(Query::Number),
            "look" => Step::Query(Query::Look),
            "same" => Step::Query(Query::Same),
            _ => Step::Unknown,
        }
    }
}

fn run_of(drawn: Drawn, text: &str) -> Step {
    match Run::of(drawn, text) {
        Some(run) => Step::Run(run),
        None => Step::Unknown,
    }
}

/// Whether a line goes on with the bank as the step before left it, its word, and the text after that.
pub fn parts_of(line: &str) -> (bool, &str, &str) {
    let (goes_on, line) = match line.strip_prefix("then ") {
        Some(rest) => (true, rest),
        None => (false, line),
    };
    let (word, rest) = line.split_once(' ').unwrap_or((line, ""));
    (goes_on, word, rest)
}
