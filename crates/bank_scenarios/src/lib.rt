//! Plays scenarios: what a bank in memory, a bank in tables, or both side by side are asked, a line for each
//! step, and what they answer. The head of the `stdin` of `bank_trials`, which plays them, has the words of
//! the lines. The store of the tables is any.
//!
//! A `Simulation` draws what a bank is asked from a seed, and compares what a bank in tables that stops at any call of its
//! store answers with what the bank in memory does. What is left of the bank is replayed.
#![tactic(auto)]

mod answers;
mod drawn;
mod draws;
mod records;
mod replayed;
mod scenario;
mod simulation;
mod steps;
mod stored;
mod sums;
mod tables;

pub use scenario::play;
pub use simulation::{Asked, Came, Counts, End, History, Part, Script, Simulation, ask_counter};
pub use sums::{ExpectedSums, Sums, number, sums_of};
