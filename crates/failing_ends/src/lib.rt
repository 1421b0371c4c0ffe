//! Readers, writers and a bank that cut, fail, count or wait, for tests.
#![tactic(auto)]

mod bank;
mod readers;
mod waiting;
mod writers;

pub use bank::{Failing, FailingBank, balances, open_both};
pub use readers::{CutReader, Pieces};
pub use waiting::{HeardWriter, WaitingReader};
pub use writers::{CutWriter, SlowWriter};
