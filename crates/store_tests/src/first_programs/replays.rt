//! The first program of `bank_replays`.
use bank_replays::{Replay, Unwatched, replay};
use bank_store::Bank;
use sqlite::Alter;
use std::test::Fail;

pub fn first_replay<S: Alter>(bank: &mut Bank<S>) -> Result<bool, Fail> {
    match replay(bank, Unwatched)? {
        Replay::Agrees(_) => Ok(true),
        Replay::Differs(_) => Ok(false),
    }
}
