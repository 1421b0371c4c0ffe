//! What the replay of a bank in tables says.
use bank_replays::{Agreed, Replay, Unwatched, replay};
use bank_store::Bank;
use posting_core::Fault;
use sqlite::Alter;
use std::alloc::{AllocError, Global};

// The digits of a digest.
fn digits_of(alloc: Global, sha256: &[u8]) -> Result<String, AllocError> {
    let mut digits = String::new(alloc);
    for byte in sha256 {
        let two = format!(in alloc; "{byte:02x}")?;
        digits.push_str(two.as_str())?;
    }
    Ok(digits)
}

fn agreed(alloc: Global, found: &Agreed) -> Result<String, AllocError> {
    let digits = digits_of(alloc, &found.digest.sha256)?;
    let plan = digits_of(alloc, &found.plan)?;
    let requests = found.digest.requests;
    format!(in alloc; "agrees: requests {requests} digest {digits} plan {plan}")
}

/// Replays a bank. That `replay` is called here alone keeps the proofs of those who replay short.
pub fn replay_of<S: Alter>(bank: &mut Bank<S>) -> Result<Replay, Fault> {
    replay(bank, Unwatched)
}

/// Replays the bank, and returns how many requests it keeps, their digest and the plan's, or the first difference.
pub fn replayed<S: Alter>(alloc: Global, bank: &mut Bank<S>) -> Result<String, AllocError> {
    match replay_of(bank) {
        Ok(Replay::Agrees(found)) => agreed(alloc, &found),
        Ok(Replay::Differs(difference)) => difference.to_string(alloc),
        Err(fault) => fault.to_string(alloc),
    }
}
