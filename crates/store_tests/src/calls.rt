//! What a bank is asked for as a counter.
use crate::cases::{Case, work_on};
use crate::readings::post_many;
use crate::reports::{Cent, post_cent};
use bank_scenarios::{Came, End};
use bank_store::Bank;
use message_records::{Account, Cents, REPLY_BYTES};
use posting_core::{Counter, Fault, Followed};
use sqlite::Alter;
use std::alloc::{Alloc, Global};
use std::process::Abort;

/// A posting of 500 cents to account 1, by teller 1 of branch 1.
pub const RECORD: &str = "DC01000000000001000000010000010000000001+0000000500";

/// The reply to it.
pub const REPLY: &str = "DR0100000000000001000000010000010000000001+0000000500+000000000500POSTED";

/// What a bank is asked for.
#[derive(Clone, Copy)]
pub enum Call<'a> {
    /// What a case has for it.
    Case(&'a Case<'a>),
    /// 1,000 postings.
    Postings,
    /// The last of so many cents.
    Cent(Cent),
    /// The balance of account 1, which is 500.
    Balance,
}

/// The text, and spaces after it.
pub fn padded<const SIZE: usize>(text: &str) -> [u8; SIZE] {
    let mut bytes = [b' '; SIZE];
    for (place, byte) in bytes.iter_mut().zip(text.as_bytes()) {
        *place = *byte;
    }
    bytes
}

/// Tests that the reply is this text.
pub fn is_reply(rt: &impl Abort, reply: &[u8; REPLY_BYTES], text: &str) {
    assert_eq!(rt; *reply, padded::<200>(text));
}

fn has_balance<C: Counter>(rt: &impl Abort, bank: &mut C) {
    assert_eq!(rt; bank.balance(Account::new(1).unwrap()), Ok(Cents::new(500)));
}

// What came of a call that is one part.
fn came_of(done: Result<(), Fault>) -> Came {
    match done {
        Ok(()) => Came::all(1),
        Err(fault) => Came::until(0, fault),
    }
}

// Makes a call of any counter.
fn make_call<C: Followed>(rt: &(impl Abort + Alloc<A = Global>), bank: &mut C, call: Call) -> Came {
    match call {
        Call::Case(case) => work_on(rt.alloc(), bank, case).expect(rt, "memory"),
        Call::Postings => came_of(post_many(rt, bank)),
        Call::Cent(cent) => came_of(post_cent(rt, bank, cent)),
        Call::Balance => {
            has_balance(rt, bank);
            Came::all(1)
        }
    }
}

/// Asks a bank. That a bank in a store is a counter is used here alone: it costs each function that uses it.
pub fn ask<S: Alter + Drop>(
    rt: &(impl Abort + Alloc<A = Global>),
    bank: &mut Bank<S>,
    call: Call,
) -> Came {
    make_call(rt, bank, call)
}

/// Asks a bank that doesn't stop.
pub fn ask_to_the_end<S: Alter + Drop>(
    rt: &(impl Abort + Alloc<A = Global>),
    bank: &mut Bank<S>,
    call: Call,
) {
    assert!(rt; ask(rt, bank, call).end == End::Done);
}
