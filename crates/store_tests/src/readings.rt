//! Calls that read all that was posted, on any store: what they give until it fails.
use crate::reports::{audit_fault, statement_fault};
use crate::tasks::Progress;
use bank_reports::audit;
use bank_store::{Bank, Joined, StoredPosting, StoredRequest, Walk, each_history};
use message_records::{
    Account, Branch, Cents, Moment, Number, REQUEST_BYTES, Request, Teller, encode_request,
};
use posting_core::{Counter, Fault};
use sqlite::Alter;
use std::alloc::{Alloc, Global};
use std::process::Abort;

const BATCHES: u64 = 20;

const TOGETHER: usize = 50;

const POSTINGS: u64 = 1_000;

/// What is read.
#[derive(Clone, Copy)]
pub enum Reading {
    /// The postings one after another, each with its request.
    History,
    /// The text of an audit after the first posting and a remote one.
    AuditText,
    /// The text of the statement of account 1 after them.
    Statement,
}

/// A cent to an account, by teller 1 of branch 1, under a number.
pub fn one_cent(account: u64, number: u64) -> Option<Request> {
    Request::new(
        Account::new(account)?,
        Teller::new(1).unwrap(),
        Branch::new(1).unwrap(),
        Number::new(number)?,
        Cents::new(1).unwrap(),
        None,
    )
}

// The records of cents to account 1, under the numbers after one.
fn records_after(last: u64) -> Option<[[u8; REQUEST_BYTES]; TOGETHER]> {
    let mut number = last;
    let mut records = [[b' '; 100]; TOGETHER];
    for record in &mut records {
        number = number.saturating_add(1);
        *record = encode_request(&one_cent(1, number)?);
    }
    Some(records)
}

// Posts a batch. The answer is how many replies came.
fn post_after<C: Counter>(rt: &impl Abort, bank: &mut C, last: u64) -> Result<usize, Fault> {
    let moment = Moment::new(1000).unwrap();
    let records = records_after(last).expect(rt, "request");
    Ok(bank.submit_all(moment, &records)?.len())
}

/// Posts cents to account 1, so many together.
pub fn post_many<C: Counter>(rt: &impl Abort, bank: &mut C) -> Result<(), Fault> {
    let mut number = 0u64;
    for _ in 0..BATCHES {
        assert_eq!(rt; post_after(rt, bank, number)?, TOGETHER);
        number = number.saturating_add(TOGETHER as u64);
    }
    assert_eq!(rt; number, POSTINGS);
    Ok(())
}

type Postings<'a, S> = Walk<'a, S, Joined<StoredPosting, StoredRequest>>;

// The ordinals of a posting and of the request beside it.
type Ordinals = (u64, Option<u64>);

fn next_posting<S: Alter>(walk: &mut Postings<'_, S>) -> Result<Option<Ordinals>, Fault> {
    let Some(Joined { stored, beside }) = walk.next()? else {
        return Ok(None);
    };
    let beside = beside.map(|request| request.ordinal.get());
    Ok(Some((stored.ordinal.get(), beside)))
}

// The next posting has its own request.
fn is_after(rt: &impl Abort, count: u64, found: Ordinals) {
    let ordinal = count.saturating_add(1);
    assert_eq!(rt; found, (ordinal, Some(ordinal)));
}

// How many postings a walk gives, in order and each with its request, and the fault that ended it, if one
// did.
fn given_by<S: Alter>(rt: &impl Abort, walk: &mut Postings<'_, S>) -> (u64, Option<Fault>) {
    for count in 0..=POSTINGS {
        match next_posting(walk) {
            Ok(Some(found)) => is_after(rt, count, found),
            Ok(None) => return (count, None),
            Err(fault) => {
                assert_eq!(rt; next_posting(walk), Err(Fault::Down));
                return (count, Some(fault));
            }
        }
    }
    (POSTINGS.saturating_add(1), None)
}

fn given<S: Alter>(rt: &impl Abort, bank: &mut Bank<S>) -> Result<(u64, Option<Fault>), Fault> {
    let mut walk = each_history(bank)?;
    Ok(given_by(rt, &mut walk))
}

// Whether a walk gave a row, and its fault, if it has one. Else all is there.
fn walked<S: Alter>(rt: &impl Abort, bank: &mut Bank<S>) -> (bool, Option<Fault>) {
    let (count, fault) = given(rt, bank).expect(rt, "a walk");
    assert!(rt; count == POSTINGS || fault.is_some());
    (count > 0, fault)
}

/// Whether an audit finds the bank consistent.
pub fn is_consistent<S: Alter>(bank: &mut Bank<S>) -> bool {
    match audit(bank) {
        Ok(found) => found.is_consistent(),
        Err(_) => false,
    }
}

/// Reads until that ends or the store fails. A walk is begun where a row was given. None brings the bank down,
/// but a statement, which asks for a balance first.
pub fn read<S: Alter + Drop>(
    rt: &(impl Abort + Alloc<A = Global>),
    bank: &mut Bank<S>,
    reading: Reading,
) -> Progress {
    let (is_begun, fault) = match reading {
        Reading::History => walked(rt, bank),
        Reading::AuditText => (true, audit_fault(rt, bank)),
        Reading::Statement => (true, statement_fault(rt, bank)),
    };
    assert!(rt; fault.is_none() || fault == Some(Fault::Store));
    assert!(rt; !bank.is_down() || matches!(reading, Reading::Statement));
    Progress {
        is_begun,
        is_done: fault.is_none(),
        parts: 0,
    }
}
