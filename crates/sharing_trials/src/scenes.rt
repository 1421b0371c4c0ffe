//! Machines that share a log, one scene after another: what each answers is printed.
use crate::cell_log::CellLog;
use crate::first_machine::first_machine;
use branch_loader::{FollowWatch, Plan};
use message_records::{
    Account, Branch, Cents, Moment, Number, REQUEST_BYTES, Request, Teller, decode_reply,
    encode_request,
};
use posting_core::{Count, Counter, PlainBank};
use shared_log::Replicated;
use std::cell::RefCell;
use std::io;

/// Who is told nothing.
#[derive(Drop)]
pub struct Quiet;

impl FollowWatch for Quiet {
    fn followed(&mut self, _entries: Count) {}
}

// Teller 1 adds so many cents to account 1.
fn record(number: u64, cents: i64) -> [u8; REQUEST_BYTES] {
    let number = Number::new(number).unwrap_or(Number::new(1).unwrap());
    let cents = Cents::new(cents).unwrap_or(Cents::zero());
    match Request::new(
        Account::new(1).unwrap(),
        Teller::new(1).unwrap(),
        Branch::new(1).unwrap(),
        number,
        cents,
        None,
    ) {
        Some(request) => encode_request(&request),
        None => [b' '; REQUEST_BYTES],
    }
}

/// Submits a record, and prints who answered what.
pub fn post<C: Counter>(
    rt: HostRuntime,
    who: &str,
    counter: &mut C,
    number: u64,
    cents: i64,
) -> io::Result<()> {
    match counter.submit(Moment::new(1).unwrap(), &record(number, cents)) {
        Ok(reply) => match decode_reply(&reply) {
            Ok(reply) => {
                let outcome = reply.outcome();
                println!(rt; "{who}: {number} {outcome}")
            }
            Err(_) => println!(rt; "{who}: {number} no reply"),
        },
        Err(fault) => println!(rt; "{who}: {number} {fault}"),
    }
}

// Prints the balance of account 1 in cents, or why it isn't told.
fn tell_balance<C: Counter>(rt: HostRuntime, who: &str, counter: &mut C) -> io::Result<()> {
    match counter.balance(Account::new(1).unwrap()) {
        Ok(Some(balance)) => println!(rt; "{who}: balance {balance}"),
        Ok(None) => println!(rt; "{who}: no account"),
        Err(fault) => println!(rt; "{who}: {fault}"),
    }
}

// A machine with a bank and a sight of the log, which went as far as it and sent what it has.
fn joined<'l>(
    rt: HostRuntime,
    who: &str,
    plan: &Plan,
    bank: PlainBank,
    log: CellLog<'l>,
) -> io::Result<Option<Replicated<PlainBank, CellLog<'l>>>> {
    match first_machine(rt.alloc(), plan, bank, log, &mut Quiet) {
        Ok(machine) => {
            println!(rt; "{who} joined")?;
            Ok(Some(machine))
        }
        Err(fault) => {
            println!(rt; "{who}: {fault:?}")?;
            Ok(None)
        }
    }
}

/// The scenes.
pub fn play(rt: HostRuntime) -> io::Result<()> {
    let alloc = rt.alloc();
    let rows = vec![in alloc; (Branch::new(1).unwrap(), 3u32, None); 1]?;
    let Ok(plan) = Plan::from_list(rows) else {
        return Ok(());
    };
    let entries = RefCell::new(Vec::new(alloc));
    let mut early = Replicated::new(PlainBank::new(alloc), CellLog::of(alloc, &entries));
    post(rt, "before it joined", &mut early, 1, 500)?;
    let mut first = PlainBank::new(alloc);
    let _ = first.open_branch(Branch::new(1).unwrap(), 3, None);
    let mut log = CellLog::of(alloc, &entries);
    log.unanswered = 1;
    let Some(mut first) = joined(rt, "first", &plan, first, log)? else {
        return Ok(());
    };
    post(rt, "first, not answered once", &mut first, 1, 500)?;
    post(rt, "first", &mut first, 2, 600)?;
    let log = CellLog::of(alloc, &entries);
    let Some(mut second) = joined(rt, "second", &plan, PlainBank::new(alloc), log)? else {
        return Ok(());
    };
    post(rt, "second, sent again", &mut second, 2, 600)?;
    post(rt, "second", &mut second, 3, 700)?;
    post(rt, "first, behind, sent again", &mut first, 2, 600)?;
    post(rt, "first, behind", &mut first, 4, 800)?;
    post(rt, "first, down", &mut first, 2, 600)?;
    tell_balance(rt, "first, down", &mut first)?;
    let (bank, _log) = first.into_parts();
    let log = CellLog::of(alloc, &entries);
    let _other = joined(rt, "first, with a tail of its own", &plan, bank, log)?;
    let mut alone = PlainBank::new(alloc);
    let _ = alone.open_branch(Branch::new(1).unwrap(), 3, None);
    post(rt, "alone", &mut alone, 1, 500)?;
    post(rt, "alone", &mut alone, 2, 600)?;
    post(rt, "alone", &mut alone, 3, 700)?;
    post(rt, "alone", &mut alone, 5, 900)?;
    let log = CellLog::of(alloc, &entries);
    let _third = joined(rt, "alone, one further", &plan, alone, log)?;
    let log = CellLog::of(alloc, &entries);
    let Some(mut last) = joined(rt, "last", &plan, PlainBank::new(alloc), log)? else {
        return Ok(());
    };
    tell_balance(rt, "last", &mut last)
}
