//! What balances, statements, audits and replays have to say after parts of a history.
use super::asking::{End, end_of};
use super::history::{Given, Part};
use crate::replayed::replay_of;
use crate::sums::Entry;
use bank_replays::{Agreed, Replay};
use bank_reports::{ReportFault, audit, write_statement};
use bank_store::Bank;
use message_records::Account;
use posting_core::first_account;
use sqlite::Alter;
use std::alloc::{AllocError, Global};

// Whether an account is open after these parts.
fn is_open(parts: &[Part], account: Account) -> bool {
    parts.iter().any(|part| match part.given {
        Given::Branch(branch, accounts, _) => {
            let place = account.get().checked_sub(first_account(branch));
            matches!(place, Some(place) if place < u64::from(accounts))
        }
        Given::Record(_) => false,
    })
}

// What a part posts to an account, if it does.
fn posting<'a>(part: &'a Part, account: Account) -> Option<&'a Entry> {
    let entry = part.entry.as_ref()?;
    let number = i64::try_from(account.get()).unwrap_or(0);
    if entry.is_posted() && entry.account == number {
        Some(entry)
    } else {
        None
    }
}

/// The balance of an account, none if it isn't open.
pub fn balance_after(parts: &[Part], account: Account) -> Option<i64> {
    if !is_open(parts, account) {
        return None;
    }
    let mut balance = 0i64;
    for part in parts {
        if let Some(entry) = posting(part, account) {
            balance = balance.wrapping_add(entry.delta);
        }
    }
    Some(balance)
}

fn add_heading(alloc: Global, text: &mut Vec<u8>, account: Account) -> Result<(), AllocError> {
    let number = account.get();
    let line = format!(in alloc; "STATEMENT ACCOUNT {number:012}\n")?;
    text.extend_from_slice(line.as_bytes())?;
    text.extend_from_slice(
        b"      ordinal       moment   teller branch          delta        balance reference\n",
    )
}

fn add_line(
    alloc: Global,
    text: &mut Vec<u8>,
    entry: &Entry,
    balance: i64,
) -> Result<(), AllocError> {
    let sign = if entry.delta < 0 { "-" } else { "+" };
    let amount = entry.delta.unsigned_abs();
    let delta = format!(in alloc; "{sign}{amount}")?;
    let delta = delta.as_str();
    let [ordinal, teller, branch] = [entry.ordinal, entry.teller, entry.branch];
    let line = format!(in alloc;
        "{ordinal:>13} {:>12} {teller:>8} {branch:>6} {delta:>14} {balance:>14}",
        0
    )?;
    text.extend_from_slice(line.as_bytes())?;
    if let Some(reference) = &entry.reference {
        text.push(b' ')?;
        text.extend_from_slice(reference)?;
    }
    text.extend_from_slice(b"\n")
}

/// The statement of an account, none if it isn't open.
pub fn statement_after(
    alloc: Global,
    parts: &[Part],
    account: Account,
) -> Result<Option<Vec<u8>>, AllocError> {
    if !is_open(parts, account) {
        return Ok(None);
    }
    let mut text = Vec::new(alloc);
    add_heading(alloc, &mut text, account)?;
    let mut balance = 0i64;
    for part in parts {
        if let Some(entry) = posting(part, account) {
            balance = balance.wrapping_add(entry.delta);
            add_line(alloc, &mut text, entry, balance)?;
        }
    }
    let closing = format!(in alloc; "{:<57} {balance:>14}\n", "closing balance")?;
    text.extend_from_slice(closing.as_bytes())?;
    Ok(Some(text))
}

// How a statement ended that wrote these bytes.
fn stated(wanted: &Option<Vec<u8>>, text: &[u8], ended: Result<(), ReportFault>) -> End {
    match (wanted, ended) {
        (Some(whole), Ok(())) if whole.as_slice() == text => End::Done,
        (None, Err(ReportFault::NoAccount)) if text.is_empty() => End::Done,
        (Some(whole), Err(ReportFault::Bank(fault))) if whole.starts_with(text) => end_of(fault),
        (None, Err(ReportFault::Bank(fault))) if text.is_empty() => end_of(fault),
        _ => End::Differs("a statement"),
    }
}

/// Asks for a statement.
pub fn state<S: Alter + Drop>(
    alloc: Global,
    bank: &mut Bank<S>,
    account: Account,
    wanted: &Option<Vec<u8>>,
) -> End {
    let mut text: Vec<u8> = Vec::new(alloc);
    let ended = write_statement(bank, account, &mut text);
    stated(wanted, text.as_slice(), ended)
}

// How many requests are decided and posted after these parts, and what all accounts have.
fn totals(parts: &[Part]) -> (u64, u64, i128) {
    let mut requests = 0u64;
    let mut postings = 0u64;
    let mut sum = 0i64;
    for entry in parts.iter().filter_map(|part| part.entry.as_ref()) {
        requests = requests.saturating_add(1);
        if entry.is_posted() {
            postings = postings.saturating_add(1);
            sum = sum.wrapping_add(entry.delta);
        }
    }
    (requests, postings, i128::from(sum))
}

/// Asks for an audit. The books agree, and have what the parts lead to.
pub fn audit_after<S: Alter>(bank: &mut Bank<S>, parts: &[Part]) -> End {
    match audit(bank) {
        Ok(audit) => {
            let found = (audit.requests, audit.history, audit.account_sum);
            if audit.is_consistent() && found == totals(parts) {
                End::Done
            } else {
                End::Differs("an audit")
            }
        }
        Err(fault) => end_of(fault),
    }
}

/// Replays a bank. It agrees, and keeps as many requests as the first parts lead to, or more, up to those of all parts.
pub fn replay_between<S: Alter>(bank: &mut Bank<S>, first: &[Part], all: &[Part]) -> End {
    let (least, _, _) = totals(first);
    let (most, _, _) = totals(all);
    match replay_of(bank) {
        Ok(Replay::Agrees(Agreed { digest, .. }))
            if digest.requests >= least && digest.requests <= most => { End::Done }
        Ok(_) => End::Differs("a replay"),
        Err(fault) => end_of(fault),
    }
}
