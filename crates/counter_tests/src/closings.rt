//! Closed books: their numbers are refused, what is kept gets its first reply, and a seal decides nothing more; and new
//! books that begin with the balances of old ones by postings of a desk.
use carried_books::{Forward, Lack};
use message_records::{
    Account, Branch, Cents, Moment, Number, Outcome, REPLY_BYTES, Request, Teller, decode_reply,
    encode_request,
};
use posting_core::{Closing, ClosingRow, Counter, PlainBank, branch_of_teller};
use posting_rules::NumberRuns;
use std::alloc::{AllocError, Global};

// The outcome of a cent to account 1, by teller 1 of branch 1, under this number.
fn cent_under<C: Counter>(bank: &mut C, number: u64) -> Option<Outcome> {
    let (account, teller) = (Account::new(1)?, Teller::new(1)?);
    let (branch, number) = (Branch::new(1)?, Number::new(number)?);
    let request = Request::new(account, teller, branch, number, Cents::new(1)?, None)?;
    let reply: [u8; REPLY_BYTES] = bank
        .submit(Moment::new(7)?, &encode_request(&request))
        .ok()?;
    Some(decode_reply(&reply).ok()?.outcome())
}

#[test]
fn closed_books(rt: HostRuntime) {
    let mut bank = PlainBank::new(rt.alloc());
    let teller = Teller::new(1).unwrap();
    let (three, four) = (Number::new(3).unwrap(), Number::new(4).unwrap());
    let (five, six) = (Number::new(5).unwrap(), Number::new(6).unwrap());
    let opened = bank.open_branch(Branch::new(1).unwrap(), 1, None);
    assert!(rt; opened.is_ok());
    assert!(rt; cent_under(&mut bank, 5) == Some(Outcome::Posted));
    assert!(rt; bank.close_numbers(teller, three, five) == Ok(Closing::Closed));
    assert!(rt; bank.close_numbers(teller, four, five) == Ok(Closing::Already));
    assert!(rt; bank.close_numbers(teller, five, six) == Ok(Closing::Overlaps));
    let outcomes = [
        (4, Outcome::Closed),
        (5, Outcome::Posted),
        (6, Outcome::Posted),
    ];
    for (number, outcome) in outcomes {
        assert!(rt; cent_under(&mut bank, number) == Some(outcome));
    }
    assert!(rt; bank.seal() == Ok(Closing::Closed));
    assert!(rt; bank.seal() == Ok(Closing::Already));
    let outcomes = [
        (4, Outcome::Closed),
        (6, Outcome::Posted),
        (7, Outcome::Sealed),
    ];
    for (number, outcome) in outcomes {
        assert!(rt; cent_under(&mut bank, number) == Some(outcome));
    }
}

// Teller, number, account and cents.
type Cash = (u64, u64, u64, i64);

// The outcome of a posting, and the account's new balance.
fn told<C: Counter>(
    bank: &mut C,
    (teller, number, account, cents): Cash,
) -> Option<(Outcome, i64)> {
    let (teller, number) = (Teller::new(teller)?, Number::new(number)?);
    let request = Request::new(
        Account::new(account)?,
        teller,
        Branch::new(branch_of_teller(teller))?,
        number,
        Cents::new(cents)?,
        None,
    )?;
    let reply: [u8; REPLY_BYTES] = bank
        .submit(Moment::new(7)?, &encode_request(&request))
        .ok()?;
    let reply = decode_reply(&reply).ok()?;
    Some((
        reply.outcome(),
        reply.balance().map_or(0, |cents| cents.get()),
    ))
}

// What the first year posts.
const FIRST_YEAR: [Cash; 2] = [(1, 1, 1, 500), (1, 2, 1, -200)];

// The balances that it leaves, and the numbers that it used.
fn brought_forward(alloc: Global) -> Result<Forward, AllocError> {
    let (account, teller) = (Account::new(1).unwrap(), Teller::new(1).unwrap());
    let (first, last) = (Number::new(1).unwrap(), Number::new(2).unwrap());
    let mut used = Vec::new(alloc);
    used.push(ClosingRow::of_numbers(teller, first, last))?;
    let used = NumberRuns::of(alloc, used)?;
    let mut forward = Forward::new(alloc, Branch::new(9_999).unwrap(), used, 0);
    forward.add(Lack::Account(account, 300))?;
    forward.add(Lack::Teller(teller, 10_000_000_000, 300))?;
    Ok(forward)
}

// A bank with branch 1 and the desk, after these postings.
fn bank_after(alloc: Global, postings: &[Cash]) -> Option<PlainBank> {
    let mut bank = PlainBank::new(alloc);
    for branch in [1, 9_999] {
        bank.open_branch(Branch::new(branch)?, 1, None).ok()?;
    }
    for posting in postings {
        let (Outcome::Posted, _) = told(&mut bank, *posting)? else {
            return None;
        };
    }
    Some(bank)
}

#[test]
fn a_second_year(rt: HostRuntime) {
    let mut one = bank_after(rt.alloc(), &FIRST_YEAR).expect(&rt, "one bank");
    let mut new = bank_after(rt.alloc(), &[]).expect(&rt, "new books");
    let mut forward = brought_forward(rt.alloc()).expect(&rt, "memory");
    for _ in 0..3 {
        let request = forward.next_posting().expect(&rt, "a posting");
        let reply = new.submit(Moment::new(7).unwrap(), &encode_request(&request));
        let reply = decode_reply(&reply.expect(&rt, "a reply")).expect(&rt, "a reply");
        assert!(rt; reply.outcome() == Outcome::Posted);
    }
    assert!(rt; forward.next_posting().is_none());
    let (first, last) = (Number::new(1).unwrap(), Number::new(2).unwrap());
    let closed = new.close_numbers(Teller::new(1).unwrap(), first, last);
    assert!(rt; closed == Ok(Closing::Closed));
    // What the first year decided is never decided again, and what comes then is decided as by the one bank.
    assert!(rt; told(&mut new, FIRST_YEAR[0]) == Some((Outcome::ReusedNumber, 0)));
    assert!(rt; told(&mut new, FIRST_YEAR[1]) == Some((Outcome::Closed, 0)));
    for posting in [(1, 3, 1, 1), (2, 1, 1, -400), (1, 3, 1, 1), (1, 4, 2, 1)] {
        assert!(rt; told(&mut new, posting) == told(&mut one, posting));
    }
}
