//! What no scenario shows of judging: the verdict at the last free ordinal and after it.
use message_records::{Account, Branch, Cents, Number, Outcome, Reply, Request, Teller};
use posting_core::{Books, Found, Kept, Verdict, judge};

// One cent to account 1, by teller 1 of branch 1, under the number 1.
fn one_cent() -> Request {
    let account = Account::new(1).unwrap();
    let teller = Teller::new(1).unwrap();
    let branch = Branch::new(1).unwrap();
    let number = Number::new(1).unwrap();
    let delta = Cents::new(1).unwrap();
    Request::new(account, teller, branch, number, delta, None).unwrap()
}

#[test]
fn the_full_bank(rt: HostRuntime) {
    let (zero, one) = (Cents::zero(), Cents::new(1).unwrap());
    let record = one_cent();
    let mut found = Found {
        teller: Some((zero, zero)),
        kept: None,
        books: Books::Current,
        decided: 1_000_000_000_000,
        account: Some(zero),
        floor: None,
    };
    let full = Verdict::Unkept(Outcome::Full);
    assert!(rt; judge(&found, &record) == full);
    found.decided = 999_999_999_999;
    let posted = Verdict::Posted {
        account: one,
        teller: one,
        branch: one,
    };
    assert!(rt; judge(&found, &record) == posted);
}

// A full bank whose books are sealed too gives a kept request its first reply.
#[test]
fn a_repeat_comes_first(rt: HostRuntime) {
    let one = Cents::new(1).unwrap();
    let record = one_cent();
    let (account, branch) = (record.account(), record.branch());
    let found = Found {
        teller: Some((one, one)),
        kept: Kept::new(account, branch, one, Outcome::Posted, one, None),
        books: Books::Sealed,
        decided: 1_000_000_000_000,
        account: Some(one),
        floor: None,
    };
    let first = Reply::new(Outcome::Posted, Some(record), Some(one)).unwrap();
    assert!(rt; judge(&found, &record) == Verdict::Again(first));
}
