//! The first program of `posting_rules`.
use message_records::{Account, Branch, Cents, Number, Request, Teller};
use posting_rules::{Books, Found, Verdict, judge, reply_to};

pub fn first_verdict(balance: Option<Cents>) -> (Verdict, Option<Cents>) {
    let (account, teller) = (Account::new(1).unwrap(), Teller::new(1).unwrap());
    let (branch, number) = (Branch::new(1).unwrap(), Number::new(1).unwrap());
    let (zero, delta) = (Cents::zero(), Cents::new(500).unwrap());
    let request = Request::new(account, teller, branch, number, delta, None).unwrap();
    let found = Found {
        teller: Some((zero, zero)), // the balances of the teller and of its branch
        kept: None,
        books: Books::Current,
        decided: 0,
        account: balance,
        floor: None,
    };
    let verdict = judge(&found, &request);
    (verdict, reply_to(&found, &request, &verdict).balance())
}
