//! The first program of `bank_store`.
ghost use Rattle.std.specs.Prelude.{◌≡◌, false};

use bank_store::{
    Account, Branch, Cents, Counter, Moment, Number, Refused, Reply, Request, Teller, create,
    decode_reply, encode_request,
};
use sqlite::{Alter, Connection};
use std::alloc::Global;
use std::test::Fail;

pub fn first_bank<S: Alter + Drop>(
    alloc: Global,
    conn: Connection<S>,
) -> Result<(Reply, Connection<S>), Fail>
    requires { conn.in_transaction ≡ false }
{
    let mut bank = match create(alloc, conn) {
        Ok(bank) => bank,
        Err(Refused { fault, conn: _conn }) => return Err(fault.into()),
    };
    bank.open_branch(Branch::new(1).unwrap(), 3, None)?;
    let request = Request::new(
        Account::new(1).unwrap(),
        Teller::new(1).unwrap(),
        Branch::new(1).unwrap(),
        Number::new(1).unwrap(),
        Cents::new(500).unwrap(),
        None,
    );
    let record = encode_request(&request.unwrap());
    let reply = bank.submit(Moment::new(1_795_442_400).unwrap(), &record)?;
    Ok((decode_reply(&reply)?, bank.release()))
}
