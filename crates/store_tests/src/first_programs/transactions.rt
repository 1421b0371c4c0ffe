//! The first program of `bank_transactions`.
ghost use Rattle.std.specs.Prelude.{◌≡◌, false};

use bank_transactions::{Memory, open_branch, post_looked_up};
use message_records::{Account, Branch, Cents, Moment, Number, Request, Teller};
use posting_batch::{Batch, Replies};
use sqlite::{Alter, Connection};
use std::alloc::Global;
use store_rows::TableFault;

pub fn first_request<S: Alter>(
    alloc: Global,
    conn: &mut Connection<S>,
) -> Result<Replies, TableFault>
    requires { conn.old.in_transaction ≡ false }
{
    open_branch(conn, Branch::new(1).unwrap(), 3, None)?;
    let request = Request::new(
        Account::new(1).unwrap(),
        Teller::new(1).unwrap(),
        Branch::new(1).unwrap(),
        Number::new(1).unwrap(),
        Cents::new(500).unwrap(),
        None,
    );
    let batch = Batch::of_one(alloc, request.unwrap());
    let moment = Moment::new(1_795_442_400).unwrap();
    post_looked_up(conn, &mut Memory::new(), moment, batch)
}
