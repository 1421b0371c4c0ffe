//! The first program of `bank_transactions`.
ghost use Rattle.std.specs.Prelude.{◌≡◌, false};

use bank_transactions::{Memory, post_all};
use message_records::{Moment, REQUEST_BYTES};
use posting_batch::{Batch, Replies};
use sqlite::{Alter, Connection};
use std::alloc::Global;
use std::test::Fail;

pub fn first_batch<S: Alter>(
    alloc: Global,
    conn: &mut Connection<S>,
    record: &[u8; REQUEST_BYTES],
) -> Result<Replies, Fail>
    requires { conn.old.in_transaction ≡ false }
{
    let batch = Batch::new(alloc, &[*record, *record])?;
    let moment = Moment::new(1_795_442_400).unwrap();
    Ok(post_all(conn, &mut Memory::new(), moment, batch)?)
}
