//! The first program of each library over SQLite, as its page shows it, over files in memory.
mod banks;
mod batches;
mod days;
mod desks;
mod lives;
mod look_ups;
mod replays;
mod reports;
mod rows;
mod transactions;
mod walks;

use crate::calls::{Call, RECORD, REPLY, ask_to_the_end, is_reply, padded};
use crate::files::opened;
use bank_store::{Bank, Refused, adopt};
use banks::first_bank;
use batches::first_batch;
use desks::first_forward;
use lives::next_life;
use message_records::{Cents, Outcome, REPLY_BYTES, Reply};
use replays::first_replay;
use reports::first_reports;
use rows::first_branch;
use sqlite::{Alter, Connection};
use std::alloc::{Alloc, Global};
use std::process::Abort;
use std::test::Fail;
use transactions::first_request;
use walks::first_accounts;

const REPORTS: &str = "STATEMENT ACCOUNT 000000000001
      ordinal       moment   teller branch          delta        balance reference
            1   1795442400        1      1           +500            500
closing balance                                                      500
branches                       1
tellers                       10
accounts                       3
requests                       1
history                        1
account sum                  500
teller sum                   500
branch sum                   500
history sum                  500
unmatched                      0
CONSISTENT
";

fn are_posted(rt: &impl Abort, replies: &[[u8; REPLY_BYTES]]) {
    for reply in replies {
        is_reply(rt, reply, REPLY);
    }
}

fn has_new_balance(rt: &impl Abort, reply: &Reply) {
    assert_eq!(rt;
        (reply.outcome(), reply.balance()),
        (Outcome::Posted, Cents::new(500))
    );
}

// A branch is put into new tables, and found there.
fn over_rows<S: Alter>(rt: &impl Abort, conn: &mut Connection<S>) {
    assert!(rt; conn.is_autocommit());
    assert!(rt; matches!(first_branch(conn), Ok(Some(_))));
}

// A request is posted.
fn is_posted_first<S: Alter>(
    rt: &(impl Abort + Alloc<A = Global>),
    conn: &mut Connection<S>,
) -> Result<(), Fail> {
    assert!(rt; conn.is_autocommit());
    store_rows::create(conn)?;
    let replies = first_request(rt.alloc(), conn)?;
    assert_eq!(rt; replies.len(), 1);
    are_posted(rt, &replies);
    Ok(())
}

// It gets the same reply again, twice in one batch. The accounts have it once.
fn is_posted_once<S: Alter>(
    rt: &(impl Abort + Alloc<A = Global>),
    conn: &mut Connection<S>,
) -> Result<(), Fail> {
    assert!(rt; conn.is_autocommit());
    are_posted(rt, &first_batch(rt.alloc(), conn, &padded::<100>(RECORD))?);
    assert_eq!(rt; first_accounts(conn)?, (500, Some(4)));
    Ok(())
}

fn over_tables<S: Alter>(
    rt: &(impl Abort + Alloc<A = Global>),
    conn: &mut Connection<S>,
) -> Result<(), Fail> {
    is_posted_first(rt, conn)?;
    is_posted_once(rt, conn)
}

fn over_books<S: Alter + Drop>(
    rt: &(impl Abort + Alloc<A = Global>),
    bank: &mut Bank<S>,
) -> Result<(), Fail> {
    let mut output: Vec<u8> = Vec::new(rt.alloc());
    let is_consistent = first_reports(bank, &mut output)?;
    assert_eq!(rt;
        (is_consistent, output.as_slice()),
        (true, REPORTS.as_bytes())
    );
    assert!(rt; first_replay(bank)?);
    Ok(())
}

// A bank was stopped, and its posting is found in what a crash may have left.
fn over_lives<S: Alter + Drop>(
    rt: &(impl Abort + Alloc<A = Global>),
    stopped: &Bank<S>,
    conn: Connection<S>,
) -> Result<(), Fail> {
    assert!(rt; conn.is_autocommit());
    let mut bank = next_life(rt.alloc(), stopped, conn)?;
    ask_to_the_end(rt, &mut bank, Call::Balance);
    Ok(())
}

// A bank is made and posted to, and taken up again.
fn banked<S: Alter + Drop>(
    rt: &(impl Abort + Alloc<A = Global>),
    conn: Connection<S>,
) -> Result<Bank<S>, Fail> {
    assert!(rt; conn.is_autocommit());
    let (reply, conn) = first_bank(rt.alloc(), conn)?;
    has_new_balance(rt, &reply);
    assert!(rt; conn.is_autocommit());
    match adopt(rt.alloc(), conn) {
        Ok(bank) => Ok(bank),
        Err(Refused { fault, conn: _conn }) => Err(fault.into()),
    }
}

// The books of a bank are written. The other store was given the same calls.
fn over_bank<S: Alter + Drop>(
    rt: &(impl Abort + Alloc<A = Global>),
    bank: &mut Bank<S>,
    other: Connection<S>,
) -> Result<(), Fail> {
    over_lives(rt, bank, other)?;
    over_books(rt, bank)
}

// Over a store that holds nothing yet.
fn over_one<S: Alter + Drop>(rt: &impl Abort, mut conn: Connection<S>) {
    over_rows(rt, &mut conn);
}

fn tables_over<S: Alter + Drop>(
    rt: &(impl Abort + Alloc<A = Global>),
    mut conn: Connection<S>,
) -> Result<Connection<S>, Fail> {
    over_tables(rt, &mut conn)?;
    Ok(conn)
}

// Over two stores that hold nothing yet.
fn over_two<S: Alter + Drop>(
    rt: &(impl Abort + Alloc<A = Global>),
    two: Connection<S>,
    three: Connection<S>,
) -> Result<(), Fail> {
    let tables = tables_over(rt, two)?;
    let mut bank = banked(rt, three)?;
    over_bank(rt, &mut bank, tables)
}

#[test]
fn programs_of_the_pages(rt: HostRuntime) -> Result<(), Fail> {
    over_one(&rt, opened(&rt));
    over_two(&rt, opened(&rt), opened(&rt))
}

#[test]
fn brought_forward(rt: HostRuntime) {
    let Ok(Some(request)) = first_forward(rt.alloc()) else {
        assert!(rt; false);
        return;
    };
    assert!(rt; (request.teller().get(), request.number().get()) == (81, 1));
    assert!(rt; (request.account().get(), request.delta().get()) == (1, 500));
}
