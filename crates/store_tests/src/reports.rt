//! Reports to a writer that refuses after so many bytes.
use crate::calls::{Call, ask_to_the_end};
use crate::readings::one_cent;
use crate::stops::made;
use crate::tasks::{BRANCHES, Task};
use bank_reports::{ReportFault, audit, write_statement};
use bank_store::Bank;
use failing_ends::CutWriter;
use message_records::{
    Account, Cents, Moment, Outcome, Reply, Request, encode_reply, encode_request,
};
use posting_core::{Counter, Fault};
use report_contents::{Audit, WriteFault, write_audit};
use sqlite::Alter;
use std::alloc::{Alloc, Global};
use std::io::ErrorKind;
use std::process::Abort;

// The audit of a bank with the first posting and a remote one.
const AUDIT: &[u8] = b"branches                       2
tellers                       20
accounts                       5
requests                       2
history                        2
account sum                 -200
teller sum                  -200
branch sum                  -200
history sum                 -200
unmatched                      0
CONSISTENT
";

// The statement of account 1 there.
const STATEMENT: &[u8] = b"STATEMENT ACCOUNT 000000000001
      ordinal       moment   teller branch          delta        balance reference
            1            0        1      1           +500            500 RENT MAY            
closing balance                                                      500
";

// Takes so many bytes, and then fails.
fn cut_after(alloc: Global, most: usize) -> CutWriter {
    CutWriter {
        taken: Vec::new(alloc),
        most,
        fault: Some(ErrorKind::BrokenPipe),
        writes: 0,
    }
}

// The reply that it was posted.
fn posted(request: Request, balance: u32) -> Option<Reply> {
    let balance = Cents::new(i64::from(balance))?;
    Reply::new(Outcome::Posted, Some(request), Some(balance))
}

/// A cent to an account under a number, which is the last of so many that it gets.
#[derive(Clone, Copy)]
pub struct Cent {
    account: u64,
    number: u64,
    count: u32,
}

/// Posts the cent. Its reply is that it was posted.
pub fn post_cent<C: Counter>(rt: &impl Abort, bank: &mut C, cent: Cent) -> Result<(), Fault> {
    let request = one_cent(cent.account, cent.number).expect(rt, "request");
    let wanted = posted(request, cent.count).expect(rt, "reply");
    let reply = bank.submit(Moment::new(1000).unwrap(), &encode_request(&request))?;
    assert_eq!(rt; reply, encode_reply(&wanted));
    Ok(())
}

fn post<S: Alter + Drop>(
    rt: &(impl Abort + Alloc<A = Global>),
    bank: &mut Bank<S>,
    account: u64,
    number: u64,
    count: u32,
) {
    let cent = Cent {
        account,
        number,
        count,
    };
    ask_to_the_end(rt, bank, Call::Cent(cent));
}

fn account() -> Account {
    Account::new(1).unwrap()
}

fn statement_of<S: Alter + Drop>(
    rt: &(impl Abort + Alloc<A = Global>),
    bank: &mut Bank<S>,
) -> Vec<u8> {
    let mut whole = Vec::new(rt.alloc());
    assert_eq!(rt; write_statement(bank, account(), &mut whole), Ok(()));
    whole
}

/// The fault of an audit, if it has one. Else its text is that of the first posting and a remote one.
pub fn audit_fault<S: Alter + Drop>(
    rt: &(impl Abort + Alloc<A = Global>),
    bank: &mut Bank<S>,
) -> Option<Fault> {
    let found = match audit(bank) {
        Ok(found) => found,
        Err(fault) => return Some(fault),
    };
    let mut text = Vec::new(rt.alloc());
    assert_eq!(rt; write_audit(&found, &mut text), Ok(()));
    assert_eq!(rt; text.as_slice(), AUDIT);
    None
}

// What was written is the statement, or its prefix at a fault.
fn fault_of(rt: &impl Abort, text: &[u8], written: Result<(), ReportFault>) -> Option<Fault> {
    match written {
        Ok(()) => {
            assert_eq!(rt; text, STATEMENT);
            None
        }
        Err(ReportFault::Bank(fault)) => {
            assert!(rt; STATEMENT.starts_with(text));
            Some(fault)
        }
        Err(fault) => panic!(rt; "{fault}"),
    }
}

/// The fault of the statement of account 1, if it has one. Else it is that of a posting of 500 cents.
pub fn statement_fault<S: Alter + Drop>(
    rt: &(impl Abort + Alloc<A = Global>),
    bank: &mut Bank<S>,
) -> Option<Fault> {
    let mut text = Vec::new(rt.alloc());
    let written = write_statement(bank, account(), &mut text);
    fault_of(rt, &text, written)
}

// A writer that refuses after these bytes of the statement took them.
fn statement_is_cut_to<S: Alter + Drop>(
    rt: &(impl Abort + Alloc<A = Global>),
    bank: &mut Bank<S>,
    text: &[u8],
) {
    let mut writer = cut_after(rt.alloc(), text.len());
    let written = write_statement(bank, account(), &mut writer);
    assert_eq!(rt;
        (written, writer.taken.as_slice()),
        (Err(ReportFault::Write), text)
    );
}

// The statement of account 1 to a writer that refuses after so many bytes, for each number of them, and a
// posting to account 2 after it.
fn statement_is_cut<S: Alter + Drop>(
    rt: &(impl Abort + Alloc<A = Global>),
    bank: &mut Bank<S>,
    whole: &[u8],
) {
    let mut count = 0u32;
    for most in 0..=whole.len() {
        statement_is_cut_to(rt, bank, &whole[..most]);
        count = count.saturating_add(1);
        post(rt, bank, 2, u64::from(count) + 2, count);
    }
    assert!(rt; count > 300);
}

// A writer that refuses after these bytes of an audit's text took them.
fn audit_is_cut_to(rt: &(impl Abort + Alloc<A = Global>), found: &Audit, text: &[u8]) {
    let mut writer = cut_after(rt.alloc(), text.len());
    let written = write_audit(found, &mut writer);
    assert_eq!(rt; (written, writer.taken.as_slice()), (Err(WriteFault), text));
}

fn audit_is_cut(rt: &(impl Abort + Alloc<A = Global>), found: &Audit, whole: &[u8]) {
    assert!(rt; whole.len() > 300);
    for most in 0..=whole.len() {
        audit_is_cut_to(rt, found, &whole[..most]);
    }
}

// The same of an audit's text.
fn audit_of_bank_is_cut<S: Alter + Drop>(
    rt: &(impl Abort + Alloc<A = Global>),
    bank: &mut Bank<S>,
) {
    let found = audit(bank).expect(rt, "an audit");
    let mut whole = Vec::new(rt.alloc());
    assert_eq!(rt; write_audit(&found, &mut whole), Ok(()));
    audit_is_cut(rt, &found, &whole);
}

/// Cuts the reports of a bank with two postings to account 1.
pub fn reports_are_cut<S: Alter + Drop>(rt: &(impl Abort + Alloc<A = Global>), bank: &mut Bank<S>) {
    post(rt, bank, 1, 1, 1);
    post(rt, bank, 1, 2, 2);
    let statement = statement_of(rt, bank);
    statement_is_cut(rt, bank, &statement);
    audit_of_bank_is_cut(rt, bank);
}

#[test]
fn reports_to_a_writer_that_refuses(rt: HostRuntime) {
    let _left = made(&rt, &[Task::Make(BRANCHES), Task::Report]);
}
