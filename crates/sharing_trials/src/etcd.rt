//! A log over etcd, by answers that a member of version 3.4.23 gave, and by what no member gives.
use crate::first_log::first_log;
use crate::first_machine::first_machine;
use crate::scenes::{Quiet, post};
use branch_loader::Plan;
use message_records::Branch;
use posting_core::{Counter, ENTRY_BYTES, PlainBank};
use shared_log::{Dial, DialedLog, EtcdLog, SharedLog};
use std::alloc::Global;
use std::io;

const DONE: &[u8] =
    b"HTTP/1.1 200 OK\r\nContent-Type: application/json\r\nContent-Length: 234\r\n\r\n{\"header\":{\"cluster_id\":\"2960189260108865789\",\"member_id\":\"10094465519426696034\",\"revision\":\"4\",\"raft_term\":\"2\"},\"succeeded\":true,\"responses\":[{\"response_put\":{\"header\":{\"revision\":\"4\"}}},{\"response_put\":{\"header\":{\"revision\":\"4\"}}}]}";

const AT_THE_END: &[u8] =
    b"HTTP/1.1 200 OK\r\nContent-Length: 130\r\n\r\n{\"header\":{\"cluster_id\":\"2960189260108865789\",\"member_id\":\"10094465519426696034\",\"revision\":\"3\",\"raft_term\":\"2\"},\"succeeded\":true}";

const CHUNKED: &[u8] =
    b"HTTP/1.1 200 OK\r\nTransfer-Encoding: chunked\r\n\r\n190\r\n{\"header\":{\"cluster_id\":\"2960189260108865789\",\"member_id\":\"10094465519426696034\",\"revision\":\"4\",\"raft_term\":\"2\"},\"responses\":[{\"response_range\":{\"header\":{\"revision\":\"4\"},\"kvs\":[{\"key\":\"YmFuay9vZmZpY2UvbG9nLzAwMDAwMDAwMDAwMDAwMDAwMDAw\",\"create_revision\":\"4\",\"mod_revision\":\"4\",\"version\":\"1\",\"value\":\"QUFBQUFBQUFBQUFBQUFBQUFBQUFBQUFBQUFBQUFBQUFBQUFBQUFBQUFBQUFBQUFBQUFBQUFBQUFBQUFBQUFBQUFBQUFBQUFBQUFB\r\n2e7\r\nQUFBQUFBQUFBQUFBQUFBQUFBQUFBQUFBQUFBQUFBQUFBQUFBQUFBQUFBQUFBQUFBQUFBQUFBQUFBQUFBQUFBQUFBQUFBQUFBQUFBQUFBQUFBQUFBQUFBQUFBQUFBQUFBQUFBQUFBQUFBQUFBQUFBQUFBQUFBQUFBQUFBQUFBQUFBQUFBQUFBQUFBQUFBQUFBQUFBQUFBQUFBQUFBQUFBQUFBQUFBQUFBQUFBQUFBQUFBQUFBQUFBQUFBQUFBQUFBQUFBQUFBQUFBQUFBQUFBQUFBQUFBQUFBQUFBQUFBQUFBQUFBQUFBQUFCQkJCQkJCQkJCQkJCQkJCQkJCQkJCQkJCQkJCQkJCQkJCQkJCQkJCQkJCQkJCQkJCQkJCQkJCQkJCQkJCQkJCQkJCQkJCQkJCQkJCQkJCQkJCQkJCQkJCQkJCQkJCQkJCQkJCQkJCQkJCQkJCQkJCQkJCQkJCQkJCQkJCQkJCQkJCQkJCQkJCQkJCQkJCQkJCQkJCQkJCQkJCQkJCQkJCQkJCQkJCQkJCQkJCQkJCQkJCQkJCQkJCQkJCQkJCQkJCQkJCQkJCQkJCQkJCQkJCQkJCQkJCQkJCQkJCQkJCQkJCQkJCQkJCQkJCQkJCQkJCQkJCQkJCQkJCQkJCQkJCQkJCQkJCQkJCQkJCQkJCQkJCQkJCQkJCQkJCQkJCQkJCQkJCQkJCQkJCQkJCQkJCQkJCQg==\"}],\"count\":\"1\"}}]}\r\n0\r\n\r\n";

const NO_VALUE: &[u8] =
    b"HTTP/1.1 200 OK\r\nContent-Length: 174\r\n\r\n{\"header\":{\"cluster_id\":\"2960189260108865789\",\"member_id\":\"10094465519426696034\",\"revision\":\"2\",\"raft_term\":\"2\"},\"responses\":[{\"response_range\":{\"header\":{\"revision\":\"2\"}}}]}";

const HALF_AN_ENTRY: &[u8] =
    b"HTTP/1.1 200 OK\r\nContent-Length: 855\r\n\r\n{\"header\":{\"cluster_id\":\"2960189260108865789\",\"member_id\":\"10094465519426696034\",\"revision\":\"4\",\"raft_term\":\"2\"},\"responses\":[{\"response_range\":{\"header\":{\"revision\":\"4\"},\"kvs\":[{\"key\":\"YmFuay9vZmZpY2UvbG9nLzAwMDAwMDAwMDAwMDAwMDAwMDAw\",\"create_revision\":\"4\",\"mod_revision\":\"4\",\"version\":\"1\",\"value\":\"QUFBQUFBQUFBQUFBQUFBQUFBQUFBQUFBQUFBQUFBQUFBQUFBQUFBQUFBQUFBQUFBQUFBQUFBQUFBQUFBQUFBQUFBQUFBQUFBQUFBQUFBQUFBQUFBQUFBQUFBQUFBQUFBQUFBQUFBQUFBQUFBQUFBQUFBQUFBQUFBQUFBQUFBQUFBQUFBQUFBQUFBQUFBQUFBQUFBQUFBQUFBQUFBQUFBQUFBQUFBQUFBQUFBQUFBQUFBQUFBQUFBQUFBQUFBQUFBQUFBQUFBQUFBQUFBQUFBQUFBQUFBQUFBQUFBQUFBQUFBQUFBQUFBQUFBQUFBQUFBQUFBQUFBQUFBQUFBQUFBQUFBQUFBQUFBQUFBQUFBQUFBQUFBQUFBQUFBQUFBQUFBQUFBQUFBQUFBQUFBQUFBQUFBQUFCQkJCQkJCQkJCQkJCQkJCQkJCQkJCQkJCQkJCQkJCQkJCQkJCQkJCQkJCQkJCQkJCQkJCQkJCQkJCQkJCQkJCQkJCQkJCQkJCQkJCQkJCQkJCQkJCQkJCQkJCQg==\"}],\"count\":\"1\"}}]}";

const NO_QUORUM: &[u8] =
    b"HTTP/1.1 503 Service Unavailable\r\nContent-Length: 93\r\n\r\n{\"error\":\"etcdserver: request timed out\",\"message\":\"etcdserver: request timed out\",\"code\":14}";

// Prints what an append of an entry comes to, where this is answered.
fn append(rt: HostRuntime, what: &str, answer: &[u8]) -> io::Result<()> {
    let alloc = rt.alloc();
    let name = Vec::from_slice(alloc, b"office")?;
    let mut log = EtcdLog::new(alloc, name, answer, Vec::new(alloc));
    let done = log.append(&[[b'A'; ENTRY_BYTES]]);
    println!(rt;
        "append, {what}: {done:?}, {} known, cut {}",
        log.count(),
        log.is_cut()
    )
}

// Prints what a read comes to, where this is answered.
fn read(rt: HostRuntime, what: &str, answer: &[u8]) -> io::Result<()> {
    let alloc = rt.alloc();
    let name = Vec::from_slice(alloc, b"office")?;
    let mut log = EtcdLog::new(alloc, name, answer, Vec::new(alloc));
    match log.read() {
        Ok(given) => {
            let count = given.len();
            println!(rt;
                "read, {what}: {count} entries, {} known, cut {}",
                log.count(),
                log.is_cut()
            )
        }
        Err(fault) => println!(rt;
            "read, {what}: {fault:?}, {} known, cut {}",
            log.count(),
            log.is_cut()
        ),
    }
}

// Connections, each of which gives one answer.
#[derive(Drop)]
struct Recorded<'a> {
    alloc: Global,
    answers: &'a [&'a [u8]],
    next: usize,
}

impl<'a> Dial for Recorded<'a> {
    type Reader = &'a [u8];

    type Writer = Vec<u8>;

    fn dial(&mut self) -> Option<(&'a [u8], Vec<u8>)> {
        let answers = self.answers;
        let answer = *answers.get(self.next)?;
        self.next = self.next.saturating_add(1);
        Some((answer, Vec::new(self.alloc)))
    }
}

// A bank joins over a log of which connections give one answer each, and posts twice. The first posting is appended by
// the fourth connection, and nobody answers the second one.
fn play_machine(rt: HostRuntime) -> io::Result<()> {
    let alloc = rt.alloc();
    let answers = [AT_THE_END, AT_THE_END, &DONE[..0], DONE];
    let dial = Recorded {
        alloc,
        answers: &answers,
        next: 0,
    };
    let name = Vec::from_slice(alloc, b"office")?;
    let Some(log) = DialedLog::connect(alloc, name, dial) else {
        return Ok(());
    };
    let Ok(plan) = Plan::from_list(Vec::new(alloc)) else {
        return Ok(());
    };
    let mut bank = PlainBank::new(alloc);
    let _ = bank.open_branch(Branch::new(1).unwrap(), 3, None);
    match first_machine(alloc, &plan, bank, log, &mut Quiet) {
        Ok(mut machine) => {
            post(rt, "over etcd", &mut machine, 1, 500)?;
            post(rt, "over etcd, nobody answers", &mut machine, 2, 600)
        }
        Err(fault) => println!(rt; "over etcd: {fault:?}"),
    }
}

/// The scenes.
pub fn play_etcd(rt: HostRuntime) -> io::Result<()> {
    append(rt, "done", DONE)?;
    append(rt, "others there", CHUNKED)?;
    append(rt, "no such log", NO_VALUE)?;
    append(rt, "cut", &DONE[..DONE.len() - 1])?;
    append(rt, "no quorum", NO_QUORUM)?;
    append(rt, "more behind it", &[DONE, DONE].concat(rt.alloc())?)?;
    read(rt, "at the end", AT_THE_END)?;
    read(rt, "in chunks", CHUNKED)?;
    read(rt, "cut in a chunk", &CHUNKED[..CHUNKED.len() - 5])?;
    read(rt, "half an entry", HALF_AN_ENTRY)?;
    read(rt, "nothing", b"")?;
    let alloc = rt.alloc();
    let answers = [&DONE[..9], CHUNKED, AT_THE_END];
    let dial = Recorded {
        alloc,
        answers: &answers,
        next: 0,
    };
    let Some(mut log) = first_log(alloc, dial) else {
        return Ok(());
    };
    let done = log.append(&[[b'A'; ENTRY_BYTES]]);
    println!(rt; "connected, and cut: {done:?}")?;
    let count = log.read().map(|given| given.len());
    println!(rt; "connected again: {count:?}, {} known", log.count())?;
    let count = log.read().map(|given| given.len());
    println!(rt; "cut again: {count:?}, {} known", log.count())?;
    let count = log.read().map(|given| given.len());
    println!(rt; "and again: {count:?}")?;
    let count = log.read().map(|given| given.len());
    println!(rt; "nobody answers: {count:?}")?;
    play_machine(rt)
}
