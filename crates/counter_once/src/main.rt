//! A program that answers one record: it reads 100 bytes from standard input, submits them to a new bank in
//! memory with the accounts 1 to 3 and 100,001 to 100,002, and writes the 200 bytes of the reply.
//!
//! ```text
//! $ printf '%-100s' 'DC01000000000001000000010000010000000001+0000000500' | counter_once
//! DR0100000000000001000000010000010000000001+0000000500+000000000500POSTED
//! ```
//!
//! The gate runs it with this record (`stdin`), and wants this reply (`stdout`). A refusal is a reply too, and
//! ends with the status 0, as POSTED does. An input of fewer than 100 bytes gets no reply and ends with 4;
//! refused memory, a read or a write that failed ends with 3.
//!
//! Read next: `once::answer_first`, and `answer_once` of `posting_core`, which answers a record at any
//! counter; `status::exit_code`, the status that it ends with.
#![tactic(auto)]

mod once;
mod status;

use std::process::ExitCode;

fn main(rt: HostRuntime) -> ExitCode {
    status::exit_code(once::answer_first(rt.alloc(), &mut rt.stdin(), &mut rt.stdout()))
}
