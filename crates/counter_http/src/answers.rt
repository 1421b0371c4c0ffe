//! The answer to each message.
ghost use Rattle.std.specs.Prelude.{◌≡◌, [], ℕ, List, take, true, Err, IfOk, OnOk, string_bytes};
ghost use Rattle.std.specs.Io.KnownBytes.{Appends};
ghost use Rattle.posting_rules.specs.believed.Commands.{Command};
ghost use Rattle.posting_rules.specs.Counter.{StaysByTables};
ghost use Rattle.posting_rules.specs.believed.Counter.{Answers, IsCounterCall, ShowsLog};
ghost use Rattle.counter_http.specs.believed.Answers.{refusal, answer_text, shows, unavailable, is_posting};
ghost use Rattle.counter_http.specs.believed.Answers.{balance_answer, entries_answer};
ghost use Rattle.counter_http.specs.Holders.{balance_of, holder_line};
ghost use Rattle.counter_http.specs.Listing.{answer_with, listing_answer};
ghost use Rattle.posting_core.specs.believed.LogEntries.{entries_given};
ghost use Rattle.counter_http.specs.Ends.{SendsAs};
ghost use Rattle.counter_http.specs.Next.{asked};
ghost use Rattle.counter_http.specs.Asking.{said_in, SendsReading};
ghost use Rattle.counter_http.specs.Telling.{said};
ghost use Rattle.counter_http.specs.Turns.{IsAsked, IsSentAs, IsTellingOf, TurnIsDealtWith};

use crate::fault::ServeFault;
use crate::fixed::{bad_request, not_found, unavailable};
use crate::holders::Holder;
use crate::lines::{Listing, all_lines, line_of_holder};
use crate::next::{Whole, is_head};
use crate::routes::Routes;
use crate::tasks::{Task, task_of};
use crate::telling::{Response, tell};
use http::StatusCode;
use message_records::{Cents, REQUEST_BYTES};
use posting_core::{Clock, Counter, Fault, Followed, Sink};
use std::alloc::Global;

/// Answers a 400, after which the connection ends.
pub(crate) fn refuse<W: Sink>(writer: &mut W, shows_body: bool) -> Result<(), ServeFault>
    ensures { IsSentAs (W.contents writer.old) (W.contents writer.new) (W.calls writer.old)
        (W.calls writer.new) (refusal shows_body) result }
{
    match tell(writer, &bad_request(), shows_body, true) {
        Ok(()) => Ok(()),
        Err(_) => Err(ServeFault::Write),
    }
}

// Answers a message.
fn say<W: Sink>(
    message: &Whole<'_>,
    response: &Response<'_>,
    writer: &mut W,
) -> Result<(), ServeFault>
    ensures { IsSentAs (W.contents writer.old) (W.contents writer.new) (W.calls writer.old)
        (W.calls writer.new)
        (answer_text (said response.now) (shows (asked message.now)) message.now.closes) result }
{
    match tell(writer, response, !is_head(message.method), message.closes) {
        Ok(()) => Ok(()),
        Err(_) => Err(ServeFault::Write),
    }
}

// Answers a 503, and tells the fault of the bank, or that of the writer.
fn fail<W: Sink>(message: &Whole<'_>, fault: Fault, writer: &mut W) -> ServeFault
    ensures written { (n : ℕ) × Appends (W.contents writer.old) (W.contents writer.new)
        (take n (unavailable (asked message.now)))
        × IsTellingOf fault result n (unavailable (asked message.now)) }
    ensures ends { SendsAs (Err result) (W.calls writer.old) (W.calls writer.new) }
{
    match tell(writer, &unavailable(), !is_head(message.method), true) {
        Ok(()) => ServeFault::Bank(fault),
        Err(_) => ServeFault::Write,
    }
}

// Submits the record of a message, and answers with the reply.
fn answer_posting<W: Sink, K: Clock, C: Counter>(
    message: &Whole<'_>,
    bytes: &[u8; REQUEST_BYTES],
    writer: &mut W,
    clock: &mut K,
    bank: &mut C,
) -> Result<(), ServeFault>
    requires body { bytes.now ≡ message.now.body.now }
    requires posting { is_posting (asked message.now) ≡ true }
    ensures answers { TurnIsDealtWith C.seen C.reason (W.contents writer.old) (W.contents writer.new)
        (W.calls writer.old) (W.calls writer.new) (K.readings clock.old) (K.readings clock.new)
        bank.old bank.new (asked message.now) result }
    ensures spares { C.spares bank.old bank.new }
{
    let moment = clock.now();
    match bank.submit(moment, bytes) {
        Ok(reply) => {
            let response = Response {
                status: StatusCode::OK,
                media: b"application/octet-stream",
                allow: None,
                body: &reply,
            };
            say(message, &response, writer)
        }
        Err(fault) => Err(fail(message, fault, writer)),
    }
}

/// What the bank showed for a message that reads.
#[derive(Drop)]
pub(crate) enum Reading {
    /// The account or the teller isn't open, or fewer requests are kept.
    NotFound,
    /// These lines.
    Lines(String),
    /// These lines of a plan.
    Plan(String),
    /// These entries of the log.
    Entries(Vec<u8>),
}

impl Reading {
    /// What is answered.
    pub fn response(&self) -> Response<'_>
        ensures { said result ≡ said_in self.now }
    {
        match self {
            Reading::NotFound => not_found(),
            Reading::Lines(lines) => Response {
                status: StatusCode::OK,
                media: b"text/plain",
                allow: None,
                body: lines.as_bytes(),
            },
            Reading::Plan(lines) => Response {
                status: StatusCode::OK,
                media: b"text/csv",
                allow: None,
                body: lines.as_bytes(),
            },
            Reading::Entries(entries) => Response {
                status: StatusCode::OK,
                media: b"application/octet-stream",
                allow: None,
                body: entries.as_slice(),
            },
        }
    }
}

// The balance of an account or a teller.
fn balance_of<C: Followed>(holder: &Holder, bank: &mut C) -> Result<Option<Cents>, Fault>
    ensures answer { Answers (C.seen bank.old) (C.seen bank.new) result
        (λ log balance. balance ≡ balance_of log holder.now) }
    ensures call { IsCounterCall C.seen C.contents C.reason bank.old bank.new [] result }
    ensures by_tables { OnOk result (StaysByTables (C.seen bank.old) (C.seen bank.new)) }
    ensures spares { C.spares bank.old bank.new }
{
    match holder {
        Holder::Account(account) => bank.balance(*account),
        Holder::Teller(teller) => bank.teller_balance(*teller),
    }
}

/// Reads the balance of an account or a teller.
pub(crate) fn read_balance<C: Followed>(
    alloc: Global,
    holder: Holder,
    bank: &mut C,
) -> Result<Reading, Fault>
    ensures answer { IfOk result (λ reading. (C.seen bank.new).honest
        → (log : List Command) → ShowsLog (C.seen bank.old) log
        → said_in reading ≡ balance_answer (holder_line holder) (balance_of log holder)) }
    ensures asked { IsAsked C.seen C.reason bank.old bank.new result }
    ensures spares { C.spares bank.old bank.new }
{
    let balance = match balance_of(&holder, bank) {
        Ok(Some(balance)) => balance,
        Ok(None) => return Ok(Reading::NotFound),
        Err(fault) => return Err(fault),
    };
    match line_of_holder(alloc, &holder, balance) {
        Ok(line) => Ok(Reading::Lines(line)),
        Err(_) => Err(Fault::Memory),
    }
}

// What is answered with lines that are listed so.
fn listed(listing: Listing, lines: String) -> Reading
    ensures { said_in result ≡ answer_with listing (string_bytes lines) }
{
    match listing {
        Listing::Balances => Reading::Lines(lines),
        Listing::Plan => Reading::Plan(lines),
    }
}

/// Reads the open branches.
pub(crate) fn read_branches<C: Counter>(
    alloc: Global,
    listing: Listing,
    bank: &mut C,
) -> Result<Reading, Fault>
    ensures answer { IfOk result (λ reading. (C.seen bank.new).honest
        → (log : List Command) → ShowsLog (C.seen bank.old) log
        → said_in reading ≡ listing_answer listing log) }
    ensures asked { IsAsked C.seen C.reason bank.old bank.new result }
    ensures spares { C.spares bank.old bank.new }
{
    match all_lines(alloc, listing, bank) {
        Ok(lines) => Ok(listed(listing, lines)),
        Err(fault) => Err(fault),
    }
}

/// Reads the entries of the log after so many.
pub(crate) fn read_entries<C: Followed>(after: u64, bank: &mut C) -> Result<Reading, Fault>
    ensures answer { IfOk result (λ reading. (C.seen bank.new).honest
        → (log : List Command) → ShowsLog (C.seen bank.old) log
        → said_in reading ≡ entries_answer (entries_given log after)) }
    ensures asked { IsAsked C.seen C.reason bank.old bank.new result }
    ensures spares { C.spares bank.old bank.new }
{
    match bank.entries_after(after) {
        Ok(Some(entries)) => Ok(Reading::Entries(entries)),
        Ok(None) => Ok(Reading::NotFound),
        Err(fault) => Err(fault),
    }
}

// Answers with what was read, or tells that the bank refused it.
fn answer_reading<W: Sink>(
    message: &Whole<'_>,
    read: Result<Reading, Fault>,
    writer: &mut W,
) -> Result<(), ServeFault>
    ensures { SendsReading (W.contents writer.old) (W.contents writer.new) (W.calls writer.old)
        (W.calls writer.new) (asked message.now) read result }
{
    match read {
        Ok(reading) => say(message, &reading.response(), writer),
        Err(fault) => Err(fail(message, fault, writer)),
    }
}

/// Answers a message, before anything more is read. A record is submitted under one reading of the clock.
pub(crate) fn answer_message<W: Sink, K: Clock, C: Followed>(
    alloc: Global,
    message: &Whole<'_>,
    routes: &Routes,
    writer: &mut W,
    clock: &mut K,
    bank: &mut C,
) -> Result<(), ServeFault>
    ensures answers { TurnIsDealtWith C.seen C.reason (W.contents writer.old) (W.contents writer.new)
        (W.calls writer.old) (W.calls writer.new) (K.readings clock.old) (K.readings clock.new)
        bank.old bank.new (asked message.now) result }
    ensures spares { C.spares bank.old bank.new }
{
    let read = match task_of(message, routes) {
        Task::Say(response) => return say(message, &response, writer),
        Task::Submit(record) => return answer_posting(message, record, writer, clock, bank),
        Task::Metrics => return say(message, &not_found(), writer),
        Task::Balance(holder) => read_balance(alloc, holder, bank),
        Task::Branches(listing) => read_branches(alloc, listing, bank),
        Task::Entries(after) => read_entries(after, bank),
    };
    answer_reading(message, read, writer)
}
