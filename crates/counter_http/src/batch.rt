//! The records that are submitted together: at most one of each client.
ghost use Rattle.std.specs.Prelude.{◌≡◌, ◌<◌, ◌≤◌, ◌∷◌, ◌⊎◌, [], length};
ghost use Rattle.posting_core.specs.believed.Clock.{AreReadings};
ghost use Rattle.counter_http.specs.Connections.{known_ends};
ghost use Rattle.counter_http.specs.together.Order.{HasSpared};
ghost use Rattle.counter_http.specs.together.Rounds.{AllDiffer, numbers};
ghost use Rattle.counter_http.specs.together.Submitting.{AddsIfRoom, AllGo, AnswersAt, AnswersEach, AreSubmitted};
ghost use Rattle.counter_http.specs.together.Submitting.{ChangesAt, GivesAt, IsBatchOf, IsNextPlace, RefusesAt, RefusesEach, SubmitsBatch};

use crate::client::{Client, Head, Record};
use crate::figures::Tally;
use arrayvec::ArrayVec;
use message_records::{Moment, REPLY_BYTES, REQUEST_BYTES};
use posting_core::{Clock, Counter, Fault, RECORDS_PER_BATCH, Sink, Source};

/// Whose record it is: that of the client at a place, and how its message is answered.
#[derive(Clone, Copy, Default)]
pub(crate) struct Sender {
    pub place: usize,
    pub head: Head,
}

/// Up to `RECORDS_PER_BATCH` records, each with its sender.
#[derive(Drop)]
pub(crate) struct Batch {
    records: ArrayVec<[u8; REQUEST_BYTES], RECORDS_PER_BATCH>,
    senders: ArrayVec<Sender, RECORDS_PER_BATCH>,
}

// Answers the record of a sender, which the bank took.
fn answer_at<R: Source + Drop, W: Sink + Drop>(
    here: &mut Vec<Client<R, W>>,
    sender: Sender,
    reply: &[u8; REPLY_BYTES],
)
    requires { sender.place < length here.old.items }
    ensures { AnswersAt here.old.items here.new.items sender reply.now }
{
    here[sender.place].answer_record(sender.head, reply);
}

// Answers a sender a 503.
fn refuse_at<R: Source + Drop, W: Sink + Drop>(
    here: &mut Vec<Client<R, W>>,
    sender: Sender,
    fault: Fault,
)
    requires { sender.place < length here.old.items }
    ensures { RefusesAt here.old.items here.new.items sender fault }
{
    here[sender.place].refuse_record(sender.head, fault);
}

// Submits the record of one sender, answers that one, and counts the reply. Where the bank has no memory for it the
// sender is told so, and that is no fault.
fn submit_one<R: Source + Drop, W: Sink + Drop, C: Counter>(
    here: &mut Vec<Client<R, W>>,
    tally: &mut Tally,
    sender: Sender,
    moment: Moment,
    bytes: &[u8; REQUEST_BYTES],
    bank: &mut C,
) -> Result<(), Fault>
    requires others { AllDiffer (numbers here.old.items) }
    requires gives { GivesAt here.old.items sender bytes.now }
    ensures submits { AreSubmitted C.seen C.reason (known_ends R.remaining R.calls R.beside W.contents W.calls)
        (moment ∷ []) bank.old bank.new here.old.items here.new.items tally.old tally.new 1 result }
    ensures only { ChangesAt here.old.items here.new.items sender.place }
    ensures spares { C.spares bank.old bank.new }
{
    match bank.submit(moment, bytes) {
        Ok(reply) => {
            answer_at(here, sender, &reply);
            tally.count_commit(&[reply]);
            Ok(())
        }
        Err(fault) => {
            refuse_at(here, sender, fault);
            match fault {
                Fault::Memory => Ok(()),
                _ => Err(fault),
            }
        }
    }
}

impl Batch {
    pub fn new() -> Batch
        ensures records { result.records.items ≡ [] }
        ensures senders { result.senders.items ≡ [] }
    {
        Batch {
            records: ArrayVec::new(),
            senders: ArrayVec::new(),
        }
    }

    /// Takes all records out.
    pub fn clear(&mut self)
        ensures records { self.new.records.items ≡ [] }
        ensures senders { self.new.senders.items ≡ [] }
    {
        self.records.clear();
        self.senders.clear();
    }

    /// Whose records are the first of the next batch: those of the clients from a place on.
    pub fn next(&self) -> usize
        ensures { IsNextPlace self.now result }
    {
        match self.senders.last() {
            Some(last) if self.senders.is_full() => last.place.saturating_add(1),
            _ => 0,
        }
    }

    /// How many records there are.
    pub fn count(&self) -> usize {
        self.records.len()
    }

    /// Takes the record of the client at a place, where there is room for it.
    pub fn add(&mut self, place: usize, given: &Record)
        ensures { AddsIfRoom self.old self.new place given.now }
    {
        if self.records.is_full() || self.senders.is_full() {
            return;
        }
        self.records.push(given.bytes);
        self.senders.push(Sender {
            place,
            head: given.head,
        });
    }

    /// Submits the records in one call, under one reading of the clock, answers each sender, and counts the replies.
    /// Where the bank has no memory for them together, they are submitted one by one. Where it refuses them
    /// otherwise, each sender is answered a 503.
    pub fn submit<R: Source + Drop, W: Sink + Drop, K: Clock, C: Counter>(
        &self,
        here: &mut Vec<Client<R, W>>,
        tally: &mut Tally,
        clock: &mut K,
        bank: &mut C,
    ) -> Result<(), Fault>
        requires others { AllDiffer (numbers here.old.items) }
        requires gives { IsBatchOf here.old.items self.now }
        ensures submits { SubmitsBatch C.seen C.reason (known_ends R.remaining R.calls R.beside W.contents W.calls)
            (K.readings clock.old) (K.readings clock.new) bank.old bank.new here.old.items here.new.items
            tally.old tally.new (length self.now.records.items) result }
        ensures each { AllGo here.old.items here.new.items self.now.senders.items ⊎ HasSpared C.reason }
        ensures spares { C.spares bank.old bank.new }
    {
        let records = self.records.as_slice();
        if records.is_empty() {
            return Ok(());
        }
        let moment = clock.now();
        match bank.submit_all(moment, records) {
            Ok(replies) => {
                self.answer(here, &replies);
                tally.count_commit(&replies);
                Ok(())
            }
            Err(Fault::Memory) => self.submit_each(here, tally, moment, bank),
            Err(fault) => {
                self.refuse(here, fault);
                Err(fault)
            }
        }
    }

    // Answers each sender.
    fn answer<R: Source + Drop, W: Sink + Drop>(
        &self,
        here: &mut Vec<Client<R, W>>,
        replies: &[[u8; REPLY_BYTES]],
    )
        requires gives { IsBatchOf here.old.items self.now }
        requires each { length replies.now ≡ length self.now.records.items }
        ensures { AnswersEach here.old.items here.new.items self.now.senders.items replies.now }
    {
        let senders = self.senders.as_slice();
        for (i, reply) in replies.iter().enumerate() {
            answer_at(here, senders[i], reply);
        }
    }

    // Answers each sender a 503.
    fn refuse<R: Source + Drop, W: Sink + Drop>(&self, here: &mut Vec<Client<R, W>>, fault: Fault)
        requires { IsBatchOf here.old.items self.now }
        ensures { RefusesEach here.old.items here.new.items self.now.senders.items fault }
    {
        for sender in self.senders.as_slice() {
            refuse_at(here, *sender, fault);
        }
    }

    // Submits the records one by one, since the bank had no memory for them together, answers each sender at once, and
    // counts the replies.
    fn submit_each<R: Source + Drop, W: Sink + Drop, C: Counter>(
        &self,
        here: &mut Vec<Client<R, W>>,
        tally: &mut Tally,
        moment: Moment,
        bank: &mut C,
    ) -> Result<(), Fault>
        requires others { AllDiffer (numbers here.old.items) }
        requires spared { HasSpared C.reason }
        requires gives { IsBatchOf here.old.items self.now }
        ensures submits { AreSubmitted C.seen C.reason (known_ends R.remaining R.calls R.beside W.contents W.calls)
            (moment ∷ []) bank.old bank.new here.old.items here.new.items tally.old tally.new
            (length self.now.records.items) result }
        ensures spares { C.spares bank.old bank.new }
    {
        let senders = self.senders.as_slice();
        for (i, bytes) in self.records.as_slice().iter().enumerate() {
            submit_one(here, tally, senders[i], moment, bytes, bank)?;
        }
        Ok(())
    }
}
