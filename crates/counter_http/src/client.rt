//! A client that is served beside others: what was read from it and isn't answered yet, and the answers that it
//! hasn't taken yet.
ghost use Rattle.std.specs.Prelude.{◌≡◌, ◌≤◌, length};

use crate::answers::{Reading, read_balance, read_branches, read_entries};
use crate::figures::Figures;
use crate::fixed::{bad_request, unavailable};
use crate::limits::BUFFER;
use crate::metrics::text_of;
use crate::next::{Next, is_head, next_message};
use crate::parting::Parting;
use crate::routes::Routes;
use crate::tasks::{Task, task_of};
use crate::telling::{Response, tell};
use http::StatusCode;
use message_records::{REPLY_BYTES, REQUEST_BYTES};
use posting_core::transfer::{fill_buffer_beside, move_to_front};
use posting_core::{Fault, Followed, Sink, Source};
use std::alloc::Global;
use std::io::ErrorKind;

// How many messages of a client are looked at in a round: a record and what is read before it. Whoever asks much
// holds up nobody.
const MESSAGES_PER_ROUND: usize = 2;

// How many bytes of answers a client may leave untaken before its next message is answered.
const UNTAKEN: usize = 16_384;

/// A client. It is read only where no whole message of it is left, and all its answers are written.
#[derive(Drop)]
pub struct Client<R: Drop, W: Drop> {
    // How many clients came before it.
    number: u64,
    reader: R,
    writer: W,
    // What was read and isn't answered yet: the first so many bytes of the buffer.
    input: Vec<u8>,
    filled: usize,
    // The answers that aren't written yet, from a place on.
    output: Vec<u8>,
    written: usize,
    // An answer to what stands at the front shows its body, if no more bytes come.
    shows_body: bool,
    // A whole message may stand at the front.
    has_more: bool,
    // No more of its messages are answered.
    parting: Option<Parting>,
    ghost filled_within: { filled ≤ length input.items },
    ghost written_within: { written ≤ length output.items },
}

/// How the message at the front is answered.
#[derive(Clone, Copy, Default)]
pub(crate) struct Head {
    /// How many bytes it has.
    pub length: usize,
    /// The answer shows its body.
    pub shows_body: bool,
    /// The connection ends after the answer.
    pub closes: bool,
}

/// The record of the message at the front.
#[derive(Clone, Copy)]
pub(crate) struct Record {
    pub bytes: [u8; REQUEST_BYTES],
    pub head: Head,
}

/// What was done with the front of what was read from a client.
pub(crate) enum Front {
    /// Nothing, or no more can be done now.
    Nothing,
    /// A message was answered.
    Answered,
    /// A record stands there.
    Record(Record),
}

impl<R: Source + Drop, W: Sink + Drop> Client<R, W> {
    ghost use Rattle.std.specs.Prelude.{[], ◌++◌, ◌∷◌, List, ℕ, None, Some, Option, OnOk, IfOk, IfSome, true, false, MatchBool, IfErr, ◌≢◌};
    ghost use Rattle.counter_http.specs.Connections.{known_ends};
    ghost use Rattle.counter_http.specs.together.Standing.{AnswersRecord, IsAnswered, IsLost, IsNew, IsOver, IsParting, Writes};
    ghost use Rattle.counter_http.specs.together.Standing.{GivesRecord, GivesFront, HasAnswered, HasEndedWith, LooksDone, MovesOn};
    ghost use Rattle.counter_http.specs.together.Standing.{ReadsAnswer, SaysSo, pending};
    ghost use Rattle.counter_http.specs.together.Reading.{Reads};
    ghost use Rattle.counter_http.specs.Telling.{said};
    ghost use Rattle.counter_http.specs.Figures.{figures_answer};
    ghost use Rattle.counter_http.specs.believed.Answers.{answer_text, bare};

    /// A client that sent nothing yet. Where memory is refused, it is parted from.
    pub(crate) fn new(alloc: Global, number: u64, reader: R, writer: W) -> Client<R, W>
        ensures { IsNew number reader writer result }
    {
        let (input, parting) = match vec![in alloc; 0u8; BUFFER] {
            Ok(input) => (input, None),
            Err(_) => (Vec::new(alloc), Some(Parting::Memory)),
        };
        Client {
            number,
            reader,
            writer,
            input,
            filled: 0,
            output: Vec::new(alloc),
            written: 0,
            shows_body: true,
            has_more: false,
            parting,
        }
    }

    /// How many clients came before it.
    pub fn number(&self) -> u64
        ensures { result ≡ self.now.number }
    {
        self.number
    }

    pub fn reader(&self) -> &R {
        &self.reader
    }

    pub fn writer(&self) -> &W {
        &self.writer
    }

    /// All its answers are written.
    pub fn is_written(&self) -> bool
        ensures { MatchBool result (self.now.written ≡ length self.now.output.items)
            (self.now.written ≢ length self.now.output.items) }
    {
        self.written == self.output.len()
    }

    /// How many bytes of answers it hasn't taken yet.
    pub fn untaken(&self) -> usize
        ensures { result ≡ length (pending self.now) }
    {
        self.output.len() - self.written
    }

    /// How many bytes of it aren't answered yet: some of a message, where it doesn't have more.
    pub fn unanswered(&self) -> usize {
        self.filled
    }

    /// It can be gone on with at once, whatever its stream says.
    pub fn has_more(&self) -> bool
        ensures more { result ≡ true → (self.now.has_more ≡ true) × (self.now.parting ≡ None) }
        ensures rests { result ≡ false → self.now.parting ≡ None → self.now.written ≡ length self.now.output.items
            → self.now.has_more ≡ false }
    {
        self.has_more && self.parting.is_none() && self.is_written()
    }

    /// Nothing of it is left to be answered now.
    pub(crate) fn is_idle(&self) -> bool
        ensures { result ≡ true → self.now.has_more ≡ false }
    {
        !self.has_more
    }

    /// Nothing more is done for it.
    pub fn is_over(&self) -> bool
        ensures over { result ≡ true → IsOver self.now }
        ensures goes_on { result ≡ false → IsOver self.now → ⊥ }
    {
        self.parting.is_some() && self.is_written()
    }

    /// Nothing more is written to it.
    pub(crate) fn lose(&mut self, parting: Parting)
        ensures { IsLost self.old self.new parting }
    {
        self.parting = Some(parting);
        self.has_more = false;
        self.written = 0;
        self.output.clear();
    }

    /// One write of what is left of the answers, and a flush where nothing is left then.
    pub(crate) fn write(&mut self)
        ensures { Writes (known_ends R.remaining R.calls R.beside W.contents W.calls) self.old self.new }
    {
        if self.is_written() {
            return;
        }
        match self.writer.take(&self.output[self.written..]) {
            Ok(0) => return self.lose(Parting::Write),
            Ok(count) => self.written += count,
            Err(e) => {
                if e.kind() == ErrorKind::Interrupted {
                    return;
                }
                return self.lose(Parting::Write);
            }
        }
        if !self.is_written() {
            return;
        }
        if self.writer.send_on().is_err() {
            return self.lose(Parting::Write);
        }
        self.written = 0;
        self.output.clear();
    }

    /// One read, where no whole message is left, and all answers are written.
    pub(crate) fn read(&mut self)
        ensures { Reads (known_ends R.remaining R.calls R.beside W.contents W.calls) self.old self.new }
    {
        if self.has_more || self.parting.is_some() {
            return;
        }
        if !self.is_written() {
            return;
        }
        if self.filled == self.input.len() {
            return;
        }
        match fill_buffer_beside(&mut self.reader, &mut self.input, self.filled, &self.writer) {
            Ok(0) => {
                if self.filled == 0 {
                    self.parting = Some(Parting::Served);
                    return;
                }
                self.end_with(&bad_request(), self.shows_body, Parting::Served);
            }
            Ok(n) => {
                self.filled += n;
                self.has_more = true;
            }
            Err(e) => {
                if e.kind() == ErrorKind::Interrupted {
                    return;
                }
                self.parting = Some(Parting::Read);
            }
        }
    }

    // Answers so, and no more of its messages.
    fn end_with(&mut self, response: &Response<'_>, shows_body: bool, parting: Parting)
        ensures { HasEndedWith self.old self.new (answer_text (said response.now) shows_body true) parting }
    {
        self.has_more = false;
        match tell(&mut self.output, response, shows_body, true) {
            Ok(()) => self.parting = Some(parting),
            Err(_) => self.lose(Parting::Memory),
        }
    }

    // Answers the message at the front, and answers whether there was memory for it.
    fn answer_with(&mut self, response: &Response<'_>, head: Head) -> bool
        requires { head.length ≤ self.old.filled }
        ensures { MatchBool result
            (HasAnswered self.old self.new (answer_text (said response.now) head.shows_body head.closes) head)
            (IsLost self.old self.new Parting.Memory) }
    {
        if tell(&mut self.output, response, head.shows_body, head.closes).is_err() {
            self.lose(Parting::Memory);
            return false;
        }
        move_to_front(&mut self.input, head.length, self.filled);
        self.filled -= head.length;
        self.has_more = self.filled > 0;
        if head.closes {
            self.parting = Some(Parting::Served);
        }
        true
    }

    // Answers the message at the front, which submits nothing.
    fn say(&mut self, response: &Response<'_>, head: Head) -> Front
        requires { head.length ≤ self.old.filled }
        ensures { SaysSo self.old self.new (said response.now) head result }
    {
        if self.answer_with(response, head) {
            Front::Answered
        } else {
            Front::Nothing
        }
    }

    // Answers the message at the front with the figures.
    fn say_figures(&mut self, alloc: Global, figures: &Figures, head: Head) -> Front
        requires { head.length ≤ self.old.filled }
        ensures { SaysSo self.old self.new (figures_answer figures.now) head result }
    {
        let Ok(text) = text_of(alloc, figures) else {
            self.lose(Parting::Memory);
            return Front::Nothing;
        };
        let response = Response {
            status: StatusCode::OK,
            media: b"text/plain; version=0.0.4",
            allow: None,
            body: text.as_bytes(),
        };
        self.say(&response, head)
    }

    // Answers the message at the front with what was read for it, or tells that the bank refused that.
    fn answer_reading(&mut self, read: Result<Reading, Fault>, head: Head) -> Result<Front, Fault>
        requires { head.length ≤ self.old.filled }
        ensures { ReadsAnswer self.old self.new read head result }
    {
        match read {
            Ok(reading) => Ok(self.say(&reading.response(), head)),
            Err(fault) => {
                self.end_with(&unavailable(), head.shows_body, Parting::Bank(fault));
                match fault {
                    Fault::Memory => Ok(Front::Nothing),
                    _ => Err(fault),
                }
            }
        }
    }

    /// Looks at the front of what was read: a record is given, and any other message is answered. What has
    /// come of a message that isn't whole waits for the rest.
    fn answer_front<C: Followed>(
        &mut self,
        alloc: Global,
        routes: &Routes,
        figures: &Figures,
        bank: &mut C,
    ) -> Result<Front, Fault>
        ensures answers { IsAnswered C.seen C.reason (known_ends R.remaining R.calls R.beside W.contents W.calls)
            figures.now bank.old bank.new self.old self.new result }
        ensures record { IfOk result (GivesFront self.new) }
        ensures rests { IfOk result (LooksDone self.old self.new) }
        ensures spares { C.spares bank.old bank.new }
    {
        if !self.has_more || self.parting.is_some() {
            return Ok(Front::Nothing);
        }
        match next_message(&self.input[..self.filled]) {
            Next::Message(message) => {
                let head = Head {
                    length: message.length,
                    shows_body: !is_head(message.method),
                    closes: message.closes,
                };
                let read = match task_of(&message, routes) {
                    Task::Submit(bytes) => {
                        let bytes = *bytes;
                        return Ok(Front::Record(Record { bytes, head }));
                    }
                    Task::Say(response) => return Ok(self.say(&response, head)),
                    Task::Metrics => return Ok(self.say_figures(alloc, figures, head)),
                    Task::Balance(holder) => read_balance(alloc, holder, bank),
                    Task::Branches(listing) => read_branches(alloc, listing, bank),
                    Task::Entries(after) => read_entries(after, bank),
                };
                self.answer_reading(read, head)
            }
            Next::Unfinished(shows) => {
                self.shows_body = shows;
                self.has_more = false;
                Ok(Front::Nothing)
            }
            Next::Refused(shows) => {
                self.end_with(&bad_request(), shows, Parting::Served);
                Ok(Front::Nothing)
            }
        }
    }

    /// Answers the messages at the front of what was read, up to a record, which it gives, or up to
    /// `MESSAGES_PER_ROUND`. A client that left many answers untaken takes them first.
    ///
    /// # Errors
    ///
    /// The bank refused a call for another cause than memory.
    pub(crate) fn next_record<C: Followed>(
        &mut self,
        alloc: Global,
        routes: &Routes,
        figures: &Figures,
        bank: &mut C,
    ) -> Result<Option<Record>, Fault>
        ensures answers { IsAnswered C.seen C.reason (known_ends R.remaining R.calls R.beside W.contents W.calls)
            figures.now bank.old bank.new self.old self.new result }
        ensures record { IfOk result (λ found. IfSome found (GivesRecord self.new)) }
        ensures rests { IfOk result (λ found. found ≡ None → MovesOn self.old self.new) }
        ensures spares { C.spares bank.old bank.new }
    {
        'messages: for _ in 0..MESSAGES_PER_ROUND {
            if self.untaken() > UNTAKEN {
                return Ok(None);
            }
            match self.answer_front(alloc, routes, figures, bank)? {
                Front::Nothing => return Ok(None),
                Front::Answered => {}
                Front::Record(record) => return Ok(Some(record)),
            }
        }
        Ok(None)
    }

    /// Answers the record at the front, which the bank took.
    pub(crate) fn answer_record(&mut self, head: Head, reply: &[u8; REPLY_BYTES])
        ensures { AnswersRecord self.old self.new head reply.now }
    {
        if head.length > self.filled {
            return;
        }
        let response = Response {
            status: StatusCode::OK,
            media: b"application/octet-stream",
            allow: None,
            body: reply,
        };
        self.answer_with(&response, head);
    }

    /// Answers a 503 to the record at the front, which the bank refused.
    pub(crate) fn refuse_record(&mut self, head: Head, fault: Fault)
        ensures { HasEndedWith self.old self.new (answer_text (bare 503) head.shows_body true) (Parting.Bank fault) }
    {
        self.end_with(&unavailable(), head.shows_body, Parting::Bank(fault));
    }

    /// Its two ends, as they are left, and why it was parted from: for this cause, unless it is over.
    pub(crate) fn part(self, cause: Parting) -> (R, W, Parting)
        ensures { IsParting self cause result }
    {
        if self.is_over() {
            let parting = self.parting.unwrap_or(cause);
            return (self.reader, self.writer, parting);
        }
        (self.reader, self.writer, cause)
    }
}
