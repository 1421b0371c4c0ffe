//! Clients of a script, who are read and written in memory.
use counter_http::{Client, Clients, ListenFault, Readiness, serve_together};
use failing_ends::{CutReader, CutWriter, FailingBank, SlowWriter};
use posting_core::StoredClock;
use std::alloc::Global;
use std::io::{self, ErrorKind};

/// What a client sends and takes, and what it has to be answered.
#[derive(Clone, Copy)]
pub struct Teller<'a> {
    /// What is read before the reader fails once, if it does.
    pub before: &'a [u8],
    pub read_fault: Option<ErrorKind>,
    /// What is read then.
    pub after: &'a [u8],
    /// The writer takes so many bytes, so many at a time, and then fails, or takes none.
    pub most: usize,
    pub piece: usize,
    pub write_fault: Option<ErrorKind>,
    /// It waits to be taken in from this round on, and is given up in that one.
    pub comes: u64,
    pub patience: u64,
    /// What it is written: one answer after another.
    pub answers: [&'a [u8]; 3],
}

impl<'a> Teller<'a> {
    /// One whose ends don't fail.
    pub fn new(input: &'a [u8], answers: [&'a [u8]; 3]) -> Teller<'a> {
        Teller {
            before: input,
            read_fault: None,
            after: b"",
            most: 1000,
            piece: 1000,
            write_fault: None,
            comes: 0,
            patience: u64::MAX,
            answers,
        }
    }

    /// Behind so many bytes nothing comes for a round.
    pub fn cut(self, at: usize) -> Teller<'a> {
        let (before, after) = self.before.split_at(at.min(self.before.len()));
        Teller {
            before,
            read_fault: Some(ErrorKind::Interrupted),
            after,
            ..self
        }
    }

    fn reader(&self) -> CutReader<'a> {
        CutReader {
            before: self.before,
            fault: self.read_fault,
            after: self.after,
        }
    }

    fn writer(&self, alloc: Global) -> SlowWriter {
        SlowWriter {
            writer: CutWriter::new(alloc, self.most, self.write_fault),
            piece: self.piece,
            rests: false,
        }
    }

    fn readiness(&self, round: u64) -> Readiness {
        if round < self.patience {
            Readiness::Ready
        } else {
            Readiness::GivenUp
        }
    }
}

/// What a client took, when its connection was closed.
#[derive(Drop)]
pub struct Closed {
    pub number: u64,
    pub taken: Vec<u8>,
}

/// How a serving went.
#[derive(Drop)]
pub struct Played {
    /// The clients, as their connections were closed.
    pub closed: Vec<Closed>,
    pub ended: Result<(), ListenFault>,
    /// Each wait was for all who were here.
    pub waits_for_all: bool,
}

// Clients that come, each in its round or later.
#[derive(Drop)]
struct Crowd<'a> {
    alloc: Global,
    tellers: &'a [Teller<'a>],
    round: u64,
    here: usize,
    waits_for_all: bool,
    closed: Vec<Closed>,
}

impl<'a> Clients for Crowd<'a> {
    type Reader = CutReader<'a>;

    type Writer = SlowWriter;

    fn wait(
        &mut self,
        clients: &[Client<CutReader<'a>, SlowWriter>],
        _awaits_more: bool,
        readiness: &mut Vec<Readiness>,
    ) {
        self.round = self.round.saturating_add(1);
        self.waits_for_all = self.waits_for_all && clients.len() == self.here;
        readiness.clear();
        for client in clients {
            let found = match self.tellers.get(client.number() as usize) {
                Some(teller) => teller.readiness(self.round),
                None => Readiness::GivenUp,
            };
            if readiness.push(found).is_err() {
                return;
            }
        }
    }

    fn open(&mut self, number: u64) -> io::Result<Option<(CutReader<'a>, SlowWriter)>> {
        match self.tellers.get(number as usize) {
            Some(teller) if teller.comes <= self.round => {
                self.here = self.here.saturating_add(1);
                Ok(Some((teller.reader(), teller.writer(self.alloc))))
            }
            _ => Ok(None),
        }
    }

    fn close(&mut self, number: u64, _reader: CutReader<'a>, writer: SlowWriter) {
        self.here = self.here.saturating_sub(1);
        let taken = writer.writer.taken;
        let _ = self.closed.push(Closed { number, taken });
    }
}

/// Serves clients at once, by a clock at the moment 0.
pub fn serve<'a>(alloc: Global, tellers: &'a [Teller<'a>], bank: &mut FailingBank) -> Played {
    let mut crowd = Crowd {
        alloc,
        tellers,
        round: 0,
        here: 0,
        waits_for_all: true,
        closed: Vec::new(alloc),
    };
    let mut clock = StoredClock::new(Vec::new(alloc));
    let count = tellers.len() as u64;
    let ended = serve_together(alloc, &mut crowd, count, &mut clock, bank);
    Played {
        closed: crowd.closed,
        ended,
        waits_for_all: crowd.waits_for_all,
    }
}
