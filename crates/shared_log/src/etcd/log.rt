//! A shared log over etcd.
ghost use Rattle.std.specs.Prelude.{◌≡◌, ◌+◌, ◌<◌, ◌^◌, ◌++◌, [], Some, IfErr, IfOk, OnOk, length};

use crate::etcd::asking::exchange;
use crate::etcd::held::Held;
use crate::etcd::meanings::{Said, meaning_of};
use crate::etcd::texts::request;
use crate::log::{LogFault, SharedLog};
use posting_core::{ENTRY_BYTES, Sink, Source};
use std::alloc::Global;

/// A log under a name of etcd, as one machine sees it, by the two ends of a connection to a member's JSON gateway. After
/// an exchange that failed it asks nothing more: an answer that comes late would be taken for the next one's. It goes on
/// with a connection of its own ([`EtcdLog::reconnect`]).
#[derive(Drop)]
pub struct EtcdLog<R: Drop, W: Drop> {
    alloc: Global,
    name: Vec<u8>,
    reader: R,
    writer: W,
    held: Held,
    is_cut: bool,
}

impl<R: Source + Drop, W: Sink + Drop> EtcdLog<R, W> {
    ghost use Rattle.shared_log.specs.etcd.Asked.{AreEntries, HasAsked, told_by};

    /// A log of which nothing is known yet.
    pub fn new(alloc: Global, name: Vec<u8>, reader: R, writer: W) -> EtcdLog<R, W>
        ensures told { told_by result ≡ [] }
        ensures name { result.name ≡ name }
    {
        EtcdLog {
            alloc,
            name,
            reader,
            writer,
            held: Held::nothing(),
            is_cut: false,
        }
    }

    /// Whether it asks nothing more.
    pub fn is_cut(&self) -> bool
        ensures { result ≡ self.now.is_cut }
    {
        self.is_cut
    }

    /// It asks by these ends from then on, and knows what it knew.
    pub fn reconnect(&mut self, reader: R, writer: W)
        ensures told { told_by self.new ≡ told_by self.old }
        ensures name { self.new.name ≡ self.old.name }
    {
        self.reader = reader;
        self.writer = writer;
        self.is_cut = false;
    }

    // Asks for these entries to be put at the end that is known, or for what stands there. No more is known then.
    fn ask(&mut self, entries: &[[u8; ENTRY_BYTES]]) -> Result<Said, LogFault>
        ensures asked { IfOk result (λ said. HasAsked R.remaining W.contents self.old self.new entries.now said) }
        ensures told { told_by self.new ≡ told_by self.old }
        ensures room { OnOk result (length (told_by self.old) + length entries.now < 2 ^ 64) }
    {
        if self.is_cut {
            return Err(LogFault::Unanswered);
        }
        let place = self.held.count();
        if place.checked_add(entries.len() as u64).is_none() {
            return Err(LogFault::Memory);
        }
        let Ok(text) = request(self.alloc, self.name.as_slice(), place, entries) else {
            return Err(LogFault::Memory);
        };
        self.is_cut = true;
        let body = exchange(
            self.alloc,
            &mut self.reader,
            &mut self.writer,
            text.as_slice(),
        )?;
        let Some(said) = meaning_of(self.alloc, body.as_slice()) else {
            return Err(LogFault::Unanswered);
        };
        self.is_cut = false;
        Ok(said)
    }

    // The entries that a value is, which are known from then on.
    fn take_value(&mut self, value: &[u8]) -> Result<Vec<[u8; ENTRY_BYTES]>, LogFault>
        ensures given { IfOk result (λ given. AreEntries value.now given.items) }
        ensures told { IfOk result (λ given. told_by self.new ≡ told_by self.old ++ given.items) }
        ensures fault { IfErr result (λ fault. told_by self.new ≡ told_by self.old) }
        ensures ends { (self.new.reader ≡ self.old.reader) × (self.new.writer ≡ self.old.writer) }
    {
        let (entries, rest) = value.as_chunks::<ENTRY_BYTES>();
        if entries.is_empty() || !rest.is_empty() {
            return Err(LogFault::Unanswered);
        }
        let Ok(given) = Vec::from_slice(self.alloc, entries) else {
            return Err(LogFault::Unanswered);
        };
        if self.held.count().checked_add(given.len() as u64).is_none() {
            return Err(LogFault::Unanswered);
        }
        self.held.add(given.as_slice());
        Ok(given)
    }
}

impl<R: Source + Drop, W: Sink + Drop> SharedLog for EtcdLog<R, W> {
    ghost use Rattle.shared_log.specs.etcd.Asked.{HasAppended, HasRead, told_by};

    ghost known = { λ log. Some (told_by log) };

    fn count(&self) -> u64 {
        self.held.count()
    }

    fn append(&mut self, entries: &[[u8; ENTRY_BYTES]]) -> Result<(), LogFault>
        ensures appended { OnOk result (HasAppended R.remaining W.contents self.old self.new entries.now) }
        ensures fault { IfErr result (λ fault. told_by self.new ≡ told_by self.old) }
    {
        match self.ask(entries)? {
            Said::Done => {
                self.held.add(entries);
                Ok(())
            }
            Said::Holds(_) => Err(LogFault::Refused),
            Said::Nothing => Err(LogFault::Unanswered),
        }
    }

    fn read(&mut self) -> Result<Vec<[u8; ENTRY_BYTES]>, LogFault>
        ensures came { IfOk result (λ entries. HasRead R.remaining W.contents self.old self.new entries.items) }
        ensures fault { IfErr result (λ fault. told_by self.new ≡ told_by self.old) }
    {
        match self.ask(&[])? {
            Said::Done => Ok(Vec::new(self.alloc)),
            Said::Holds(value) => self.take_value(value.as_slice()),
            Said::Nothing => Err(LogFault::Unanswered),
        }
    }
}
