//! A log over etcd that connects again where its connection was cut.
ghost use Rattle.std.specs.Prelude.{◌≡◌, [], Some, IfSome};

use crate::etcd::log::EtcdLog;
use crate::log::{LogFault, SharedLog};
use posting_core::{ENTRY_BYTES, Sink, Source};
use std::alloc::Global;

/// What connects to a member of etcd.
pub trait Dial {
    type Reader: Source + Drop;

    type Writer: Sink + Drop;

    /// The two ends of a new connection; none where nobody answers.
    fn dial(&mut self) -> Option<(Self::Reader, Self::Writer)>;
}

/// A log over etcd, and what connects it again where its connection was cut.
#[derive(Drop)]
pub struct DialedLog<D: Dial + Drop> {
    dial: D,
    log: EtcdLog<D::Reader, D::Writer>,
}

impl<D: Dial + Drop> DialedLog<D> {
    ghost use Rattle.shared_log.specs.etcd.Asked.{told_by};

    /// A log of which nothing is known yet; none where nobody answers.
    pub fn connect(alloc: Global, name: Vec<u8>, mut dial: D) -> Option<DialedLog<D>>
        ensures { IfSome result (λ it. told_by it.log ≡ []) }
    {
        let (reader, writer) = dial.dial()?;
        let log = EtcdLog::new(alloc, name, reader, writer);
        Some(DialedLog { dial, log })
    }

    // Connects again where the connection was cut.
    fn check_connected(&mut self) -> Result<(), LogFault>
        ensures { told_by self.new.log ≡ told_by self.old.log }
    {
        if self.log.is_cut() {
            match self.dial.dial() {
                Some((reader, writer)) => self.log.reconnect(reader, writer),
                None => return Err(LogFault::Unanswered),
            }
        }
        Ok(())
    }
}

impl<D: Dial + Drop> SharedLog for DialedLog<D> {
    ghost use Rattle.shared_log.specs.etcd.Asked.{told_by};

    ghost known = { λ it. Some (told_by it.log) };

    fn count(&self) -> u64 {
        self.log.count()
    }

    fn append(&mut self, entries: &[[u8; ENTRY_BYTES]]) -> Result<(), LogFault> {
        self.check_connected()?;
        self.log.append(entries)
    }

    fn read(&mut self) -> Result<Vec<[u8; ENTRY_BYTES]>, LogFault> {
        self.check_connected()?;
        self.log.read()
    }
}
