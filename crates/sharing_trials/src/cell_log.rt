//! A log in memory that several machines of one process share.
use posting_core::ENTRY_BYTES;
use shared_log::{LogFault, SharedLog};
use std::alloc::Global;
use std::cell::RefCell;

/// One machine's sight of a log in memory. So many of its next appends are done, and not answered.
#[derive(Drop)]
pub struct CellLog<'l> {
    pub alloc: Global,
    pub entries: &'l RefCell<Vec<[u8; ENTRY_BYTES]>>,
    pub count: usize,
    pub unanswered: u32,
}

impl<'l> CellLog<'l> {
    /// A sight of it by a machine that knows nothing of it yet.
    pub fn of(alloc: Global, entries: &'l RefCell<Vec<[u8; ENTRY_BYTES]>>) -> CellLog<'l> {
        CellLog {
            alloc,
            entries,
            count: 0,
            unanswered: 0,
        }
    }
}

impl<'l> SharedLog for CellLog<'l> {
    fn count(&self) -> u64 {
        self.count as u64
    }

    fn append(&mut self, entries: &[[u8; ENTRY_BYTES]]) -> Result<(), LogFault> {
        let Ok(mut all) = self.entries.try_borrow_mut() else {
            return Err(LogFault::Unanswered);
        };
        if all.len() != self.count {
            return Err(LogFault::Refused);
        }
        if all.extend_from_slice(entries).is_err() {
            return Err(LogFault::Memory);
        }
        if self.unanswered > 0 {
            self.unanswered -= 1;
            return Err(LogFault::Unanswered);
        }
        self.count = self.count.saturating_add(entries.len());
        Ok(())
    }

    fn read(&mut self) -> Result<Vec<[u8; ENTRY_BYTES]>, LogFault> {
        let mut given = Vec::new(self.alloc);
        let Ok(all) = self.entries.try_borrow() else {
            return Err(LogFault::Unanswered);
        };
        if let Some(rest) = all.as_slice().get(self.count..) {
            if given.extend_from_slice(rest).is_err() {
                return Err(LogFault::Memory);
            }
        }
        self.count = self.count.saturating_add(given.len());
        Ok(given)
    }
}
