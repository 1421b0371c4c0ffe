//! Writers that cut, fail, count, or take their time.
use std::alloc::Global;
use std::io;
use std::io::{ErrorKind, Write};

/// Takes so many bytes, and then fails, or takes none. It counts the writes that it is asked for.
#[derive(Drop)]
pub struct CutWriter {
    pub taken: Vec<u8>,
    pub most: usize,
    pub fault: Option<ErrorKind>,
    pub writes: u64,
}

impl CutWriter {
    /// One that has taken nothing yet.
    pub fn new(alloc: Global, most: usize, fault: Option<ErrorKind>) -> CutWriter {
        CutWriter {
            taken: Vec::new(alloc),
            most,
            fault,
            writes: 0,
        }
    }
}

impl Write for CutWriter {
    fn write(&mut self, buf: &[u8]) -> io::Result<usize> {
        self.writes = self.writes.saturating_add(1);
        let room = self.most.saturating_sub(self.taken.len());
        match self.fault {
            Some(kind) if room == 0 => Err(io::Error::from(kind)),
            _ => {
                let count = buf.len().min(room);
                self.taken.extend_from_slice(&buf[..count])?;
                Ok(count)
            }
        }
    }

    fn flush(&mut self) -> io::Result<()> {
        match self.fault {
            Some(kind) if self.taken.len() >= self.most => Err(io::Error::from(kind)),
            _ => Ok(()),
        }
    }
}

/// Takes so many bytes at a time, and nothing at every second write, which it says by `Interrupted`.
#[derive(Drop)]
pub struct SlowWriter {
    pub writer: CutWriter,
    pub piece: usize,
    pub rests: bool,
}

impl Write for SlowWriter {
    fn write(&mut self, buf: &[u8]) -> io::Result<usize> {
        if self.rests {
            self.rests = false;
            return Err(io::Error::from(ErrorKind::Interrupted));
        }
        self.rests = self.piece < buf.len();
        let count = buf.len().min(self.piece);
        self.writer.write(&buf[..count])
    }

    fn flush(&mut self) -> io::Result<()> {
        self.writer.flush()
    }
}
