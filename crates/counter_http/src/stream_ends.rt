//! The two ends of a stream that doesn't block.
ghost use Rattle.std.specs.Prelude.{◌≡◌};
ghost use Rattle.std.specs.Io.{ReadsAtMost, WritesAtMost};
ghost use Rattle.std.specs.Io.KnownBytes.{ReadConsumes, WriteAppends};

use std::io;
use std::io::{Error, ErrorKind, Read, Write};

// What has nothing now may have something later: the call is to be made again.
fn again(kind: ErrorKind) -> ErrorKind {
    match kind {
        ErrorKind::WouldBlock => ErrorKind::Interrupted,
        kind => kind,
    }
}

/// Reads what a stream has. Where it has nothing now, a read is `Interrupted`.
#[derive(Drop)]
pub struct StreamReader<S: Drop> {
    pub(crate) stream: S,
    // How many bytes it gave.
    pub(crate) given: u64,
}

impl<S: Read + Drop> StreamReader<S> {
    pub(crate) fn new(stream: S) -> StreamReader<S> {
        StreamReader { stream, given: 0 }
    }
}

impl<S: Read + Drop> Read for StreamReader<S> {
    ghost remaining = { λ r. S.remaining r.stream };

    fn read(&mut self, buf: &mut [u8]) -> io::Result<usize> {
        match self.stream.read(buf) {
            Ok(count) => {
                self.given = self.given.wrapping_add(count as u64);
                Ok(count)
            }
            Err(e) => Err(Error::from(again(e.kind()))),
        }
    }
}

/// Writes what a stream takes. Where it takes nothing now, a write is `Interrupted`.
#[derive(Drop)]
pub struct StreamWriter<S: Drop> {
    pub(crate) stream: S,
}

impl<S: Write + Drop> StreamWriter<S> {
    pub(crate) fn new(stream: S) -> StreamWriter<S> {
        StreamWriter { stream }
    }
}

impl<S: Write + Drop> Write for StreamWriter<S> {
    ghost contents = { λ w. S.contents w.stream };

    fn write(&mut self, buf: &[u8]) -> io::Result<usize> {
        match self.stream.write(buf) {
            Ok(count) => Ok(count),
            Err(e) => Err(Error::from(again(e.kind()))),
        }
    }

    fn flush(&mut self) -> io::Result<()> {
        match self.stream.flush() {
            Ok(()) => Ok(()),
            Err(e) => Err(Error::from(again(e.kind()))),
        }
    }
}
