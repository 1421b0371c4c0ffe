//! The ends of a run, each of which fails where it is broken.
use std::io::{self, ErrorKind, Read, Write};

/// Gives these bytes, or fails each read.
#[derive(Drop)]
pub struct Input<'a> {
    pub rest: &'a [u8],
    pub is_broken: bool,
}

impl<'a> Read for Input<'a> {
    fn read(&mut self, buf: &mut [u8]) -> io::Result<usize> {
        if self.is_broken {
            return Err(io::Error::from(ErrorKind::BrokenPipe));
        }
        self.rest.read(buf)
    }
}

/// Keeps what is written, or fails each write.
#[derive(Drop)]
pub struct Output {
    pub written: Vec<u8>,
    pub is_broken: bool,
}

impl Write for Output {
    fn write(&mut self, buf: &[u8]) -> io::Result<usize> {
        if self.is_broken {
            return Err(io::Error::from(ErrorKind::BrokenPipe));
        }
        self.written.write(buf)
    }

    fn flush(&mut self) -> io::Result<()> {
        Ok(())
    }
}
