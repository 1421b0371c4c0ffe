//! Readers that cut and fail.
use std::io;
use std::io::{ErrorKind, Read};

/// Gives some bytes, then fails once if it has a fault, and then gives others.
#[derive(Drop)]
pub struct CutReader<'a> {
    pub before: &'a [u8],
    pub fault: Option<ErrorKind>,
    pub after: &'a [u8],
}

impl<'a> Read for CutReader<'a> {
    fn read(&mut self, buf: &mut [u8]) -> io::Result<usize> {
        if !self.before.is_empty() {
            return self.before.read(buf);
        }
        match self.fault.take() {
            Some(kind) => Err(io::Error::from(kind)),
            None => self.after.read(buf),
        }
    }
}

/// Gives so many bytes at most in each read.
#[derive(Drop)]
pub struct Pieces<'a> {
    pub rest: &'a [u8],
    pub most: usize,
}

impl<'a> Read for Pieces<'a> {
    fn read(&mut self, buf: &mut [u8]) -> io::Result<usize> {
        let count = buf.len().min(self.most);
        self.rest.read(&mut buf[..count])
    }
}
