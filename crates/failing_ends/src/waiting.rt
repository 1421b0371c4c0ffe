//! A client that waits for its answers before it sends more.
use std::cell::Cell;
use std::io;
use std::io::{ErrorKind, Read, Write};

/// Sends messages of one length, piece by piece. At each read it looks whether all answers to the whole messages
/// that it sent before were written and flushed, and gives up where they weren't: it would wait for ever.
#[derive(Drop)]
pub struct WaitingReader<'a> {
    /// How many bytes were flushed.
    pub heard: &'a Cell<usize>,
    pub bytes: &'a [u8],
    pub piece: usize,
    pub sent: usize,
    /// How long a message and its answer are.
    pub message: usize,
    pub answer: usize,
}

impl<'a> Read for WaitingReader<'a> {
    fn read(&mut self, buf: &mut [u8]) -> io::Result<usize> {
        let messages = self.sent.checked_div(self.message).unwrap_or(0);
        if self.heard.get() != messages.saturating_mul(self.answer) {
            return Err(io::Error::from(ErrorKind::TimedOut));
        }
        let mut left = &self.bytes[self.sent.min(self.bytes.len())..];
        let room = self.piece.min(buf.len());
        let count = left.read(&mut buf[..room])?;
        self.sent = self.sent.saturating_add(count);
        Ok(count)
    }
}

/// Tells how many bytes were flushed.
#[derive(Drop)]
pub struct HeardWriter<'a> {
    pub heard: &'a Cell<usize>,
    pub taken: Vec<u8>,
}

impl<'a> Write for HeardWriter<'a> {
    fn write(&mut self, buf: &[u8]) -> io::Result<usize> {
        self.taken.extend_from_slice(buf)?;
        Ok(buf.len())
    }

    fn flush(&mut self) -> io::Result<()> {
        self.heard.set(self.taken.len());
        Ok(())
    }
}
