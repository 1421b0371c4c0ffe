//! How a connection is closed, so that its last answer arrives.
use crate::patience::CLOSING;
use std::io::{ErrorKind, Read};
use std::net::{Shutdown, TcpStream};
use std::time::{Duration, Instant};

// How often what a client still sends is read, and how many bytes at a time: 1 MiB at most.
const MAX_READS: u32 = 64;

const PIECE: usize = 16_384;

/// A connection whose writing side is shut. What the client still sends is read and dropped until it ends its side
/// too, within the bounds above and below the limit: a connection that is closed with unread input is reset, and a
/// reset may take away what was written last.
#[derive(Drop)]
pub(crate) struct Closing {
    pub stream: TcpStream,
    since: Instant,
    reads: u32,
    pub is_over: bool,
}

impl Closing {
    /// Shuts the writing side. A failure of the system here is ignored: the answers were written.
    pub fn of(stream: TcpStream, now: Instant) -> Option<Closing> {
        match stream.shutdown(Shutdown::Write) {
            Ok(()) => Some(Closing {
                stream,
                since: now,
                reads: 0,
                is_over: false,
            }),
            Err(_) => None,
        }
    }

    /// How long it is waited for still, and nothing where its time is over.
    pub fn left(&self, now: Instant) -> Option<Duration> {
        let taken = now.duration_since(self.since);
        let limit = Duration::from_millis(CLOSING);
        if taken < limit {
            limit.checked_sub(taken)
        } else {
            None
        }
    }

    /// Drops a piece of what the client sent, where something has come.
    pub fn go_on(&mut self, is_ready: bool, now: Instant) {
        if self.left(now).is_none() || self.reads >= MAX_READS {
            self.is_over = true;
        } else if is_ready {
            self.reads += 1;
            let mut piece = [0u8; PIECE];
            let mut stream = &self.stream;
            self.is_over = match stream.read(&mut piece) {
                Ok(count) => count == 0,
                Err(e) => {
                    e.kind() != ErrorKind::Interrupted && e.kind() != ErrorKind::WouldBlock
                }
            };
        }
    }
}
