//! How long a client is waited for.
use crate::client::Client;
use posting_core::{Sink, Source};
use std::time::{Duration, Instant};

/// A message, from its first byte to its last, however they drip in, in seconds.
pub const WHOLE_MESSAGE: u64 = 10;

/// An answer, from the last byte that the client's side took of it to the next, in seconds.
pub const NEXT_BYTE: u64 = 10;

/// The next message on a connection that is kept, in seconds. Where all places are taken and somebody waits for one,
/// whoever says nothing longest is closed sooner.
pub const NEXT_MESSAGE: u64 = 60;

/// A client that waits for nothing and said nothing for so long, in milliseconds, is looked at less often.
pub const AWAKE: u64 = 100;

/// How often all clients are looked at, in milliseconds, while some are busy: hundreds that say nothing would cost as
/// much as a posting.
pub const LOOK_AT_ALL: u64 = 1;

/// What a client sends after its last answer, until it ends its side, in milliseconds.
pub const CLOSING: u64 = 500;

/// What a client is waited for.
#[derive(Clone, Copy, PartialEq, Eq)]
pub(crate) enum Awaited {
    NextMessage,
    RestOfMessage,
    Taking,
}

impl Awaited {
    pub fn limit(self) -> Duration {
        Duration::from_secs(match self {
            Awaited::NextMessage => NEXT_MESSAGE,
            Awaited::RestOfMessage => WHOLE_MESSAGE,
            Awaited::Taking => NEXT_BYTE,
        })
    }
}

/// What the client of a number is waited for, and since when.
#[derive(Clone, Copy)]
pub(crate) struct Patience {
    pub number: u64,
    pub awaited: Awaited,
    pub since: Instant,
    /// It may say something at once: it is within a message or an answer, or was a short time ago.
    pub is_awake: bool,
    // Changes where the client has kept pace: how many bytes of answers it hasn't taken, or of messages were
    // answered.
    mark: u64,
}

impl Patience {
    /// As it is with a client now. It was waited for already where nothing has changed since then.
    pub fn with<R: Source + Drop, W: Sink + Drop>(
        client: &Client<R, W>,
        given: u64,
        before: Option<Patience>,
        now: Instant,
    ) -> Patience {
        let (awaited, mark) = if !client.is_written() {
            (Awaited::Taking, client.untaken() as u64)
        } else {
            let answered = given.wrapping_sub(client.unanswered() as u64);
            if client.unanswered() > 0 {
                (Awaited::RestOfMessage, answered)
            } else {
                (Awaited::NextMessage, answered)
            }
        };
        let since = match before {
            Some(it) if it.awaited == awaited && it.mark == mark && !client.has_more() => it.since,
            _ => now,
        };
        let idle = now.duration_since(since);
        Patience {
            number: client.number(),
            awaited,
            since,
            is_awake: awaited != Awaited::NextMessage || idle < Duration::from_millis(AWAKE),
            mark,
        }
    }

    /// How long it is waited for still, and nothing where its time is over.
    pub fn left(&self, now: Instant) -> Option<Duration> {
        let taken = now.duration_since(self.since);
        let limit = self.awaited.limit();
        if taken < limit {
            limit.checked_sub(taken)
        } else {
            None
        }
    }
}
