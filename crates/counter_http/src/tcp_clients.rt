//! The clients of a bound listener: how they are waited for, taken in and closed. No clause says what a stream or
//! `poll` answers, so the limits are read here: which client is given up, and which place is freed for another.
//! The function `first_connections` of `bank_trials`, which its script runs, plays both ends of two connections, in
//! one thread: one client says nothing, and another sends what an input gives; both are served from a bank in
//! memory, and the answers go to an output:
//!
//! ```rust
//! use counter_http::{TcpClients, Unwatched, serve_together};
//! use message_records::Branch;
//! use posting_core::{Counter, PlainBank, StoredClock};
//! use std::io::{self, Read, Write};
//! use std::net::{Shutdown, TcpListener, TcpStream};
//!
//! pub fn first_connections<R: Read, W: Write>(
//!     rt: &HostRuntime,
//!     input: &mut R,
//!     output: &mut W,
//! ) -> Result<(), anyhow::Error> {
//!     let mut bank = PlainBank::new(rt.alloc());
//!     bank.open_branch(Branch::new(1).unwrap(), 3, None)?;
//!     bank.open_branch(Branch::new(2).unwrap(), 2, None)?;
//!     let mut clock = StoredClock::new(Vec::new(rt.alloc()));
//!     let listener = TcpListener::bind(rt, "127.0.0.1:0")?; // any port that is free
//!     let silent = TcpStream::connect(rt, listener.local_addr()?)?;
//!     silent.shutdown(Shutdown::Write)?;
//!     let client = TcpStream::connect(rt, listener.local_addr()?)?;
//!     io::copy(input, &mut &client)?;
//!     client.shutdown(Shutdown::Write)?;
//!     let mut clients = TcpClients::new(rt.alloc(), listener, rt, Unwatched)?;
//!     serve_together(rt.alloc(), &mut clients, 2, &mut clock, &mut bank)?;
//!     io::copy(&mut &silent, output)?; // nothing
//!     io::copy(&mut &client, output)?;
//!     Ok(())
//! }
//! ```
//!
//! Read next: [`serve_together`], which serves them; `patience`, their limits.
//!
//! [`serve_together`]: crate::serve_together
use crate::client::Client;
use crate::clients::{Clients, Readiness};
use crate::closing::Closing;
use crate::patience::{Awaited, LOOK_AT_ALL, Patience};
use crate::serve_watch::{ServeWatch, Watched};
use crate::stream_ends::{StreamReader, StreamWriter};
use crate::together::MOST_CLIENTS;
use libc::net::{POLLIN, POLLOUT, poll};
use libc::types::pollfd;
use std::alloc::Global;
use std::io;
use std::io::ErrorKind;
use std::net::{TcpListener, TcpStream};
use std::os::fd::{AsRawFd, RawFd};
use std::time::{Clock, Duration, Instant};

// In the place of a client that isn't there.
const NOBODY: RawFd = -1;

// How many connections are being closed at once: each is a descriptor, of which a process has some 1,000.
const MOST_CLOSING: usize = 256;

// How many milliseconds the listener isn't asked for more, after the system could take none in.
const PAUSE: u64 = 200;

/// The clients of a bound listener that doesn't block. The system is asked to send each answer at once, and not to
/// wait until the one before it has arrived.
#[derive(Drop)]
pub struct TcpClients<'t, T, V: Drop> {
    listener: TcpListener,
    time: &'t T,
    watch: Watched<V>,
    // When the system could take nobody in last.
    lacking: Option<Instant>,
    // Somebody may wait at the listener.
    is_waited_for: bool,
    // A client was ready when clients were looked at last.
    is_busy: bool,
    // Of each client that was here when all were looked at last and is here still, in their order: whoever came
    // since then stands behind them.
    patience: Vec<Patience>,
    closing: Vec<Closing>,
    // The places of the clients that the system is asked for.
    places: Vec<usize>,
    // What it is asked: of the listener, of those clients, and of what is being closed.
    asked: Vec<pollfd>,
    // When all clients were looked at last.
    looked: Option<Instant>,
    // When the first were waited for, and when the last.
    began: Option<Instant>,
    now: Option<Instant>,
}

type TcpClient = Client<StreamReader<TcpStream>, StreamWriter<TcpStream>>;

// Of whom the system is asked what.
fn asked(fd: RawFd, events: i16) -> pollfd {
    pollfd {
        fd,
        events,
        revents: 0,
    }
}

// What is asked of a client: to read from it, or to write where an answer is left.
fn asked_of(client: Option<&TcpClient>) -> pollfd {
    match client {
        Some(it) if it.is_written() => asked(it.reader().stream.as_raw_fd(), POLLIN),
        Some(it) => asked(it.writer().stream.as_raw_fd(), POLLOUT),
        None => asked(NOBODY, 0),
    }
}

// At least this long, in milliseconds, and without an end where there is none.
fn millis(limit: Option<Duration>) -> i32 {
    match limit {
        Some(limit) => i32::try_from(limit.as_millis().saturating_add(1)).unwrap_or(i32::MAX),
        None => -1,
    }
}

// The shorter of two times, of which none has no end.
fn sooner(one: Option<Duration>, other: Option<Duration>) -> Option<Duration> {
    match (one, other) {
        (Some(one), Some(other)) => Some(one.min(other)),
        (one, None) => one,
        (None, other) => other,
    }
}

impl<'t, T: Clock, V: ServeWatch + Drop> TcpClients<'t, T, V> {
    /// Of a listener, which is told not to block.
    ///
    /// # Errors
    ///
    /// The system's, where it refuses that.
    pub fn new(alloc: Global, listener: TcpListener, time: &'t T, watch: V) -> io::Result<Self> {
        listener.set_nonblocking(true)?;
        Ok(TcpClients {
            listener,
            time,
            watch: Watched::new(watch),
            lacking: None,
            is_waited_for: true,
            is_busy: false,
            patience: Vec::new(alloc),
            closing: Vec::new(alloc),
            places: Vec::new(alloc),
            asked: Vec::new(alloc),
            looked: None,
            began: None,
            now: None,
        })
    }

    // Notes of each client what it is waited for.
    fn note(&mut self, clients: &[TcpClient], now: Instant) {
        for (place, client) in clients.iter().enumerate() {
            match self.patience.get_mut(place) {
                Some(it) => *it = Patience::with(client, client.reader().given, Some(*it), now),
                None => {
                    let it = Patience::with(client, client.reader().given, None, now);
                    if self.patience.push(it).is_err() {
                        return;
                    }
                }
            }
        }
    }

    // How long nothing is to be done, if no stream is ready before.
    fn time_left(&self, now: Instant) -> Option<Duration> {
        let mut left = None;
        for it in self.patience.iter() {
            left = sooner(left, Some(it.left(now).unwrap_or(Duration::ZERO)));
        }
        for it in self.closing.iter() {
            left = sooner(left, Some(it.left(now).unwrap_or(Duration::ZERO)));
        }
        left
    }

    // The place of the client that has said nothing for longest, with no message begun.
    fn longest_idle(&self) -> Option<usize> {
        let mut longest: Option<(usize, Instant)> = None;
        for (place, it) in self.patience.iter().enumerate() {
            let is_longer = match longest {
                Some((_, since)) => it.since < since,
                None => true,
            };
            if it.awaited == Awaited::NextMessage && is_longer {
                longest = Some((place, it.since));
            }
        }
        longest.map(|(place, _)| place)
    }

    // How long only those are looked at who are awake, and nothing where all are looked at now.
    fn until_all(&self, now: Instant) -> Option<Duration> {
        let passed = now.duration_since(self.looked?);
        Duration::from_millis(LOOK_AT_ALL).checked_sub(passed)
    }

    // How long the listener isn't asked for more.
    fn pause_left(&self, now: Instant) -> Option<Duration> {
        let passed = now.duration_since(self.lacking?);
        Duration::from_millis(PAUSE).checked_sub(passed)
    }

    // Whether the client at a place may say something at once.
    fn is_awake(&self, place: usize) -> bool {
        match self.patience.get(place) {
            Some(it) => it.is_awake,
            None => true,
        }
    }

    // Picks all clients, or those that are awake. Answers whether there was room for them.
    fn pick(&mut self, count: usize, all: bool) -> bool {
        self.places.clear();
        for place in 0..count {
            if (all || self.is_awake(place)) && self.places.push(place).is_err() {
                return false;
            }
        }
        true
    }

    // Puts together what is asked of the listener, of the clients that were picked and, with all, of what is being
    // closed. Answers whether there was room for it.
    fn ask(&mut self, clients: &[TcpClient], all: bool, looks_for_more: bool) -> bool {
        self.asked.clear();
        let events = if looks_for_more { POLLIN } else { 0 };
        if self
            .asked
            .push(asked(self.listener.as_raw_fd(), events))
            .is_err()
        {
            return false;
        }
        for place in self.places.iter() {
            if self.asked.push(asked_of(clients.get(*place))).is_err() {
                return false;
            }
        }
        for it in self.closing.iter() {
            let of_closing = asked(it.stream.as_raw_fd(), POLLIN);
            if all && self.asked.push(of_closing).is_err() {
                return false;
            }
        }
        true
    }

    // Whether something is ready at a place of what was asked.
    fn is_ready(&self, place: usize) -> bool {
        match self.asked.get(place) {
            Some(it) => it.revents != 0,
            None => false,
        }
    }

    // Asks the system, for so long at most unless a client has more, and tells of each client how it is: of those that
    // weren't picked, that they wait. Where some are busy all are asked without waiting, since to wait for hundreds costs
    // as much as half a posting. Answers whether there was room to ask and to tell.
    fn look(
        &mut self,
        clients: &[TcpClient],
        all: bool,
        looks_for_more: bool,
        left: Option<Duration>,
        readiness: &mut Vec<Readiness>,
    ) -> bool {
        if !self.pick(clients.len(), all) || !self.ask(clients, all, looks_for_more) {
            return false;
        }
        let has_more = self.places.iter().any(|place| match clients.get(*place) {
            Some(it) => it.has_more(),
            None => false,
        });
        let at_once = has_more || (all && self.is_busy);
        let timeout = if at_once { 0 } else { millis(left) };
        poll(self.asked.as_mut_slice(), timeout);
        self.is_waited_for = self.is_ready(0);
        if readiness.resize(clients.len(), Readiness::Waits).is_err() {
            return false;
        }
        let mut is_busy = false;
        for (nth, place) in self.places.iter().enumerate() {
            let has_more = match clients.get(*place) {
                Some(it) => it.has_more(),
                None => false,
            };
            if has_more || self.is_ready(nth.saturating_add(1)) {
                if let Some(it) = readiness.get_mut(*place) {
                    *it = Readiness::Ready;
                }
                is_busy = true;
            }
        }
        self.is_busy = is_busy;
        true
    }

    // Looks at the clients that are awake, until one is ready or it is time to look at all.
    fn look_at_some(
        &mut self,
        clients: &[TcpClient],
        awaits_more: bool,
        left: Duration,
        readiness: &mut Vec<Readiness>,
    ) {
        let looks_for_more = awaits_more && clients.len() < MOST_CLIENTS;
        let _known = self.look(clients, false, looks_for_more, Some(left), readiness);
    }

    // Looks at all clients, until one is ready or a limit has passed. Whoever kept a limit waiting is given up, and
    // where somebody waits for a place whoever is idle longest.
    fn look_at_all(
        &mut self,
        clients: &[TcpClient],
        awaits_more: bool,
        now: Instant,
        readiness: &mut Vec<Readiness>,
    ) {
        self.note(clients, now);
        let is_full = clients.len() >= MOST_CLIENTS;
        let idle = self.longest_idle();
        let looks_for_more = awaits_more && (!is_full || idle.is_some());
        let left = sooner(self.time_left(now), self.watch.left(clients.len(), now));
        let left = sooner(left, self.pause_left(now));
        if !self.look(clients, true, looks_for_more, left, readiness) {
            return;
        }
        let Ok(then) = Instant::now(self.time) else {
            return;
        };
        self.looked = Some(then);
        let must_give_way = is_full && self.is_waited_for;
        for (place, it) in readiness.iter_mut().enumerate() {
            let gives_way = must_give_way && idle == Some(place);
            if let Some(patience) = self.patience.get_mut(place) {
                if *it == Readiness::Ready {
                    patience.is_awake = true;
                } else if gives_way || patience.left(then).is_none() {
                    *it = Readiness::GivenUp;
                }
            }
        }
        self.drain(clients.len().saturating_add(1), then);
    }

    // Reads and drops what comes on connections that are being closed, the first of which were asked for after so
    // many others.
    fn drain(&mut self, before: usize, now: Instant) {
        for (place, it) in self.closing.iter_mut().enumerate() {
            let is_ready = match self.asked.get(before.saturating_add(place)) {
                Some(asked) => asked.revents != 0,
                None => false,
            };
            it.go_on(is_ready, now);
        }
        self.closing.retain(|it| !it.is_over);
    }

    // Waits until all connections are closed, each within its limit.
    fn finish(&mut self) {
        self.watch.ended();
        self.places.clear();
        'closing: for _ in 0..u64::MAX {
            let Ok(now) = Instant::now(self.time) else {
                return;
            };
            if self.closing.is_empty() {
                break 'closing;
            }
            if !self.ask(&[], true, false) {
                return;
            }
            let timeout = millis(self.time_left(now));
            poll(self.asked.as_mut_slice(), timeout);
            let Ok(then) = Instant::now(self.time) else {
                return;
            };
            self.drain(1, then);
        }
    }
}

impl<'t, T: Clock, V: ServeWatch + Drop> Clients for TcpClients<'t, T, V> {
    type Reader = StreamReader<TcpStream>;

    type Writer = StreamWriter<TcpStream>;

    fn wait(
        &mut self,
        clients: &[Client<Self::Reader, Self::Writer>],
        awaits_more: bool,
        readiness: &mut Vec<Readiness>,
    ) {
        readiness.clear();
        self.is_waited_for = true;
        let Ok(now) = Instant::now(self.time) else {
            return;
        };
        self.now = Some(now);
        if self.began.is_none() {
            self.began = self.now;
        }
        self.watch.look(clients.len(), now);
        let awaits_more = awaits_more && self.pause_left(now).is_none();
        match self.until_all(now) {
            Some(left) => self.look_at_some(clients, awaits_more, left, readiness),
            None => self.look_at_all(clients, awaits_more, now, readiness),
        }
    }

    fn open(&mut self, _number: u64) -> io::Result<Option<(Self::Reader, Self::Writer)>> {
        if !self.is_waited_for {
            return Ok(None);
        }
        let stream = match self.listener.accept() {
            Ok((stream, _)) => stream,
            Err(e) if is_passing(e.kind()) => return Ok(None),
            Err(e) if is_lacking(&e) => {
                self.lacking = self.now;
                self.is_waited_for = false;
                self.watch.lacking(&e);
                return Ok(None);
            }
            Err(e) => return Err(e),
        };
        let _ = stream.set_nodelay(true);
        ends_of(stream)
    }

    fn seconds(&self) -> u64 {
        match (self.began, self.now) {
            (Some(began), Some(now)) => now.duration_since(began).as_secs(),
            _ => 0,
        }
    }

    fn posted(&mut self, count: usize) {
        self.watch.posted(count);
    }

    fn ended(&mut self) {
        self.finish();
    }

    fn close(&mut self, number: u64, reader: Self::Reader, _writer: Self::Writer) {
        self.patience.retain(|it| it.number != number);
        let Ok(now) = Instant::now(self.time) else {
            return;
        };
        if self.closing.len() >= MOST_CLOSING {
            let _oldest = self.closing.remove(0);
        }
        if let Some(closing) = Closing::of(reader.stream, now) {
            let _ = self.closing.push(closing);
        }
    }
}

// Nobody waits, or whoever waited has gone.
fn is_passing(kind: ErrorKind) -> bool {
    matches!(
        kind,
        ErrorKind::WouldBlock | ErrorKind::Interrupted | ErrorKind::ConnectionAborted
    )
}

// The system lacks descriptors or memory now, or what came failed on its way: EPERM, ENOMEM, ENFILE, EMFILE, ENONET, EPROTO,
// ENOPROTOOPT, EOPNOTSUPP, ENETDOWN, ENETUNREACH, ENOBUFS, EHOSTDOWN or EHOSTUNREACH.
fn is_lacking(error: &io::Error) -> bool {
    matches!(
        error.raw_os_error(),
        Some(1 | 12 | 23 | 24 | 64 | 71 | 92 | 95 | 100 | 101 | 105 | 112 | 113)
    )
}

// The two ends of one client's stream; none where the system has no second one for it, which closes the connection.
// No clause ties a stream to its copy: it is read here that both are this client's.
fn ends_of(
    stream: TcpStream,
) -> io::Result<Option<(StreamReader<TcpStream>, StreamWriter<TcpStream>)>> {
    if stream.set_nonblocking(true).is_err() {
        return Ok(None);
    }
    match stream.try_clone() {
        Ok(copy) => Ok(Some((StreamReader::new(stream), StreamWriter::new(copy)))),
        Err(_) => Ok(None),
    }
}
