//! Who is told how the serving goes.
use std::io;
use std::time::{Duration, Instant};

/// How often it is told, in seconds.
const TOLD: u64 = 1;

/// What is told how the serving goes. No contract speaks of it.
pub trait ServeWatch {
    /// So many clients are connected, and so many postings were done so far. It is told once a second at most.
    fn served(&mut self, connected: usize, postings: u64);

    /// The system can take nobody in now, for this cause. Those who are here are served on.
    fn lacking(&mut self, error: &io::Error);

    /// No more clients are served.
    fn ended(&mut self);
}

/// Nobody who watches.
#[derive(Drop)]
pub struct Unwatched;

impl ServeWatch for Unwatched {
    fn served(&mut self, _connected: usize, _postings: u64) {}

    fn lacking(&mut self, _error: &io::Error) {}

    fn ended(&mut self) {}
}

/// Who watches, and what was told last, and when.
#[derive(Drop)]
pub(crate) struct Watched<V: Drop> {
    watch: V,
    postings: u64,
    last: Option<(usize, u64, Instant)>,
}

impl<V: ServeWatch + Drop> Watched<V> {
    pub fn new(watch: V) -> Watched<V> {
        Watched {
            watch,
            postings: 0,
            last: None,
        }
    }

    /// So many postings more were done.
    pub fn posted(&mut self, count: usize) {
        self.postings = self.postings.saturating_add(count as u64);
    }

    /// How long until it is told that so many are connected, where something has changed.
    pub fn left(&self, connected: usize, now: Instant) -> Option<Duration> {
        match self.last {
            Some((before, postings, _)) if before == connected && postings == self.postings => None,
            Some((_, _, since)) => {
                let passed = now.duration_since(since);
                Some(Duration::from_secs(TOLD).saturating_sub(passed))
            }
            None => Some(Duration::ZERO),
        }
    }

    /// Tells what is so now, where it is time.
    pub fn look(&mut self, connected: usize, now: Instant) {
        if self.left(connected, now) == Some(Duration::ZERO) {
            self.last = Some((connected, self.postings, now));
            self.watch.served(connected, self.postings);
        }
    }

    /// The system can take nobody in now.
    pub fn lacking(&mut self, error: &io::Error) {
        self.watch.lacking(error);
    }

    /// No more clients are served.
    pub fn ended(&mut self) {
        self.watch.ended();
    }
}
