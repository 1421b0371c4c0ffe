//! How far long work is, for who waits at a terminal.

use bank_replays::Watch;
use branch_loader::FollowWatch;
use counter_http::ServeWatch;
use posting_core::{Clock, Count};
use std::io::{self, Write};

/// Says on standard error how far a replay, a log that is followed or the serving is, where that is a terminal: a line
/// that is written over, once a second at most, and wiped at the end. One that can't be written is given up.
#[derive(Drop)]
pub(crate) struct Progress<E, K> {
    faults: E,
    is_terminal: bool,
    clock: K,
    // The second of the last line, or the one in which the work began.
    second: u64,
    shown: bool,
}

impl<E: Write, K: Clock> Progress<E, K> {
    pub(crate) fn new(faults: E, is_terminal: bool, mut clock: K) -> Progress<E, K> {
        let second = clock.now().get();
        Progress {
            faults,
            is_terminal,
            clock,
            second,
            shown: false,
        }
    }

    // The line goes, if there is one.
    fn wipe(&mut self) {
        if self.shown {
            let _ = write!(self.faults, "\r{:>37}\r", "");
        }
    }

    // Whether a line is due: it is another second than that of the last one.
    fn is_due(&mut self) -> bool {
        let second = self.clock.now().get();
        if second == self.second {
            return false;
        }
        self.second = second;
        self.shown = true;
        true
    }
}

impl<E: Write, K: Clock> Watch for Progress<E, K> {
    fn reached(&mut self, ordinal: u64) {
        // A look at the clock costs as much as a row.
        if ordinal % 1_024 != 0 || !self.is_terminal {
            return;
        }
        if self.is_due() {
            let _ = write!(self.faults, "\rreplayed {ordinal:>12} requests");
        }
    }

    fn ended(&mut self) {
        self.wipe();
    }
}

impl<E: Write, K: Clock> ServeWatch for Progress<E, K> {
    fn served(&mut self, connected: usize, postings: u64) {
        if self.is_terminal {
            self.shown = true;
            let _ = write!(
                self.faults,
                "\r{connected:>3} connected, {postings:>12} postings"
            );
        }
    }

    fn lacking(&mut self, error: &io::Error) {
        if self.is_terminal && self.is_due() {
            let _ = writeln!(self.faults, "\rnobody can be taken in now: {error}");
        }
    }

    fn ended(&mut self) {
        self.wipe();
    }
}

impl<E: Write, K: Clock> FollowWatch for Progress<E, K> {
    fn followed(&mut self, entries: Count) {
        if self.is_terminal && self.is_due() {
            let _ = write!(self.faults, "\rfollowed {entries:>12} entries");
        }
    }
}
