//! What simulations did.
use std::fmt;

/// What a simulation did.
#[derive(Clone, Copy)]
pub struct Counts {
    /// Records that were given, those among them that came again.
    pub records: u64,
    pub batches: u64,
    pub streams: u64,
    pub connections: u64,
    /// Balances, statements and audits.
    pub reports: u64,
    pub replays: u64,
    pub lives: u64,
    pub stops: u64,
}

/// Counts more.
pub fn add(count: &mut u64, more: u64) {
    *count = count.saturating_add(more);
}

impl Counts {
    pub fn none() -> Self {
        Counts {
            records: 0,
            batches: 0,
            streams: 0,
            connections: 0,
            reports: 0,
            replays: 0,
            lives: 0,
            stops: 0,
        }
    }

    /// Adds what another simulation did.
    pub fn add(&mut self, other: &Counts) {
        add(&mut self.records, other.records);
        add(&mut self.batches, other.batches);
        add(&mut self.streams, other.streams);
        add(&mut self.connections, other.connections);
        add(&mut self.reports, other.reports);
        add(&mut self.replays, other.replays);
        add(&mut self.lives, other.lives);
        add(&mut self.stops, other.stops);
    }
}

impl fmt::Display for Counts {
    fn fmt<W: fmt::Write>(&self, f: &mut fmt::Formatter<W>) -> fmt::Result {
        write!(
            f,
            "records {} batches {} streams {} connections {} reports {} replays {} lives {} stops {}",
            self.records,
            self.batches,
            self.streams,
            self.connections,
            self.reports,
            self.replays,
            self.lives,
            self.stops
        )
    }
}
