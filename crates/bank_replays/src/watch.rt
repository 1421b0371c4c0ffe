//! Who is told how far a replay is.

/// What is told how far a replay is. No contract speaks of it.
pub trait Watch {
    /// The second bank has the requests up to this ordinal, or is about to get them.
    fn reached(&mut self, ordinal: u64);

    /// It has all of them, or there was a fault.
    fn ended(&mut self);
}

/// Nobody who watches.
#[derive(Clone, Copy, Drop)]
pub struct Unwatched;

impl Watch for Unwatched {
    fn reached(&mut self, _ordinal: u64) {}

    fn ended(&mut self) {}
}
