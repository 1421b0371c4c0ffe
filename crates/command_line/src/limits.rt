//! The limits of the command line's own numbers.

/// The most connections that `serve` can be told to take.
pub const MAX_CONNECTIONS: u64 = 1_000_000;
