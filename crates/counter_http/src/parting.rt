//! Why a client is served no longer.
use posting_core::Fault;

/// Why a client is served no longer, and what it has then.
#[derive(Clone, Copy)]
pub enum Parting {
    /// The walk over its messages ended, and all answers were written.
    Served,
    /// Its reader failed. All whole messages that were read were answered, and the answers were written.
    Read,
    /// Its writer failed, or took no byte. Of the answers a prefix was written.
    Write,
    /// The bank refused a call for one of its messages. All answers before and a 503 were written.
    Bank(Fault),
    /// Memory was refused for its answers. A prefix of them was written.
    Memory,
    /// A wait gave it up: it kept a limit waiting, or its place was needed. A prefix of the answers was written.
    GivenUp,
    /// The serving ended by a fault while it was served. A prefix of the answers was written.
    Stopped,
}
