//! What was read of the records of a batch.
ghost use Rattle.std.specs.Prelude.{◌≡◌};
ghost use Rattle.posting_batch.specs.Reads.{reads_in};

use message_records::{Bad, Request};
use std::slice;

/// What was read of each record, in order: of a single one in the value itself, of more in memory.
#[derive(Drop)]
pub(crate) enum Reads {
    One(Result<Request, Bad>),
    Many(Vec<Result<Request, Bad>>),
}

impl Reads {
    /// One after another.
    pub(crate) fn as_slice(&self) -> &[Result<Request, Bad>]
        ensures { result.now ≡ reads_in self.now }
    {
        match self {
            Reads::One(read) => slice::from_ref(read),
            Reads::Many(reads) => reads.as_slice(),
        }
    }
}
