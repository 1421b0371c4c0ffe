//! What a replay says: where the rows of two banks differ.
use crate::chain::Digest;
use walked_rows::{
    StoredAccount, StoredBranch, StoredClosing, StoredFloor, StoredMeta, StoredPosting,
    StoredReference, StoredRequest, StoredTeller,
};

/// The row that stands under a key, and the one that the rules give; none where there is no such row.
#[derive(Clone, Copy)]
pub struct Sides<R> {
    pub stands: Option<R>,
    pub due: Option<R>,
}

/// The first difference of a bank from what the rules give, by its table and its key.
#[derive(Clone, Copy)]
pub enum Difference {
    Meta(Sides<StoredMeta>),
    Branch(Sides<StoredBranch>),
    Teller(Sides<StoredTeller>),
    Account(Sides<StoredAccount>),
    Posting(Sides<StoredPosting>),
    Request(Sides<StoredRequest>),
    Floor(Sides<StoredFloor>),
    Reference(Sides<StoredReference>),
    Closing(Sides<StoredClosing>),
}

/// What can be written down of a bank that agrees: the digest of its requests, SHA-256 of the plan of its branches
/// ([`write_plan`](crate::write_plan)), and that of its closed numbers: a line `LAST,FIRST` for each row of `closing`, by
/// their keys.
#[derive(Clone, Copy)]
pub struct Agreed {
    pub digest: Digest,
    pub plan: [u8; 32],
    pub closings: [u8; 32],
}

/// What a replay says of a bank.
#[derive(Clone, Copy)]
pub enum Replay {
    /// Its tables are what the rules give, and it has these digests.
    Agrees(Agreed),
    /// They aren't. This is the first difference.
    Differs(Difference),
}
