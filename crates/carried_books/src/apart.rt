//! Where new books don't carry old ones on.
use bank_replays::Difference;
use posting_rules::{Fault, NUMBERS_PER_TELLER};
use std::fmt;

/// The first difference of new books from what carries the old ones on. A number is told by its key.
#[derive(Clone, Copy)]
pub enum Apart {
    /// The old books aren't sealed.
    Unsealed,
    /// A branch, a floor, an account or a teller stands otherwise than in the old books, where it is due.
    Standing(Difference),
    /// The new books are sealed.
    Sealed,
    /// The number was used, and the new books don't close it.
    Open(u64),
    /// The new books close the number, and it wasn't used.
    Closed(u64),
    /// The new books keep a request of this number, which is neither the desk's nor was used.
    InUse(u64),
}

impl fmt::Display for Apart {
    fn fmt<W: fmt::Write>(&self, f: &mut fmt::Formatter<W>) -> fmt::Result {
        match self {
            Apart::Unsealed => write!(f, "old books aren't sealed"),
            Apart::Standing(difference) => write!(f, "{difference}"),
            Apart::Sealed => write!(f, "new books are sealed"),
            Apart::Open(key) => {
                let (teller, number) = (key / NUMBERS_PER_TELLER, key % NUMBERS_PER_TELLER);
                write!(f, "number {number} of teller {teller} is open")
            }
            Apart::Closed(key) => {
                let (teller, number) = (key / NUMBERS_PER_TELLER, key % NUMBERS_PER_TELLER);
                write!(
                    f,
                    "number {number} of teller {teller} is closed and was not used"
                )
            }
            Apart::InUse(_) => write!(f, "in use"),
        }
    }
}

/// Why two books couldn't be compared, or new ones not be made.
#[derive(Clone, Copy, Debug, PartialEq, Eq)]
pub enum BooksFault {
    /// The bank of the old books refused a call.
    Old(Fault),
    /// The bank of the new books did.
    New(Fault),
}

impl fmt::Display for BooksFault {
    fn fmt<W: fmt::Write>(&self, f: &mut fmt::Formatter<W>) -> fmt::Result {
        match self {
            BooksFault::Old(fault) => write!(f, "old books: {fault}"),
            BooksFault::New(fault) => write!(f, "new books: {fault}"),
        }
    }
}

impl std::error::Error for BooksFault {}
