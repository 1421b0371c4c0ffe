//! The law of books that are carried on. It is a function that does nothing and can't fail: its contract is the law.
ghost use Rattle.carried_books.specs.Carrying.{CarriesShown};

/// Where the tables of new books have every balance, floor and count of accounts of the old ones, and close just the
/// numbers that were used there, every log that the new ones show carries on every log that the old ones show.
pub fn carries_law()
    ensures { CarriesShown }
{}
