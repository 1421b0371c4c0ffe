//! The limits of what a connection is asked. Code, contracts and definitions take them from here.

/// The length in bytes of the longest head that is taken, with the empty line after it.
pub const MAX_HEAD: usize = 8192;

/// How many fields a head may have.
pub const MAX_FIELDS: usize = 32;

/// The length in bytes of the longest body that is taken.
pub const MAX_BODY: usize = 4096;

/// The length of the buffer: the longest message.
pub(crate) const BUFFER: usize = MAX_HEAD + MAX_BODY;

/// How many digits the number of an account has at most.
pub(crate) const ACCOUNT_DIGITS: usize = 12;

/// How many digits the number of a teller has at most.
pub(crate) const TELLER_DIGITS: usize = 8;

/// How many digits a number of requests has at most in a path: as many as that of a full bank.
pub(crate) const PLACE_DIGITS: usize = 13;
