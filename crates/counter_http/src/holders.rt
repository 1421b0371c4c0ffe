//! Whose balance a path names.
ghost use Rattle.std.specs.Prelude.{◌≡◌, ◌≤◌};
ghost use Rattle.counter_http.specs.believed.Answers.{account_named, number_named, teller_named};
ghost use Rattle.counter_http.specs.believed.Paths.{account_in, teller_in};

use crate::limits::{ACCOUNT_DIGITS, TELLER_DIGITS};
use message_records::{Account, Teller, Whole, read_digits};

/// Whose balance is read.
#[derive(Clone, Copy)]
pub(crate) enum Holder {
    Account(Account),
    Teller(Teller),
}

// Where the account is in its path, after `/account/`.
const ACCOUNT_START: usize = 9;

// Where the teller is in its path, after `/teller/`.
const TELLER_START: usize = 8;

// The number from 1 on that up to so many digits name, the first not 0.
fn number_named<const MOST: u64>(id: &[u8], digits: usize) -> Option<Whole<1, MOST>>
    requires { digits ≤ 12 }
    ensures { result ≡ number_named digits MOST id.now }
{
    if id.is_empty() || id.len() > digits || id[0] == b'0' {
        return None;
    }
    Whole::new(read_digits(id)?)
}

/// The account that the path of an account names.
pub(crate) fn account_in(path: &[u8]) -> Option<Account>
    ensures { result ≡ account_named (account_in path.now) }
{
    number_named(&path[ACCOUNT_START.min(path.len())..], ACCOUNT_DIGITS)
}

/// The teller that the path of a teller names.
pub(crate) fn teller_in(path: &[u8]) -> Option<Teller>
    ensures { result ≡ teller_named (teller_in path.now) }
{
    number_named(&path[TELLER_START.min(path.len())..], TELLER_DIGITS)
}
