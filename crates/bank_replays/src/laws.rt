//! What a bank gives back that is given what another one exported.
ghost use Rattle.bank_replays.specs.GivenBack.{GivesBack};

use posting_rules::Counter;

/// A bank whose branches are those of another one, which closed no numbers that this one didn't, and which is given the
/// records that this one exports ([`export`](crate::export)), keeps the same requests, moments aside, where no branch was
/// opened between them.
pub fn given_back_law<C: Counter>(_counter: &C)
    ensures { GivesBack }
{}
