//! A bank that goes on in the place of the one that it followed.
ghost use Rattle.bank_lives.specs.Machines.{FirstAreAnsweredAgain, LaterAreCurrent, LaterAreKept};

/// A leader whose machine is lost, and a follower that has the first so many of its entries and goes on in its place.
/// Replies to later requests may be others than the leader gave, since tellers come in another order, and so may
/// moments. It does nothing: the law is what it ensures.
pub fn machines_law()
    // Each of the first requests gets the reply that it got, and is not posted again.
    ensures first { FirstAreAnsweredAgain }
    // Where the tellers send again what they sent, each in its order, the follower keeps all of the leader's requests,
    // each once, and its sums agree (TPC-B clause 2).
    ensures later { LaterAreKept }
    // No closed books of the follower refuse them where it began as a copy of the leader's, or with none.
    ensures current { LaterAreCurrent }
{}
