//! Where clients come in, and how they are waited for.
ghost use Rattle.std.specs.Prelude.{◌∷◌, [], ℕ, List, Option, None};
ghost use Rattle.std.specs.List.{AllByRecursion};
ghost use Rattle.posting_core.specs.believed.EndCalls.{GrowsBy};
ghost use Rattle.counter_http.specs.Clients.{ClientsCall, Closed, opened_told, waited_told};
ghost use Rattle.counter_http.specs.together.Rounds.{ends_here, given_up, numbers};
ghost use Rattle.counter_http.specs.together.Standing.{IsUpToDate};

use crate::client::Client;
use posting_core::{Sink, Source};
use std::io;

/// What is known of a client's stream.
#[derive(Clone, Copy)]
pub enum Readiness {
    /// Nothing can be done with it now.
    Waits,
    /// It may give bytes, or take some where there are answers for it.
    Ready,
    /// The client kept a limit waiting, or its place is needed: it is given up.
    GivenUp,
}

/// What gives clients, each by its two ends, and waits for them. An end says by `Interrupted` that it gives or
/// takes nothing now. A type of its own may know what its calls returned.
pub trait Clients {
    type Reader: Source + Drop;

    type Writer: Sink + Drop;

    /// For whom each wait was so far and whom it gave up, what each opening returned, and what each closing was given, where
    /// it is known.
    ghost calls: { Self → Option (List (ClientsCall (Self.Reader × Self.Writer))) } = { λ _. None };

    /// Waits until a stream is ready, one more client has come where more are to come, or a limit has passed. It
    /// doesn't wait where a client has more: of the others each whole message that was read is answered. Where all
    /// places are taken, it may give a client up that says nothing, for the next one. It says how it is with each of
    /// them, in their order; of those that it says nothing of nothing is known.
    fn wait(
        &mut self,
        clients: &[Client<Self::Reader, Self::Writer>],
        awaits_more: bool,
        readiness: &mut Vec<Readiness>,
    )
        requires { AllByRecursion IsUpToDate clients.now }
        ensures { GrowsBy (calls self.old) (calls self.new)
            (waited_told (ends_here clients.now) (given_up (numbers clients.now) readiness.new.items)) };

    /// The next client, the one before whom so many came; none where nobody waits to be taken in.
    fn open(&mut self, number: u64) -> io::Result<Option<(Self::Reader, Self::Writer)>>
        ensures { GrowsBy (calls self.old) (calls self.new) (opened_told number result) };

    /// For how many seconds clients have been served. It is told to who asks for the figures, and no clause speaks of
    /// it.
    fn seconds(&self) -> u64 {
        0
    }

    /// So many postings were done in a round.
    fn posted(&mut self, _count: usize)
        ensures { GrowsBy (calls self.old) (calls self.new) [] }
    {}

    /// No more clients are served: it may wait until their connections are closed.
    fn ended(&mut self)
        ensures { GrowsBy (calls self.old) (calls self.new) [] }
    {}

    /// Closes the connection of a client, once what was written has come to it.
    fn close(&mut self, number: u64, reader: Self::Reader, writer: Self::Writer)
        ensures { GrowsBy (calls self.old) (calls self.new) (Closed number (reader, writer) ∷ []) };
}
