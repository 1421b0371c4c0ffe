//! What a counter says of itself: the replies that it gave since it began to serve clients, and how many it serves.
ghost use Rattle.std.specs.Prelude.{◌≡◌, [], ◌∷◌};
ghost use Rattle.counter_http.specs.Figures.{AddsOutcome, Counts, IsMore, nothing, outcome_in};

use message_records::{Outcome, REPLY_BYTES, read_digits};

/// How many replies were given, in all and by their outcomes, and by how many commits. A number that is full stays.
#[derive(Clone, Copy)]
pub(crate) struct Tally {
    pub records: u64,
    pub commits: u64,
    pub posted: u64,
    pub no_teller: u64,
    pub wrong_branch: u64,
    pub no_account: u64,
    pub below_floor: u64,
    pub over_limit: u64,
    pub reused_number: u64,
    pub closed: u64,
    pub sealed: u64,
    pub full: u64,
    pub malformed: u64,
}

// One more, where there is room for it.
fn one_more(count: u64) -> u64
    ensures { IsMore count result 1 }
{
    if count == u64::MAX { count } else { count + 1 }
}

// The outcome that a reply has the code of, if one does.
fn outcome_in(reply: &[u8; REPLY_BYTES]) -> Option<Outcome>
    ensures { result ≡ outcome_in reply.now }
{
    Outcome::with_code(read_digits(&reply[4..6])?)
}

impl Tally {
    /// No reply was given yet.
    pub fn new() -> Tally
        ensures { result ≡ nothing }
    {
        Tally {
            records: 0,
            commits: 0,
            posted: 0,
            no_teller: 0,
            wrong_branch: 0,
            no_account: 0,
            below_floor: 0,
            over_limit: 0,
            reused_number: 0,
            closed: 0,
            sealed: 0,
            full: 0,
            malformed: 0,
        }
    }

    // One more of this outcome.
    fn add(&mut self, outcome: Outcome)
        ensures { AddsOutcome self.old self.new outcome }
    {
        match outcome {
            Outcome::Posted => self.posted = one_more(self.posted),
            Outcome::NoTeller => self.no_teller = one_more(self.no_teller),
            Outcome::WrongBranch => self.wrong_branch = one_more(self.wrong_branch),
            Outcome::NoAccount => self.no_account = one_more(self.no_account),
            Outcome::BelowFloor => self.below_floor = one_more(self.below_floor),
            Outcome::OverLimit => self.over_limit = one_more(self.over_limit),
            Outcome::ReusedNumber => self.reused_number = one_more(self.reused_number),
            Outcome::Closed => self.closed = one_more(self.closed),
            Outcome::Sealed => self.sealed = one_more(self.sealed),
            Outcome::Full => self.full = one_more(self.full),
            Outcome::Malformed => self.malformed = one_more(self.malformed),
        }
    }

    // One reply more.
    fn count(&mut self, reply: &[u8; REPLY_BYTES])
        ensures { Counts self.old self.new (reply.now ∷ []) 0 }
    {
        self.records = one_more(self.records);
        if let Some(outcome) = outcome_in(reply) {
            self.add(outcome);
        }
    }

    /// One commit more, by which these replies were given.
    pub fn count_commit(&mut self, replies: &[[u8; REPLY_BYTES]])
        ensures { Counts self.old self.new replies.now 1 }
    {
        for reply in replies {
            self.count(reply);
        }
        self.commits = one_more(self.commits);
    }
}

/// What is said while a round of messages is answered.
#[derive(Clone, Copy)]
pub(crate) struct Figures {
    /// The replies that were given before the round.
    pub tally: Tally,
    /// How many clients are served.
    pub connections: u64,
    /// For how many seconds clients have been served.
    pub seconds: u64,
}
