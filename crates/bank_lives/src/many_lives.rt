//! The laws of any number of lives.
ghost use Rattle.std.specs.Prelude.{◌≡◌, ◌∷◌, ◌++◌, [], ℕ, List};
ghost use Rattle.sqlite.specs.Held.{state};
ghost use Rattle.sqlite.specs.State.{Opens, Survives};
ghost use Rattle.posting_rules.specs.believed.Commands.{Command};
ghost use Rattle.posting_rules.specs.believed.Counter.{LeavesOnly, StandsAt};
ghost use Rattle.bank_store.specs.Connections.{conn_seen};
ghost use Rattle.bank_store.specs.believed.Seen.{bank_seen, connection_of};
ghost use Rattle.bank_lives.specs.believed.Lives.{EndsLife, IsCall, Life};
ghost use Rattle.bank_lives.specs.believed.ManyLives.{Given, IsFoundAfter, IsOpenedOn, Outlasts, Lives, ShowsAfter};
ghost use Rattle.bank_lives.specs.believed.LifeStates.{LifeState, Of_bank, seen_at};
ghost use Rattle.bank_lives.specs.Replayed.{IsReplayed};
ghost use Rattle.bank_lives.specs.Sending.{FindsSent, Sends};

use bank_store::{Bank, opened_law};
use sqlite::{Alter, Connection};

/// What joins one life to the next: a connection that was opened on what a crash left, of a bank or of a
/// connection that was refused before, and what `adopt` and `release` of `bank_store` say of it. A bank that is
/// taken up is a call that is given nothing; a refused one ends the life of its connection.
pub fn reopenings_law<S: Alter>(conn: &Connection<S>)
    ensures opened { (last : LifeState S.Store) → Opens (state S.Store conn.now)
        → (seen_at S.Store last).left (state S.Store conn.now).now.trees
        → IsOpenedOn (seen_at S.Store last) (conn_seen S.Store conn.now) }
    ensures adopted { (bank : _)
        → Survives (state S.Store conn.now) (state S.Store (connection_of bank)) (λ _. ⊥)
        → ((bank_seen S.Store bank).honest → (log : List Command) → StandsAt (conn_seen S.Store conn.now) log
        → StandsAt (bank_seen S.Store bank) log)
        → IsCall (conn_seen S.Store conn.now) (bank_seen S.Store bank) [] 0 }
    ensures refused { (back : _) → Survives (state S.Store conn.now) (state S.Store back) (λ _. ⊥)
        → EndsLife (conn_seen S.Store conn.now) (conn_seen S.Store back) }
    ensures released { (bank : _) → conn.now ≡ connection_of bank → ((bank_seen S.Store bank).is_down → ⊥)
        → IsCall (bank_seen S.Store bank) (conn_seen S.Store conn.now) [] 0 }
{
    opened_law(conn);
}

/// A file of anyone's, of whose bank `replay` of `bank_replays` says that it agrees: on an honest disk the bank
/// stands at the log that its tables show, as the replay left it. So does its connection once it is released, and a
/// bank that is taken up over that: `stands` of `release` and `adopt` in `bank_store`.
pub fn replayed_law<S: Alter>(conn: &Connection<S>)
    // Lives may begin there.
    ensures begins { (bank last : _) (log : List Command) → IsReplayed S.Store conn.now bank last log
        → Lives (seen_at S.Store) log (Of_bank last) [] }
    ensures stands { (bank last : _) (log : List Command) → IsReplayed S.Store conn.now bank last log
        → (bank_seen S.Store last).honest → StandsAt (bank_seen S.Store last) log }
{}

/// **After any number of lives the bank shows a log that is, life by life, a prefix of what was given, which
/// holds all that was acknowledged.** In every log each request is posted once, every branch has the sum of its
/// tellers, and accounts, tellers and the deltas of history have one sum (TPC-B clause 2; the laws
/// `each_request_once` and `tables_are_consistent` of `posting_rules`). A bank that was made begins with
/// no command, one that was carried over from an earlier version with the plain log of its file, one that
/// [`reopen`](crate::reopen) found over the files of another store with the log at which it stands (`on`), and one
/// of anyone's, of which a replay said that it agrees, with the log that its tables show ([`replayed_law`]). Each
/// life is a run of calls, streams and reports, and ends with a release or with a crash at any store call; a
/// reopening that was refused, or files that couldn't be opened, are a life that was given nothing.
pub fn lives_law<S: Alter>(_bank: &Bank<S>)
    ensures found { (start : List Command) (first : LifeState S.Store) (lives : List Given)
        → Lives (seen_at S.Store) start first lives
        → (seen_at S.Store first).honest → IsFoundAfter (seen_at S.Store first) start lives }
    // So it goes on from a log that other lives led to, as over the files of another store.
    ensures on { (start middle : List Command) (first : LifeState S.Store) (earlier later : List Given)
        → Outlasts start middle earlier → Lives (seen_at S.Store) middle first later
        → (seen_at S.Store first).honest → IsFoundAfter (seen_at S.Store first) start (later ++ earlier) }
    // Wherever the last life is stopped, all that may be left shows such a log.
    ensures left { (start : List Command) (lives : List Given) (life : Given) (first now last : LifeState S.Store)
        → Lives (seen_at S.Store) start first lives
        → Life (seen_at S.Store) first now life.commands life.least
        → EndsLife (seen_at S.Store now) (seen_at S.Store last) → (seen_at S.Store last).honest
        → LeavesOnly (seen_at S.Store last) (ShowsAfter start (life ∷ lives)) }
{}

/// A sender who goes on, after any number of stops, from his first record that wasn't answered, or from a place
/// before it, gets the replies that he would have got. The tables are those of a prefix of his list that
/// holds every answered record, each posting once, and at last of his whole list, moments aside.
pub fn sender_law<S: Alter>(_bank: &Bank<S>)
    ensures { (start : List Command) (first : LifeState S.Store) (sent before : List Given)
        (records : List (List ℕ)) (answered : ℕ)
        → Lives (seen_at S.Store) start first (sent ++ before) → Sends records sent answered
        → (seen_at S.Store first).honest
        → (log : List Command) × Outlasts start log before × FindsSent (seen_at S.Store first) log records answered }
{}
