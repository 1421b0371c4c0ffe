//! Streams as calls of a life. A stream makes many calls; what its contract says of them all is here one call
//! of its life (`IsStream`): it took some commands, and may then have been refused others.
ghost use Rattle.std.specs.Prelude.{◌≡◌, ◌≤◌, ◌++◌, ℕ, List, Option, Result, IfErr, drop, length, take};
ghost use Rattle.counter_http.specs.Clients.{ClientsCall};
ghost use Rattle.counter_http.specs.Connections.{known_ends};
ghost use Rattle.posting_rules.specs.believed.Commands.{Command};
ghost use Rattle.posting_rules.specs.believed.Counter.{LeavesOnly, ShowsLog, ShowsPrefix, StandsAt};
ghost use Rattle.posting_rules.specs.believed.Runs.{replies_to};
ghost use Rattle.posting_rules.specs.declared.fault.Fault.{Fault as Cause};
ghost use Rattle.posting_core.specs.believed.Batches.{posts_of};
ghost use Rattle.posting_core.specs.believed.Stream.{IfBank, IsRefusedAfterBatches, Streamed, acknowledged};
ghost use Rattle.posting_core.specs.believed.EndCalls.{ReadCall};
ghost use Rattle.posting_core.specs.declared.stream.StreamFault.{StreamFault};
ghost use Rattle.counter_http.specs.believed.Outputs.{acknowledged_records};
ghost use Rattle.counter_http.specs.believed.Serving.{ServesConnection};
ghost use Rattle.counter_http.specs.believed.Turns.{commands_of};
ghost use Rattle.counter_http.specs.together.Order.{steps_of, submitted_by};
ghost use Rattle.counter_http.specs.together.Tracing.{ServesTogether};
ghost use Rattle.counter_http.specs.declared.fault.ServeFault.{ServeFault};
ghost use Rattle.counter_http.specs.declared.listen_fault.ListenFault.{ListenFault};
ghost use Rattle.branch_loader.specs.believed.Loading.{IsRefusedAfter};
ghost use Rattle.load_driver.specs.believed.Drives.{Drives};
ghost use Rattle.load_driver.specs.declared.drive.Driven.{Driven};
ghost use Rattle.load_driver.specs.declared.drive_fault.DriveFault.{DriveFault};
ghost use Rattle.bank_lives.specs.believed.Lives.{IsStream};

use counter_http::Clients;
use posting_rules::Counter;

/// A stream over a counter that was up is a call of its life, whatever its result, by the contracts of
/// `post_stream`, `serve_connection`, `load` and `drive_records`. All that the counter took counts as
/// acknowledged. So a command counts from the first byte of its reply that a writer accepted, or of the answer
/// that carries it.
pub fn streams_law<C: Counter>(_counter: &C)
    ensures posted { (r r' w w' k k' : Option (List ℕ)) (old new : _) (result : Result ℕ StreamFault)
        → (did : Streamed r r' w w' k k' (C.seen old) (C.seen new) result)
        → IfErr result (λ fault. IfBank fault (IsRefusedAfterBatches C.seen C.reason old new r r'))
        → ((C.seen old).is_down → ⊥)
        → IsStream (C.seen old) (C.seen new) (posts_of did.taken) (posts_of did.refused) }
    ensures acknowledged { (r r' w w' k k' : Option (List ℕ)) (old new : _) (result : Result ℕ StreamFault)
        → (did : Streamed r r' w w' k k' (C.seen old) (C.seen new) result)
        → (C.seen new).honest → (log : List Command) → ShowsLog (C.seen old) log
        → acknowledged (replies_to log (posts_of (did.taken ++ did.refused))) (length did.written)
        ≤ length (posts_of did.taken) }
    ensures served { (r r' : Option (List ℕ)) (q q' : Option (List ReadCall))
        → (w w' k k' : Option (List ℕ)) (old new : _) (result : Result ℕ ServeFault)
        → (did : ServesConnection C.seen r r' q q' w w' k k' old new result)
        → ((C.seen old).is_down → ⊥)
        → IsStream (C.seen old) (C.seen new) (commands_of did.taken) (commands_of did.refused) }
    ensures answered { (r r' : Option (List ℕ)) (q q' : Option (List ReadCall))
        → (w w' k k' : Option (List ℕ)) (old new : _) (result : Result ℕ ServeFault)
        → (did : ServesConnection C.seen r r' q q' w w' k k' old new result)
        → (C.seen new).honest → (log : List Command) → StandsAt (C.seen old) log
        → LeavesOnly (C.seen new) (ShowsPrefix log (commands_of (did.taken ++ did.refused))
        (acknowledged_records log did.taken (length did.written))) }
    ensures loaded { (old new : _) (openings : List Command) (fault : Cause) (answered : ℕ)
        → IsRefusedAfter C.seen old new openings fault answered
        → ((C.seen old).is_down → ⊥) → ((C.seen new).honest → (C.seen old).honest)
        → IsStream (C.seen old) (C.seen new) (take answered openings) (take 1 (drop answered openings)) }
    ensures driven { (k k' : Option (List ℕ)) (old new : _) (seed count : ℕ) (result : Result Driven DriveFault)
        → (did : Drives C.seen old new k k' seed count result)
        → ((C.seen old).is_down → ⊥)
        → IsStream (C.seen old) (C.seen new) (posts_of did.submits.taken) (posts_of did.submits.refused) }
{}

/// So are clients that are served at once, by the contract of `serve_together`: all that they sent is taken in
/// one order, and what was taken counts as acknowledged.
pub fn clients_law<C: Counter, D: Clients>(_counter: &C, _clients: &D)
    ensures { (g g' : Option (List (ClientsCall _))) (k k' : Option (List ℕ)) (old new : _) (count : ℕ)
        → (result : Result (Unit {0}) ListenFault) → (did : ServesTogether C.seen C.reason
        (known_ends D.Reader.remaining D.Reader.calls D.Reader.beside D.Writer.contents D.Writer.calls)
        g g' k k' old new count result)
        → ((C.seen old).is_down → ⊥)
        → IsStream (C.seen old) (C.seen new) (submitted_by (steps_of did.rounds)) (submitted_by did.refused) }
{}
