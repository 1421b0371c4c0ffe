//! Records that come again.
ghost use Rattle.std.specs.Prelude.{◌≡◌, ℕ, [], ◌∷◌, List, Result, Vec, IfOk};
ghost use Rattle.std.specs.declared.alloc.Global.{Global as Memory};
ghost use Rattle.message_records.specs.believed.Spelling.{reply_spelling};
ghost use Rattle.posting_rules.specs.believed.Commands.{Post};
ghost use Rattle.posting_rules.specs.believed.Counter.{Answers, IsCounterCall};
ghost use Rattle.posting_rules.specs.believed.Entries.{reply};
ghost use Rattle.posting_rules.specs.believed.Runs.{posts, replies_to};
ghost use Rattle.posting_rules.specs.declared.fault.Fault.{Fault};
ghost use Rattle.posting_core.specs.Again.{AnswersAgain};

use posting_rules::Counter;

/// A record that comes again gets the reply that it got, and adds no row, by each call of every counter that
/// takes records, as long as no branch was opened since. The premises are what the contracts of `submit` and
/// `submit_all` promise of a call; of a stream `post_stream` says it itself.
pub fn calls_resend_law<C: Counter>(_counter: &C)
    ensures submit { (old new : _) (moment : ℕ) (bytes : List ℕ) (result : Result (List ℕ) Fault)
        → IsCounterCall C.seen C.contents C.reason old new (Post moment bytes ∷ []) result
        → Answers (C.seen old) (C.seen new) result (λ log out. out ≡ reply_spelling (reply log bytes))
        → IfOk result (λ out. AnswersAgain (C.seen old) (C.seen new) (Post moment bytes ∷ []) (out ∷ [])) }
    ensures submit_all { (old new : _) (moment : ℕ) (records : List (List ℕ))
        (result : Result (Vec (List ℕ) Memory) Fault)
        → IsCounterCall C.seen C.contents C.reason old new (posts moment records) result
        → Answers (C.seen old) (C.seen new) result
        (λ log replies. replies.items ≡ replies_to log (posts moment records))
        → IfOk result (λ replies. AnswersAgain (C.seen old) (C.seen new) (posts moment records)
        replies.items) }
{}
