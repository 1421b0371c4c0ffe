//! Judges a request by what was looked up for it.
ghost use Rattle.std.specs.Prelude.{◌≡◌, ◌<◌, ◌≤◌, ◌+ℤ◌, Some};
ghost use Rattle.posting_rules.specs.believed.Cases.{account_case, case_of, is_below, plus_within, reply_in};
ghost use Rattle.posting_rules.specs.Cases.{IsProper};
ghost use Rattle.posting_rules.specs.believed.Entries.{malformed_reply};

use crate::judgments::{Books, Found, Verdict};
use crate::limits::MAX_DECIDED;
use crate::numbering::branch_of_teller;
use message_records::{Cents, Outcome, Reply, Request};

// The balance with the amount added, where it stays within the limit.
fn plus(balance: Cents, delta: Cents) -> Option<Cents>
    ensures { result ≡ plus_within balance delta }
{
    Cents::new(balance.get() + delta.get())
}

// The balance with the amount added is below the floor, where there is one.
fn falls_below(balance: Cents, delta: Cents, floor: Option<Cents>) -> bool
    ensures { result ≡ is_below floor (balance +ℤ delta) }
{
    match floor {
        Some(floor) => balance.get() + delta.get() < floor.get(),
        None => false,
    }
}

/// What becomes of a request (TPC-B 1.2): the first case that applies, in the order of the tests here. It
/// takes no memory.
#[tactic(auto, unfolding(crate::specs::believed::Cases::case_of))]
pub fn judge(found: &Found, request: &Request) -> Verdict
    requires { found.now.decided ≤ MAX_DECIDED }
    ensures value { result ≡ case_of found.now request.now }
    ensures proper { IsProper found.now result }
{
    let Some((teller, branch)) = found.teller else {
        return Verdict::Unkept(Outcome::NoTeller);
    };
    if let Some(kept) = &found.kept {
        return if kept.is_same(request) {
            Verdict::Again(kept.reply(request))
        } else {
            Verdict::Unkept(Outcome::ReusedNumber)
        };
    }
    match found.books {
        Books::Closed => return Verdict::Unkept(Outcome::Closed),
        Books::Sealed => return Verdict::Unkept(Outcome::Sealed),
        Books::Current => (),
    }
    if found.decided >= MAX_DECIDED {
        return Verdict::Unkept(Outcome::Full);
    }
    if request.branch().get() != branch_of_teller(request.teller()) {
        return Verdict::Refused(Outcome::WrongBranch);
    }
    let Some(account) = found.account else {
        return Verdict::Refused(Outcome::NoAccount);
    };
    judge_posting(found, account, teller, branch, request.delta())
}

// What becomes of a posting to these balances.
fn judge_posting(
    found: &Found,
    account: Cents,
    teller: Cents,
    branch: Cents,
    delta: Cents,
) -> Verdict
    requires { found.now.decided < MAX_DECIDED }
    ensures value { result ≡ account_case (Some account) found.now.floor teller branch delta }
    ensures proper { IsProper found.now result }
{
    if falls_below(account, delta, found.floor) {
        return Verdict::Refused(Outcome::BelowFloor);
    }
    match (
        plus(account, delta),
        plus(teller, delta),
        plus(branch, delta),
    ) {
        (Some(account), Some(teller), Some(branch)) => Verdict::Posted {
            account,
            teller,
            branch,
        },
        _ => Verdict::Refused(Outcome::OverLimit),
    }
}

/// The reply to bytes that are no request.
#[must_use]
pub fn malformed_reply() -> Reply
    ensures { result ≡ malformed_reply }
{
    Reply::new(Outcome::Malformed, None, None).unwrap()
}

/// The reply to a verdict. That to a posting has the account's new balance.
#[must_use]
pub fn reply_to(found: &Found, request: &Request, verdict: &Verdict) -> Reply
    requires { IsProper found.now verdict.now }
    ensures { result ≡ reply_in verdict.now request.now }
{
    match verdict {
        Verdict::Unkept(outcome) | Verdict::Refused(outcome) => {
            Reply::new(*outcome, Some(*request), None).unwrap()
        }
        Verdict::Again(reply) => *reply,
        Verdict::Posted { account, .. } => {
            Reply::new(Outcome::Posted, Some(*request), Some(*account)).unwrap()
        }
    }
}
