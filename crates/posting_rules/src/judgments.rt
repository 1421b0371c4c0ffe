//! What is looked up for a request, and what becomes of it.
ghost use Rattle.std.specs.Prelude.{◌≡◌};
ghost use Rattle.posting_rules.specs.Kept.{decision_from};
ghost use Rattle.posting_rules.specs.believed.Cases.{is_same_reference};

use message_records::{Account, Branch, Cents, Outcome, Reference, Reply, Request};
use std::marker::Model;

/// What was decided of a request.
#[derive(Clone, Copy, Debug, PartialEq, Eq)]
pub struct Decision {
    account: Account,
    branch: Branch,
    delta: Cents,
    outcome: Outcome,
    balance: Cents,
}

impl Model for Decision {
    ghost use Rattle.std.specs.Prelude.{IsTrue};
    ghost use Rattle.posting_rules.specs.believed.Kept.{DecisionFields, is_kept_with};

    ghost Value = { DecisionFields };

    ghost view = { λ k. record {
      account = k.account;
      branch = k.branch;
      delta = k.delta;
      outcome = k.outcome;
      balance = k.balance;
    } };

    ghost invariant = { λ k. IsTrue (is_kept_with k.outcome k.balance) };

    ghost inverse = { λ k. record {
      account = k.account;
      branch = k.branch;
      delta = k.delta;
      outcome = k.outcome;
      balance = k.balance;
    } };
}

impl Decision {
    ghost use Rattle.std.specs.Prelude.{IsTrue};
    ghost use Rattle.posting_rules.specs.believed.Kept.{is_kept_with, kept_with};

    /// The decision of these fields; none for an outcome that isn't kept, and none for a balance other than
    /// zero where the request wasn't posted. `Posted`, `WrongBranch`, `NoAccount`, `BelowFloor` and
    /// `OverLimit` are kept.
    #[must_use]
    pub fn new(
        account: Account,
        branch: Branch,
        delta: Cents,
        outcome: Outcome,
        balance: Cents,
    ) -> Option<Self>
        ensures { result ≡ decision_from account branch delta outcome balance }
    {
        let belongs = match outcome {
            Outcome::Posted => true,
            Outcome::WrongBranch | Outcome::NoAccount | Outcome::BelowFloor | Outcome::OverLimit =>
                balance.get() == 0,
            Outcome::NoTeller
            | Outcome::ReusedNumber
            | Outcome::Closed
            | Outcome::Sealed
            | Outcome::Full
            | Outcome::Malformed => false,
        };
        if belongs {
            Some(Decision {
                account,
                branch,
                delta,
                outcome,
                balance,
            })
        } else {
            None
        }
    }

    /// The account that the request named.
    pub fn account(&self) -> Account
        ensures { result ≡ self.now.account }
    {
        self.account
    }

    /// The branch that the request stated.
    pub fn branch(&self) -> Branch
        ensures { result ≡ self.now.branch }
    {
        self.branch
    }

    /// The amount of the request, in cents.
    pub fn delta(&self) -> Cents
        ensures { result ≡ self.now.delta }
    {
        self.delta
    }

    /// What became of it.
    pub fn outcome(&self) -> Outcome
        ensures value { result ≡ self.now.outcome }
        ensures belongs { IsTrue (is_kept_with self.now.outcome self.now.balance) }
    {
        self.outcome
    }

    /// The account's balance in cents after the posting, and zero where there was none.
    pub fn balance(&self) -> Cents
        ensures { result ≡ self.now.balance }
    {
        self.balance
    }

    /// What is kept of a request of which this was decided, with its reference.
    #[must_use]
    pub fn kept_with(self, reference: Option<Reference>) -> Kept
        ensures { result ≡ kept_with reference self }
    {
        Kept {
            decision: self,
            reference,
        }
    }
}

/// What is kept of a decided request, under its teller and number. The same request gets the same reply by
/// it.
#[derive(Clone, Copy, Debug, PartialEq, Eq)]
pub struct Kept {
    decision: Decision,
    reference: Option<Reference>,
}

impl Model for Kept {
    ghost use Rattle.posting_rules.specs.believed.Kept.{KeptFields};

    ghost Value = { KeptFields };

    ghost view = { λ k. record { decision = k.decision; reference = k.reference } };

    ghost inverse = { λ k. record { decision = k.decision; reference = k.reference } };
}

impl Kept {
    ghost use Rattle.posting_rules.specs.Kept.{kept_from};
    ghost use Rattle.posting_rules.specs.believed.Cases.{is_same, kept_reply};

    /// The kept request of these fields; none where there is no such decision.
    #[must_use]
    pub fn new(
        account: Account,
        branch: Branch,
        delta: Cents,
        outcome: Outcome,
        balance: Cents,
        reference: Option<Reference>,
    ) -> Option<Self>
        ensures { result ≡ kept_from account branch delta outcome balance reference }
    {
        let decision = Decision::new(account, branch, delta, outcome, balance)?;
        Some(decision.kept_with(reference))
    }

    /// What was decided of it.
    pub fn decision(&self) -> Decision
        ensures { result ≡ self.now.decision }
    {
        self.decision
    }

    /// What it is referred to by, where it has a reference.
    pub fn reference(&self) -> Option<Reference>
        ensures { result ≡ self.now.reference }
    {
        self.reference
    }

    // Tests whether a request has the content of this one.
    pub(crate) fn is_same(&self, request: &Request) -> bool
        ensures { result ≡ is_same self.now request.now }
    {
        self.decision.account == request.account()
            && self.decision.branch == request.branch()
            && self.decision.delta == request.delta()
            && is_same_reference(&self.reference, &request.reference())
    }

    // The reply that it got.
    pub(crate) fn reply(&self, request: &Request) -> Reply
        ensures { result ≡ kept_reply self.now request.now }
    {
        let Decision {
            outcome,
            balance,
            ..
        } = self.decision;
        let balance = if outcome == Outcome::Posted {
            Some(balance)
        } else {
            None
        };
        Reply::new(outcome, Some(*request), balance).unwrap()
    }
}

// Tests whether both are one reference, or neither is one.
fn is_same_reference(one: &Option<Reference>, other: &Option<Reference>) -> bool
    ensures { result ≡ is_same_reference one.now other.now }
{
    match (one, other) {
        (None, None) => true,
        (Some(one), Some(other)) => one.text()[..] == other.text()[..],
        _ => false,
    }
}

/// What closed books say of a request that these books don't keep.
#[derive(Clone, Copy, Debug, PartialEq, Eq)]
pub enum Books {
    /// Nothing: it is for these books to decide.
    Current,
    /// Its number was decided in closed books.
    Closed,
    /// These books are sealed, and decide nothing more.
    Sealed,
}

/// What is looked up for a request.
#[derive(Clone, Copy, Debug)]
pub struct Found {
    /// The balances of the teller and of the branch that its number gives, in cents, where the teller is
    /// open.
    pub teller: Option<(Cents, Cents)>,
    /// The request that is kept under the teller and the number.
    pub kept: Option<Kept>,
    /// What closed books say of the teller's number.
    pub books: Books,
    /// How many requests are decided: 0..=`MAX_DECIDED`.
    pub decided: u64,
    /// The balance of the account in cents, where it is open.
    pub account: Option<Cents>,
    /// The floor of the branch that the account's number gives, in cents, where it has one.
    pub floor: Option<Cents>,
}

/// What becomes of a request, and what is to be done to the tables.
#[derive(Clone, Copy, Debug, PartialEq, Eq)]
#[must_use]
pub enum Verdict {
    /// It is refused, and leaves no trace: `NoTeller`, `ReusedNumber`, `Closed`, `Sealed` or `Full`.
    Unkept(Outcome),
    /// It was decided before, and gets the reply that it got.
    Again(Reply),
    /// It is refused, and kept: `WrongBranch`, `NoAccount`, `BelowFloor` or `OverLimit`.
    Refused(Outcome),
    /// It is posted; these are the new balances, in cents.
    Posted {
        /// That of the account.
        account: Cents,
        /// That of the teller.
        teller: Cents,
        /// That of the branch.
        branch: Cents,
    },
}
