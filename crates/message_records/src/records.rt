//! A request, what becomes of it, and the reply to it.
ghost use Rattle.std.specs.Prelude.{◌≡◌, ◌≤◌, nat_abs, IfSome};
ghost use Rattle.message_records.specs.believed.Records.{referenced, unreferenced};
ghost use Rattle.message_records.specs.Records.{IsReference};
ghost use Rattle.message_records.specs.Records.{request_from};

use crate::limits::MAX_DELTA;
use crate::numbers::{Account, Branch, Cents, Number, Teller};
use crate::reference::Reference;
use std::fmt;
use std::marker::Model;

/// A teller's request: what is to be added to an account, under the teller's own number (TPC-B 1.2; TPC-A,
/// contents of the messages).
#[derive(Clone, Copy, Debug, PartialEq, Eq)]
pub struct Request {
    account: Account,
    teller: Teller,
    branch: Branch,
    number: Number,
    delta: Cents,
    reference: Option<Reference>,
}

impl Model for Request {
    ghost use Rattle.std.specs.Prelude.{◌≤◌, nat_abs};
    ghost use Rattle.message_records.specs.declared.limits.TheConstants.{MAX_DELTA};
    ghost use Rattle.message_records.specs.believed.Records.{RequestFields};

    ghost Value = { RequestFields };

    ghost view = { λ a. record {
      account = a.account;
      teller = a.teller;
      branch = a.branch;
      number = a.number;
      delta = a.delta;
      reference = a.reference;
    } };

    ghost invariant = { λ a. nat_abs a.delta ≤ MAX_DELTA };

    ghost inverse = { λ r. record {
      account = r.account;
      teller = r.teller;
      branch = r.branch;
      number = r.number;
      delta = r.delta;
      reference = r.reference;
    } };
}

impl Request {
    // The greatest amount of a request, and the least with the other sign.
    const DELTA_LIMIT: i64 = MAX_DELTA as i64;

    /// The request of these fields; none where the amount is further from zero than `MAX_DELTA`. The branch
    /// needn't be the teller's.
    #[must_use]
    pub fn new(
        account: Account,
        teller: Teller,
        branch: Branch,
        number: Number,
        delta: Cents,
        reference: Option<Reference>,
    ) -> Option<Self>
        ensures { result ≡ request_from account teller branch number delta reference }
    {
        let amount = delta.get();
        if -Self::DELTA_LIMIT <= amount && amount <= Self::DELTA_LIMIT {
            Some(Request {
                account,
                teller,
                branch,
                number,
                delta,
                reference,
            })
        } else {
            None
        }
    }

    /// The account that the amount is to be added to. It may be one of another branch.
    pub fn account(&self) -> Account
        ensures { result ≡ self.now.account }
    {
        self.account
    }

    /// The teller that asks.
    pub fn teller(&self) -> Teller
        ensures { result ≡ self.now.teller }
    {
        self.teller
    }

    /// The branch that the request states: the teller's, unless it is to be refused.
    pub fn branch(&self) -> Branch
        ensures { result ≡ self.now.branch }
    {
        self.branch
    }

    /// The teller's own number for the request.
    pub fn number(&self) -> Number
        ensures { result ≡ self.now.number }
    {
        self.number
    }

    /// What is to be added, in cents, within `MAX_DELTA` of zero. Below zero it is taken from the account.
    pub fn delta(&self) -> Cents
        ensures value { result ≡ self.now.delta }
        ensures limit { nat_abs result ≤ MAX_DELTA }
    {
        self.delta
    }

    /// What the request is referred to by, where it has a reference.
    pub fn reference(&self) -> Option<Reference>
        ensures value { result ≡ self.now.reference }
        ensures is_reference { IfSome result IsReference }
    {
        let reference = self.reference?;
        // Its text is known to be printable.
        let _text = reference.text();
        Some(reference)
    }

    /// The request with this reference.
    pub(crate) fn referenced(self, reference: Reference) -> Self
        ensures { result ≡ referenced reference self }
    {
        Request {
            reference: Some(reference),
            ..self
        }
    }

    /// The request without its reference, as its reply shows it.
    #[must_use]
    pub fn unreferenced(self) -> Self
        ensures { result ≡ unreferenced self }
    {
        Request {
            reference: None,
            ..self
        }
    }
}

/// What becomes of a request.
#[derive(Clone, Copy, Debug, PartialEq, Eq)]
pub enum Outcome {
    /// It is posted.
    Posted,
    /// The teller isn't open.
    NoTeller,
    /// The branch isn't the teller's.
    WrongBranch,
    /// The account isn't open.
    NoAccount,
    /// The account would go below the lowest balance of its branch.
    BelowFloor,
    /// A balance would leave its limit.
    OverLimit,
    /// The teller gave the number to another request.
    ReusedNumber,
    /// The number was decided in closed books, and is never to be sent again.
    Closed,
    /// The books are sealed: what they haven't decided belongs to the new ones.
    Sealed,
    /// The bank has decided as many requests as it may.
    Full,
    /// The bytes are no request.
    Malformed,
}

impl Outcome {
    ghost use Rattle.message_records.specs.believed.Outcomes.{code_of, name_of, outcome_with};

    /// The code in the reply: two digits, 0..=99.
    #[must_use]
    pub fn code(self) -> u8
        ensures value { result ≡ code_of self }
        ensures most { result ≤ 99 }
    {
        match self {
            Outcome::Posted => 0,
            Outcome::NoTeller => 11,
            Outcome::WrongBranch => 12,
            Outcome::NoAccount => 13,
            Outcome::BelowFloor => 17,
            Outcome::OverLimit => 14,
            Outcome::ReusedNumber => 15,
            Outcome::Closed => 18,
            Outcome::Sealed => 19,
            Outcome::Full => 16,
            Outcome::Malformed => 90,
        }
    }

    /// The outcome that has this code, if one has.
    #[must_use]
    pub fn with_code(code: u64) -> Option<Self>
        ensures { result ≡ outcome_with code }
    {
        match code {
            0 => Some(Outcome::Posted),
            11 => Some(Outcome::NoTeller),
            12 => Some(Outcome::WrongBranch),
            13 => Some(Outcome::NoAccount),
            14 => Some(Outcome::OverLimit),
            15 => Some(Outcome::ReusedNumber),
            16 => Some(Outcome::Full),
            17 => Some(Outcome::BelowFloor),
            18 => Some(Outcome::Closed),
            19 => Some(Outcome::Sealed),
            90 => Some(Outcome::Malformed),
            _ => None,
        }
    }

    /// The name in the reply: up to 16 capitals and spaces.
    #[must_use]
    pub fn name(self) -> &'static str
        ensures { result.now ≡ name_of self }
    {
        match self {
            Outcome::Posted => "POSTED",
            Outcome::NoTeller => "NO TELLER",
            Outcome::WrongBranch => "WRONG BRANCH",
            Outcome::NoAccount => "NO ACCOUNT",
            Outcome::BelowFloor => "BELOW FLOOR",
            Outcome::OverLimit => "OVER LIMIT",
            Outcome::ReusedNumber => "REUSED NUMBER",
            Outcome::Closed => "CLOSED",
            Outcome::Sealed => "SEALED",
            Outcome::Full => "FULL",
            Outcome::Malformed => "MALFORMED",
        }
    }
}

/// The outcome's name.
impl fmt::Display for Outcome {
    ghost use Rattle.std.specs.Prelude.{Some};
    ghost use Rattle.message_records.specs.believed.Outcomes.{name_of};

    ghost output = { λ o. Some (name_of o) };

    fn fmt<W: fmt::Write>(&self, f: &mut fmt::Formatter<W>) -> fmt::Result {
        let name = self.name();
        write!(f, "{name}")
    }
}

/// The reply to what came in: it shows the request without its reference, unless the bytes were none, and the
/// account's new balance where the request was posted (TPC-A, contents of the messages).
#[derive(Clone, Copy, Debug, PartialEq, Eq)]
pub struct Reply {
    outcome: Outcome,
    request: Option<Request>,
    balance: Option<Cents>,
}

impl Model for Reply {
    ghost use Rattle.std.specs.Prelude.{◌≡◌, is_some, IfSome};
    ghost use Rattle.message_records.specs.believed.Outcomes.{has_balance};
    ghost use Rattle.message_records.specs.Outcomes.{has_request};
    ghost use Rattle.message_records.specs.believed.Records.{ReplyFields, unreferenced};

    ghost Value = { ReplyFields };

    ghost view = { λ a. record { outcome = a.outcome; request = a.request; balance = a.balance } };

    ghost invariant = { λ a. (is_some a.request ≡ has_request a.outcome)
        × (is_some a.balance ≡ has_balance a.outcome)
        × IfSome a.request (λ r. unreferenced r ≡ r) };

    ghost inverse = { λ r. record { outcome = r.outcome; request = r.request; balance = r.balance } };
}

impl Reply {
    ghost use Rattle.std.specs.Prelude.{is_some};
    ghost use Rattle.message_records.specs.believed.Outcomes.{has_balance};
    ghost use Rattle.message_records.specs.Outcomes.{has_request};
    ghost use Rattle.message_records.specs.Records.{reply_from};

    /// The reply of these parts; none where they don't belong together. A request belongs to every outcome
    /// but `Malformed`, and a balance to `Posted` alone. The reply shows the request without its reference.
    #[must_use]
    pub fn new(outcome: Outcome, request: Option<Request>, balance: Option<Cents>) -> Option<Self>
        ensures { result ≡ reply_from outcome request balance }
    {
        let has_request = outcome != Outcome::Malformed;
        let has_balance = outcome == Outcome::Posted;
        if request.is_some() == has_request && balance.is_some() == has_balance {
            Some(Reply {
                outcome,
                request: request.map(Request::unreferenced),
                balance,
            })
        } else {
            None
        }
    }

    /// What became of the request.
    pub fn outcome(&self) -> Outcome
        ensures { result ≡ self.now.outcome }
    {
        self.outcome
    }

    /// The request without its reference; none where the bytes that came in were none.
    pub fn request(&self) -> Option<Request>
        ensures { result ≡ self.now.request }
    {
        self.request
    }

    /// The account's new balance, where the request was posted.
    pub fn balance(&self) -> Option<Cents>
        ensures { result ≡ self.now.balance }
    {
        self.balance
    }

    /// The request and the balance, each there just where the outcome has it.
    pub(crate) fn shown(&self) -> (Option<Request>, Option<Cents>)
        ensures request { result.0 ≡ self.now.request }
        ensures shows_request { is_some self.now.request ≡ has_request self.now.outcome }
        ensures unreferenced { IfSome self.now.request (λ r. unreferenced r ≡ r) }
        ensures balance { result.1 ≡ self.now.balance }
        ensures shows_balance { is_some self.now.balance ≡ has_balance self.now.outcome }
    {
        (self.request, self.balance)
    }
}
