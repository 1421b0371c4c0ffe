//! The rows of a bank's tables.
ghost use Rattle.std.specs.Prelude.{◌≡◌, pos, IsTrue};
ghost use Rattle.posting_rules.specs.believed.Entries.{posted_entry};
ghost use Rattle.posting_rules.specs.believed.Kept.{is_kept_with};
ghost use Rattle.posting_rules.specs.believed.Tables.{request_row_of, history_row_of};

use crate::judgments::Decision;
use crate::limits::MAX_DECIDED;
use message_records::{
    Account, Branch, Cents, Moment, Number, Outcome, REFERENCE_BYTES, Reference, Request, Teller,
    Whole,
};

/// How many requests were decided with and before one: 1..=`MAX_DECIDED`.
pub type Ordinal = Whole<1, MAX_DECIDED>;

/// A branch (TPC-B 1.2), under its number.
#[derive(Clone, Copy, Debug)]
pub struct BranchRow {
    /// Its number.
    pub branch: Branch,
    /// How many accounts it has: 1..=`MAX_ACCOUNTS`.
    pub accounts: u32,
    /// Its balance in cents.
    pub balance: Cents,
}

/// A teller (TPC-B 1.2), under its number.
#[derive(Clone, Copy, Debug)]
pub struct TellerRow {
    /// Its number, which gives its branch.
    pub teller: Teller,
    /// Its balance in cents.
    pub balance: Cents,
}

/// An account (TPC-B 1.2), under its number.
#[derive(Clone, Copy, Debug)]
pub struct AccountRow {
    /// Its number, which gives its branch.
    pub account: Account,
    /// Its balance in cents.
    pub balance: Cents,
}

/// A posting (TPC-B 1.2), under the ordinal of its request.
#[derive(Clone, Copy, Debug)]
pub struct HistoryRow {
    /// The ordinal of the request that it posted.
    pub ordinal: Ordinal,
    /// The account that the amount was added to.
    pub account: Account,
    /// The teller that asked.
    pub teller: Teller,
    /// The teller's branch.
    pub branch: Branch,
    /// The amount in cents.
    pub delta: Cents,
    /// When the request was submitted.
    pub moment: Moment,
}

impl HistoryRow {
    /// The row of a request that is posted at this moment, whatever balance the account has then.
    #[must_use]
    pub fn posted(ordinal: Ordinal, moment: Moment, request: &Request) -> Self
        ensures { result ≡ history_row_of ordinal (posted_entry moment request.now (pos 0)) }
    {
        HistoryRow {
            ordinal,
            account: request.account(),
            teller: request.teller(),
            branch: request.branch(),
            delta: request.delta(),
            moment,
        }
    }
}

/// What fills a place that no row has taken yet, in lists whose places lie in a value.
impl Default for HistoryRow {
    fn default() -> Self {
        HistoryRow {
            ordinal: Whole::new(1).unwrap(),
            account: Whole::new(1).unwrap(),
            teller: Whole::new(1).unwrap(),
            branch: Whole::new(1).unwrap(),
            delta: Cents::zero(),
            moment: Whole::new(1).unwrap(),
        }
    }
}

/// A decided request, under its ordinal.
#[derive(Clone, Copy, Debug)]
pub struct RequestRow {
    /// How many requests were decided with and before it.
    pub ordinal: Ordinal,
    /// The teller that asked.
    pub teller: Teller,
    /// The teller's own number for the request.
    pub number: Number,
    /// What was decided of it.
    pub decision: Decision,
}

impl RequestRow {
    /// The row of a request that is decided with this outcome, and with the account's balance after a posting
    /// or zero, whenever that is.
    #[must_use]
    pub fn decided(ordinal: Ordinal, request: &Request, outcome: Outcome, balance: Cents) -> Self
        requires { IsTrue (is_kept_with outcome balance) }
        ensures { result ≡ request_row_of ordinal
            (record { moment = 0; request = request.now; outcome = outcome; balance = balance }) }
    {
        let (account, branch, delta) = (request.account(), request.branch(), request.delta());
        RequestRow {
            ordinal,
            teller: request.teller(),
            number: request.number(),
            decision: Decision::new(account, branch, delta, outcome, balance).unwrap(),
        }
    }
}

/// What fills a place that no row has taken yet, in lists whose places lie in a value.
impl Default for RequestRow {
    fn default() -> Self {
        let (account, branch) = (Whole::new(1).unwrap(), Whole::new(1).unwrap());
        let (delta, balance) = (Cents::zero(), Cents::zero());
        RequestRow {
            ordinal: Whole::new(1).unwrap(),
            teller: Whole::new(1).unwrap(),
            number: Whole::new(1).unwrap(),
            decision: Decision::new(account, branch, delta, Outcome::NoAccount, balance).unwrap(),
        }
    }
}

/// The floor of a branch's accounts, under the branch's number. A branch without a row has no floor.
#[derive(Clone, Copy, Debug)]
pub struct FloorRow {
    /// The number of the branch.
    pub branch: Branch,
    /// The lowest balance that its accounts may have, in cents: zero at most.
    pub lowest: Cents,
}

/// Numbers that closed books decided, from one key to another, under the last key. The row from 0 to 0 seals the
/// books.
#[derive(Clone, Copy, Debug)]
pub struct ClosingRow {
    /// The key of the last number.
    pub last: u64,
    /// The key of the first number.
    pub first: u64,
}

/// The reference of a decided request, under the request's ordinal. A request without a row has none.
#[derive(Clone, Copy, Debug)]
pub struct ReferenceRow {
    /// The ordinal of the request.
    pub ordinal: Ordinal,
    /// What it is referred to by.
    pub reference: Reference,
}

/// What fills a place that no row has taken yet, in lists whose places lie in a value.
impl Default for ReferenceRow {
    fn default() -> Self {
        ReferenceRow {
            ordinal: Whole::new(1).unwrap(),
            reference: Reference::new(&[b' '; REFERENCE_BYTES]).unwrap(),
        }
    }
}
