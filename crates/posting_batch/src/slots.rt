//! Slots: what is known of the rows that a batch can touch, one for each key.
use message_records::{Account, Cents, Number, Teller};
use posting_rules::{Books, BranchRow, Kept};

/// What is known of an account.
#[derive(Clone, Copy)]
pub struct AccountSlot {
    /// Its number.
    pub account: Account,
    /// Its balance in the tables; none where it has no row.
    pub stored: Option<Cents>,
    /// The balance that its row is to have, where a posting changes it.
    pub changed: Option<Cents>,
}

/// What fills a place that no slot has taken yet.
impl Default for AccountSlot {
    fn default() -> Self {
        AccountSlot {
            account: Account::new(1).unwrap(),
            stored: None,
            changed: None,
        }
    }
}

/// What is known of a teller.
#[derive(Clone, Copy)]
pub struct TellerSlot {
    /// Its number.
    pub teller: Teller,
    /// Its balance in the tables; none where it has no row.
    pub stored: Option<Cents>,
    /// The balance that its row is to have, where a posting changes it.
    pub changed: Option<Cents>,
}

/// What fills a place that no slot has taken yet.
impl Default for TellerSlot {
    fn default() -> Self {
        TellerSlot {
            teller: Teller::new(1).unwrap(),
            stored: None,
            changed: None,
        }
    }
}

/// What is known of a branch.
#[derive(Clone, Copy)]
pub struct BranchSlot {
    /// The number that a teller or an account gives. It may be beyond those of branches.
    pub branch: u64,
    /// Its row in the tables; none where it has none.
    pub stored: Option<BranchRow>,
    /// The balance that its row is to have, where a posting changes it.
    pub changed: Option<Cents>,
}

/// What fills a place that no slot has taken yet.
impl Default for BranchSlot {
    fn default() -> Self {
        BranchSlot {
            branch: 1,
            stored: None,
            changed: None,
        }
    }
}

/// What is known of the floor of a branch's accounts.
#[derive(Clone, Copy)]
pub struct FloorSlot {
    /// The number that an account gives. It may be beyond those of branches.
    pub branch: u64,
    /// The floor in the tables; none where the accounts have none.
    pub floor: Option<Cents>,
}

/// What fills a place that no slot has taken yet.
impl Default for FloorSlot {
    fn default() -> Self {
        FloorSlot {
            branch: 1,
            floor: None,
        }
    }
}

/// What is kept under a teller and a number.
#[derive(Clone, Copy)]
pub struct RequestSlot {
    /// The teller that asks.
    pub teller: Teller,
    /// The teller's own number for the request.
    pub number: Number,
    /// What is kept; none where no request was decided under the two.
    pub kept: Option<Kept>,
    /// What closed books say of the number.
    pub books: Books,
}

/// What fills a place that no slot has taken yet.
impl Default for RequestSlot {
    fn default() -> Self {
        RequestSlot {
            teller: Teller::new(1).unwrap(),
            number: Number::new(1).unwrap(),
            kept: None,
            books: Books::Current,
        }
    }
}
