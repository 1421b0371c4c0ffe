//! Sums over the tables of a bank: as they are found, and as what it was given leads to them.
use message_records::REFERENCE_BYTES;
use sqlite::{Alter, Connection, Error};

const TABLES: usize = 9;

/// A sum over each table, in which each row and each column has a weight of its own. Moments are aside, and
/// the version: no bank of another is taken up.
pub type Sums = [i64; TABLES];

const TEXTS: [&str; TABLES] = [
    "SELECT coalesce(sum(id + 3 * decided), 0) FROM meta",
    "SELECT coalesce(sum((1 + bid % 1009) * (1 + 3 * accounts + 5 * balance)), 0) FROM branch",
    "SELECT coalesce(sum((1 + tid % 1009) * (1 + 3 * balance)), 0) FROM teller",
    "SELECT coalesce(sum((1 + aid % 1009) * (1 + 3 * balance)), 0) FROM account",
    "SELECT coalesce(sum((1 + ordinal % 1009) * (1 + 3 * aid + 5 * tid + 7 * bid + 11 * delta)), 0) FROM history",
    "SELECT coalesce(sum((1 + ordinal % 1009) * (1 + 3 * tid + 5 * number + 7 * aid + 11 * bid + 13 * delta + 17 * outcome + 19 * balance)), 0) FROM request",
    "SELECT coalesce(sum((1 + bid % 1009) * (1 + 3 * lowest)), 0) FROM branch_floor",
    "SELECT coalesce(sum((1 + ordinal % 1009) * (1 + 3 * instr('ABCDEFGHIJKLMNOPQRSTUVWXYZ', substr(reference, 1, 1)) + 5 * instr('ABCDEFGHIJKLMNOPQRSTUVWXYZ', substr(reference, 2, 1)))), 0) FROM request_reference",
    "SELECT coalesce(sum((1 + last % 1009) * (1 + 3 * first)), 0) FROM closing",
];

/// The number that a query finds.
pub fn number<S: Alter>(conn: &mut Connection<S>, sql: &str) -> Result<i64, Error> {
    conn.query_row(sql, &[])?.get(0)
}

/// The sums that are found.
pub fn sums_of<S: Alter>(conn: &mut Connection<S>) -> Result<Sums, Error> {
    let mut found = [0; TABLES];
    for place in 0..TEXTS.len() {
        found[place] = number(conn, TEXTS[place])?;
    }
    Ok(found)
}

/// A decided request, as the tables keep it.
#[derive(Clone, Copy, PartialEq, Eq)]
pub struct Entry {
    pub ordinal: i64,
    pub account: i64,
    pub teller: i64,
    pub branch: i64,
    pub number: i64,
    pub delta: i64,
    pub outcome: i64,
    pub balance: i64,
    pub reference: Option<[u8; REFERENCE_BYTES]>,
}

impl Entry {
    /// Whether it is posted, or refused for good.
    pub fn is_posted(&self) -> bool {
        self.outcome == 0
    }
}

// The sum of the values, each as often as its factor says.
fn weighed(values: &[(i64, i64)]) -> i64 {
    values.iter().fold(1i64, |sum, (factor, value)| {
        sum.wrapping_add(value.wrapping_mul(*factor))
    })
}

// The place of a letter in the alphabet, from 1 on; 0 of another byte.
fn place_of(letter: u8) -> i64 {
    if letter.is_ascii_uppercase() {
        i64::from(letter.wrapping_sub(b'A')).wrapping_add(1)
    } else {
        0
    }
}

/// The sums that openings and requests lead to, one after another.
#[derive(Clone, Copy)]
pub struct ExpectedSums {
    sums: Sums,
    decided: i64,
}

impl ExpectedSums {
    /// A bank without branches: the one row of `meta`.
    pub fn new() -> Self {
        ExpectedSums {
            sums: [1, 0, 0, 0, 0, 0, 0, 0, 0],
            decided: 0,
        }
    }

    pub fn sums(&self) -> Sums {
        self.sums
    }

    /// The ordinal of the request that is decided next.
    pub fn next_ordinal(&self) -> i64 {
        self.decided.wrapping_add(1)
    }

    // Adds what a row of this key adds to its table that has this weight besides.
    fn add(&mut self, table: usize, key: i64, weight: i64) {
        let row = (key % 1009).wrapping_add(1).wrapping_mul(weight);
        if let Some(place) = self.sums.get_mut(table) {
            *place = place.wrapping_add(row);
        }
    }

    /// Opens a branch with so many accounts, and its ten tellers, with no balances, and with its floor.
    pub fn open(&mut self, branch: i64, accounts: u32, floor: Option<i64>) {
        if let Some(floor) = floor {
            self.add(6, branch, weighed(&[(3, floor)]));
        }
        self.add(1, branch, weighed(&[(3, i64::from(accounts))]));
        let below = branch.wrapping_sub(1);
        for place in 1..=10i64 {
            self.add(2, below.wrapping_mul(10).wrapping_add(place), 1);
        }
        for place in 1..=i64::from(accounts) {
            self.add(3, below.wrapping_mul(100_000).wrapping_add(place), 1);
        }
    }

    // Adds an amount to the balances of a branch, a teller and an account.
    fn move_balances(&mut self, entry: &Entry) {
        self.add(1, entry.branch, entry.delta.wrapping_mul(5));
        self.add(2, entry.teller, entry.delta.wrapping_mul(3));
        self.add(3, entry.account, entry.delta.wrapping_mul(3));
        let posting = weighed(&[
            (3, entry.account),
            (5, entry.teller),
            (7, entry.branch),
            (11, entry.delta),
        ]);
        self.add(4, entry.ordinal, posting);
    }

    /// Keeps a decided request, and moves the balances where it is posted.
    pub fn decide(&mut self, entry: &Entry) {
        self.decided = self.decided.wrapping_add(1);
        self.add(0, 0, 3);
        if entry.is_posted() {
            self.move_balances(entry);
        }
        let request = weighed(&[
            (3, entry.teller),
            (5, entry.number),
            (7, entry.account),
            (11, entry.branch),
            (13, entry.delta),
            (17, entry.outcome),
            (19, entry.balance),
        ]);
        self.add(5, entry.ordinal, request);
        if let Some(reference) = &entry.reference {
            self.refer(entry.ordinal, reference);
        }
    }

    // Adds the row of a reference, by its first two letters: all others are the second.
    fn refer(&mut self, ordinal: i64, reference: &[u8; REFERENCE_BYTES]) {
        let weight = weighed(&[(3, place_of(reference[0])), (5, place_of(reference[1]))]);
        self.add(7, ordinal, weight);
    }
}
