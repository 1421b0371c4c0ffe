//! The driver: its state, and the request that each step draws.
ghost use Rattle.std.specs.Prelude.{◌≡◌, ◌<◌, ◌≤◌, ◌+◌, ◌*◌, ◌↔◌, pos, ◌-ℤ◌, ◌≤ℤ◌, neg_ℤ, nat_abs, []};
ghost use Rattle.std.specs.Prelude.{length, get_or, map, IfOk, IfSome, IsErrOf, Ok, Err, Some, None};
ghost use Rattle.message_records.specs.believed.Spelling.{request_spelling};
ghost use Rattle.message_records.specs.believed.Reading.{request_of};
ghost use Rattle.branch_loader.specs.Plans.{IsPlan};
ghost use Rattle.load_driver.specs.believed.Draw.{draw};
ghost use Rattle.load_driver.specs.believed.Requests.{IsAscending, amount_by, is_home, request_at};
ghost use Rattle.load_driver.specs.Requests.{CountsOthers};
ghost use Rattle.load_driver.specs.believed.Requests.{request_by};
ghost use Rattle.load_driver.specs.Requests.{x_at};
ghost use Rattle.load_driver.specs.OfPlan.{IsOfPlan};
ghost use Rattle.load_driver.specs.Counts.{Driving, IsReady};

use crate::accounts::account_by;
use crate::draws::{Words, draw, take_words, words_of};
use branch_loader::{Plan, PlanRow};
use message_records::{
    Account, Cents, MAX_NUMBER, Number, REQUEST_BYTES, Request, Teller, encode_request,
};
use posting_core::{TELLERS_PER_BRANCH, first_teller};
use rand_pcg::Lcg128Xsl64;
use std::alloc::{AllocError, Global};
use std::fmt;
use std::marker::Model;

/// Why there is no driver. Nothing was drawn.
#[derive(Clone, Copy, Debug, PartialEq, Eq)]
pub enum DriverFault {
    /// The plan has no branch, so that there is no teller to draw.
    Empty,
    /// Memory was refused for the branches or for the counts of their tellers.
    Memory,
}

/// A text of a line, as `no branches`.
impl fmt::Display for DriverFault {
    ghost use Rattle.std.specs.Prelude.{Some};
    ghost use Rattle.load_driver.specs.Faults.{driver_text};

    ghost output = { λ fault. Some (driver_text fault) };

    fn fmt<W: fmt::Write>(&self, f: &mut fmt::Formatter<W>) -> fmt::Result {
        match self {
            DriverFault::Empty => write!(f, "no branches"),
            DriverFault::Memory => write!(f, "no memory"),
        }
    }
}

impl std::error::Error for DriverFault {}

/// How many records a driver gives: as many as one teller has numbers, so that no teller needs more.
pub const MAX_RECORDS: u64 = MAX_NUMBER;

// How far from zero an amount may be drawn, in cents (TPC-B 5.3).
const MAX_AMOUNT: u64 = 999_999;

// The rows of a plan by rising branches, so that their order in the plan doesn't matter.
fn ascending(alloc: Global, rows: &[PlanRow]) -> Result<Vec<PlanRow>, AllocError>
    requires { IsPlan rows.now }
    ensures plan { IfOk result (λ v. IsPlan v.items) }
    ensures ascending { IfOk result (λ v. IsAscending rows.now v.items) }
{
    let mut rows = rows.to_vec(alloc)?;
    rows.sort_unstable_by_key(|row| row.0.get());
    Ok(rows)
}

// The amount that a word draws, from -`MAX_AMOUNT` to `MAX_AMOUNT` cents.
fn amount_by(word: u64) -> Cents
    ensures value { result ≡ amount_by word }
    ensures small { nat_abs result ≤ MAX_AMOUNT }
{
    Cents::new(draw(word, 2 * MAX_AMOUNT + 1) as i64 - MAX_AMOUNT as i64).unwrap()
}

// The request of the teller at a place, from 0 on, among all tellers, by the record's words and by its
// number.
fn request_by(rows: &[PlanRow], place: u64, words: Words, number: u64) -> Request
    requires plan { IsPlan rows.now }
    requires place { place < TELLERS_PER_BRANCH * length rows.now }
    requires first { 1 ≤ number }
    requires last { number ≤ MAX_RECORDS }
    ensures value { result ≡ request_by rows.now place words.choice words.account words.amount number }
    ensures of_plan { IsOfPlan rows.now (is_home rows.now (draw words.choice 100)) result }
{
    let home = rows[(place / TELLERS_PER_BRANCH) as usize];
    let (branch, _, _) = home;
    let account = Account::new(account_by(rows, home, words.choice, words.account)).unwrap();
    let teller = Teller::new(first_teller(branch) + place % TELLERS_PER_BRANCH).unwrap();
    let number = Number::new(number).unwrap();
    Request::new(
        account,
        teller,
        branch,
        number,
        amount_by(words.amount),
        None,
    )
    .unwrap()
}

/// A driver: it draws the requests of a plan, one after the other, from the words of a seed (TPC-B 5.3).
#[derive(Drop)]
pub struct Driver {
    // the plan's rows, ascending
    rows: Vec<PlanRow>,
    // how many requests each teller has made, in the order of the tellers
    counts: Vec<u64>,
    words: Lcg128Xsl64,
    seed: u64,
    given: u64,
}

impl Model for Driver {
    ghost Value = { Driving };

    ghost view = { λ d. record { rows = d.rows.items; seed = d.seed; given = d.given } };

    ghost invariant = { λ d. IsReady d.rows.items d.seed d.given d.words d.counts.items };
}

impl Driver {
    /// The driver of a plan and a seed. It makes room for the branches and for the count of each teller, and
    /// takes no more memory later. `Empty` comes just where the plan has no branch.
    pub fn new(alloc: Global, plan: &Plan, seed: u64) -> Result<Driver, DriverFault>
        ensures empty { (result ≡ Err DriverFault.Empty) ↔ (plan.now ≡ []) }
        ensures rows { IfOk result (λ driver. IsAscending plan.now driver.rows) }
        ensures others { IfOk result (λ driver. CountsOthers driver.rows) }
        ensures seed { IfOk result (λ driver. driver.seed ≡ seed) }
        ensures given { IfOk result (λ driver. driver.given ≡ 0) }
    {
        if plan.rows().is_empty() {
            return Err(DriverFault::Empty);
        }
        let Ok(rows) = ascending(alloc, plan.rows()) else {
            return Err(DriverFault::Memory);
        };
        let Ok(counts) = vec![in alloc; 0u64; TELLERS_PER_BRANCH as usize * rows.len()] else {
            return Err(DriverFault::Memory);
        };
        Ok(Driver {
            rows,
            counts,
            words: words_of(seed),
            seed,
            given: 0,
        })
    }

    // Draws the next request.
    fn draw_next(&mut self) -> Request
        requires { self.old.given < MAX_RECORDS }
        ensures value { result ≡ request_at self.old.rows self.old.seed self.old.given }
        ensures of_plan { IsOfPlan self.old.rows (is_home self.old.rows (x_at self.old.seed self.old.given))
            result }
        ensures goes_on { self.new ≡ record self.old { given = self.old.given + 1 } }
    {
        let words = take_words(&mut self.words);
        let place = draw(words.teller, TELLERS_PER_BRANCH * self.rows.len() as u64);
        let number = self.counts[place as usize] + 1;
        self.counts[place as usize] = number;
        self.given += 1;
        request_by(self.rows.as_slice(), place, words, number)
    }

    /// The bytes of the next request; none after the first `MAX_RECORDS`. It takes no memory.
    #[must_use]
    pub fn next(&mut self) -> Option<[u8; REQUEST_BYTES]>
        ensures bytes { self.old.given < MAX_RECORDS →
            result ≡ Some (request_spelling (request_at self.old.rows self.old.seed self.old.given)) }
        ensures of_plan { self.old.given < MAX_RECORDS →
            IsOfPlan self.old.rows (is_home self.old.rows (x_at self.old.seed self.old.given))
            (request_at self.old.rows self.old.seed self.old.given) }
        ensures goes_on { self.old.given < MAX_RECORDS
            → self.new ≡ record self.old { given = self.old.given + 1 } }

        // The bytes are read as the request again.
        ensures read_again { IfSome result
            (λ bytes. request_of bytes ≡ Ok (request_at self.old.rows self.old.seed self.old.given)) }

        ensures ended { MAX_RECORDS ≤ self.old.given → result ≡ None }
        ensures stays { MAX_RECORDS ≤ self.old.given → self.new ≡ self.old }
    {
        if self.given == MAX_RECORDS {
            return None;
        }
        let request = self.draw_next();
        Some(encode_request(&request))
    }
}
