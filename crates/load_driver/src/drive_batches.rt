//! A batch of records: they are drawn, submitted, and counted by their replies.
ghost use Rattle.std.specs.Prelude.{◌≡◌, ◌≤◌, ◌+◌, ℕ, length, count_by, MatchResult, IfErr, OnOk};
ghost use Rattle.posting_rules.specs.believed.Counter.{Refuses};
ghost use Rattle.posting_rules.specs.Counter.{HasRefused};
ghost use Rattle.posting_rules.specs.believed.Runs.{posts};
ghost use Rattle.posting_core.specs.Clock.{IsReading};
ghost use Rattle.load_driver.specs.Counted.{IsCounted};
ghost use Rattle.load_driver.specs.believed.Records.{drawn, is_posted};

use crate::{Driver, MAX_RECORDS};
use message_records::{REPLY_BYTES, REQUEST_BYTES};
use posting_core::{Clock, Counter, Fault, RECORDS_PER_BATCH};

/// The code of the outcome POSTED.
const POSTED: [u8; 2] = *b"00";

// Draws the next records, one for each place.
fn draw_batch(driver: &mut Driver, batch: &mut [[u8; REQUEST_BYTES]])
    requires { driver.old.given + length batch.old ≤ MAX_RECORDS }
    ensures drawn { batch.new ≡ drawn driver.old.rows driver.old.seed driver.old.given (length batch.old) }
    ensures goes_on { driver.new ≡ record driver.old { given = driver.old.given + length batch.old } }
{
    for place in batch.iter_mut() {
        *place = driver.next().unwrap();
    }
}

// Whether a reply says that its request was posted, by the outcome's code in bytes 4 and 5.
fn is_posted(reply: &[u8; REPLY_BYTES]) -> bool
    ensures { result ≡ is_posted reply.now }
{
    reply[4..6] == POSTED[..]
}

// How many of the replies say that their requests were posted.
fn count_posted(replies: &[[u8; REPLY_BYTES]]) -> u64
    ensures { result ≡ count_by is_posted replies.now }
{
    replies.iter().filter(|reply| is_posted(reply)).count() as u64
}

/// Draws a batch of 1..=`RECORDS_PER_BATCH` records, submits it under one reading of the clock, and returns
/// how many of them were posted. A fault is that of `submit_all`.
pub(crate) fn submit_batch<C: Counter, K: Clock>(
    driver: &mut Driver,
    batch: &mut [[u8; REQUEST_BYTES]],
    counter: &mut C,
    clock: &mut K,
) -> Result<u64, Fault>
    requires some { 1 ≤ length batch.old }
    requires few { length batch.old ≤ RECORDS_PER_BATCH }
    requires left { driver.old.given + length batch.old ≤ MAX_RECORDS }
    ensures drawn { batch.new ≡ drawn driver.old.rows driver.old.seed driver.old.given (length batch.old) }
    ensures goes_on { driver.new ≡ record driver.old { given = driver.old.given + length batch.old } }
    ensures answers { (moment : ℕ) × IsReading (K.readings clock.old) (K.readings clock.new) moment
        × MatchResult result
        (λ posted. IsCounted (C.seen counter.old) (C.seen counter.new) moment batch.new posted)
        (λ fault. Refuses fault (C.seen counter.old) (C.seen counter.new) (posts moment batch.new)) }
    ensures up { OnOk result ((C.seen counter.new).is_down → ⊥) }
    ensures why { IfErr result (HasRefused C.seen C.reason counter.old counter.new) }
    ensures honest { (C.seen counter.new).honest → (C.seen counter.old).honest }
    ensures spares { C.spares counter.old counter.new }
{
    draw_batch(driver, batch);
    let moment = clock.now();
    let replies = counter.submit_all(moment, batch)?;
    Ok(count_posted(&replies))
}
