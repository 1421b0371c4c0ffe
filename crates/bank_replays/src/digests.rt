//! The digest of the kept requests.
ghost use Rattle.std.specs.Prelude.{◌≡◌, ◌≢◌, List, Err, IfOk, take};
ghost use Rattle.sqlite.specs.State.{HasCleanDisk};
ghost use Rattle.posting_rules.specs.believed.Commands.{Command};
ghost use Rattle.posting_rules.specs.believed.Counter.{ShowsLog};
ghost use Rattle.posting_rules.specs.declared.fault.Fault.TheVariants.{Down, Memory};
ghost use Rattle.walked_rows.specs.KeptRows.{HasKept, KeptItem};
ghost use Rattle.bank_store.specs.believed.Seen.{bank_seen, database_of, file_of};
ghost use Rattle.bank_replays.specs.Damaged.{TellsWhy};
ghost use Rattle.posting_core.specs.believed.LogEntries.{answered_after};
ghost use Rattle.bank_replays.specs.Digests.{DigestsFirst, DigestsRows, IsDigestIn};
ghost use Rattle.bank_replays.specs.Reading.{IsOnlyRead, ReadsBank};

use crate::chain::{Chaining, Digest};
use crate::fault::bank_fault;
use crate::visitors::{visit_all, visit_first};
use bank_store::Bank;
use posting_rules::{Counter, Fault};
use sqlite::Alter;
use walked_rows::KeptRequest;

/// The digest of all kept requests. A fault leaves the bank as it was.
pub(crate) fn digest_all<S: Alter>(bank: &mut Bank<S>) -> Result<Digest, Fault>
    ensures bank { ReadsBank S.Store bank.old bank.new result }
    ensures rows { HasCleanDisk (file_of bank.new) → (all : List KeptItem)
        → HasKept (database_of S.Store bank.old) all → IfOk result (IsDigestIn all) }
    ensures why { TellsWhy S.Store (λ fault. fault) bank.old bank.new result }
{
    let mut digest = Digest::none();
    match visit_all::<S, KeptRequest, Digest, Chaining>(bank, &Chaining, &mut digest) {
        Ok(()) => Ok(digest),
        Err(fault) => Err(bank_fault(fault)),
    }
}

// The digest of the first so many, or of all if there are fewer.
fn digest_first<S: Alter>(bank: &mut Bank<S>, count: u64) -> Result<Digest, Fault>
    ensures bank { ReadsBank S.Store bank.old bank.new result }
    ensures rows { HasCleanDisk (file_of bank.new) → (all : List KeptItem)
        → HasKept (database_of S.Store bank.old) all → IfOk result (IsDigestIn (take count all)) }
    ensures why { TellsWhy S.Store (λ fault. fault) bank.old bank.new result }
    ensures frugal { result ≢ Err Memory }
{
    let mut digest = Digest::none();
    match visit_first::<S, KeptRequest, Digest, Chaining>(bank, count, &Chaining, &mut digest) {
        Ok(_) => Ok(digest),
        Err(fault) => Err(bank_fault(fault)),
    }
}

/// The digest of the first so many kept requests, by their ordinals; none where there are fewer.
///
/// # Errors
///
/// None of them brings the bank down, and none changes the file.
///
/// | Error | What happened |
/// |---|---|
/// | [`Fault::Store`] | a read failed: the disk did, or memory or steps were refused |
/// | [`Fault::Down`] | the bank was down, and nothing was read |
/// | [`Fault::Damaged`] | a row can't be read, or with `Rule::Request` it is that of no request |
pub fn digest<S: Alter>(bank: &mut Bank<S>, count: u64) -> Result<Option<Digest>, Fault>
    ensures rows { (bank_seen S.Store bank.new).honest → (all : List KeptItem)
        → HasKept (database_of S.Store bank.old) all → DigestsRows count all result }
    ensures log { (bank_seen S.Store bank.new).honest → (log : List Command)
        → ShowsLog (bank_seen S.Store bank.old) log → DigestsFirst count (answered_after log) result }
    ensures why { TellsWhy S.Store (λ fault. fault) bank.old bank.new result }
    ensures frugal { result ≢ Err Memory }
    ensures reads { IsOnlyRead S.Store bank.old bank.new result }
    ensures down { (bank_seen S.Store bank.old).is_down → (result ≡ Err Down) × (bank.new ≡ bank.old) }
{
    if bank.is_down() {
        return Err(Fault::Down);
    }
    let digest = digest_first(bank, count)?;
    if digest.requests < count {
        return Ok(None);
    }
    Ok(Some(digest))
}
