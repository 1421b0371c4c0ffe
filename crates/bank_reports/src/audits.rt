//! The audit of a bank.
ghost use Rattle.std.specs.Prelude.{◌≡◌, Err};
ghost use Rattle.posting_rules.specs.declared.fault.Fault.TheVariants.{Down, Memory};
ghost use Rattle.bank_store.specs.believed.Seen.{bank_seen};
ghost use Rattle.bank_store.specs.Seen.{fault_of};
ghost use Rattle.bank_reports.specs.Audits.{Audits, AuditsFile};
ghost use Rattle.bank_reports.specs.Leaving.{TellsDown};
ghost use Rattle.bank_store.specs.Leaving.{LeavesAsFound};

use crate::additions::add_all;
use crate::sums::Sums;
use bank_store::Bank;
use posting_rules::Fault;
use report_contents::Audit;
use sqlite::Alter;

/// Audits a bank, whatever rows its file has: how many there are, what they add up to, and whether they are
/// consistent (TPC-B clause 2). It takes its memory before the first row is read.
///
/// # Errors
///
/// None of them brings the bank down, and none changes the file.
///
/// | Error | What happened |
/// |---|---|
/// | [`Fault::Memory`] | memory was refused, and nothing was read |
/// | [`Fault::Store`] | a read failed: the disk did, or memory or steps were refused |
/// | [`Fault::Down`] | the bank was down, and nothing was read |
/// | [`Fault::Damaged`] | with `Rule::Value`: a key, a count of accounts or a moment is out of its range |
pub fn audit<S: Alter>(bank: &mut Bank<S>) -> Result<Audit, Fault>
    ensures bank { Audits (bank_seen S.Store bank.old) (bank_seen S.Store bank.new) result }
    ensures file { (bank_seen S.Store bank.new).honest → AuditsFile S.Store bank.old bank.new result }
    ensures memory { result ≡ Err Memory → bank.new ≡ bank.old }
    ensures down { TellsDown (bank_seen S.Store bank.old).is_down (result ≡ Err Down)
        (bank.new ≡ bank.old) }
    ensures up { fault_of bank.new ≡ fault_of bank.old }
    ensures leaves { LeavesAsFound S.Store bank.old bank.new }
{
    if bank.is_down() {
        return Err(Fault::Down);
    }
    let mut sums = Sums::new(bank.alloc())?;
    add_all(bank, &mut sums)?;
    Ok(sums.into_audit())
}
