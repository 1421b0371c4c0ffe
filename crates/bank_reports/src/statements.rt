//! The statements of all accounts.
ghost use Rattle.std.specs.Prelude.{◌≡◌, Err};
ghost use Rattle.posting_rules.specs.declared.fault.Fault.TheVariants.{Down, Memory};
ghost use Rattle.bank_store.specs.believed.Seen.{bank_seen};
ghost use Rattle.bank_store.specs.Leaving.{LeavesAsFound};
ghost use Rattle.bank_reports.specs.declared.fault.ReportFault.TheVariants.{Bank as OfBank};
ghost use Rattle.bank_reports.specs.AllStatements.{StatesAll, StatesAllOfFile};
ghost use Rattle.bank_reports.specs.Leaving.{TellsDown};
ghost use Rattle.bank_reports.specs.Statements.{LeavesWriter};

use crate::fault::ReportFault;
use crate::gathering::Gathered;
use crate::parts::write_gathered;
use crate::postings::visit_postings;
use bank_store::Bank;
use posting_core::Sink;
use posting_rules::{Counter, Fault};
use report_contents::Query;
use sqlite::Alter;

/// Writes the statement of each account that has a posting which is selected, one after another, by rising accounts;
/// and flushes the writer. In columns each is written as [`write_selected`](crate::write_selected) writes one of a
/// range; where none is asked for, the range is all time. As CSV the names of the columns stand above all, once. The
/// postings are read once, and held in memory until all is written.
///
/// # Errors
///
/// None of them brings the bank down, and none changes the file.
///
/// | Error | What happened |
/// |---|---|
/// | [`ReportFault::Write`] | the writer failed, or took no byte; a prefix of the text was written |
/// | [`ReportFault::Bank`] of `Memory` | memory was refused, and nothing was written |
/// | of `Store` | a read failed: the disk did, or memory or steps were refused; nothing was written |
/// | of `Down` | the bank was down, and nothing was written |
/// | of `Damaged(Balance)` | a running balance is out of its limits; what stands above its line was written |
/// | of `Damaged` | a row can't be read, or its account is none; nothing was written |
pub fn write_statements<S: Alter + Drop, W: Sink>(
    bank: &mut Bank<S>,
    query: Query,
    writer: &mut W,
) -> Result<(), ReportFault>
    ensures bank { StatesAll (bank_seen S.Store bank.old) (bank_seen S.Store bank.new) query
        (W.contents writer.old) (W.contents writer.new) result }
    ensures file { (bank_seen S.Store bank.new).honest → StatesAllOfFile S.Store bank.old bank.new query
        (W.contents writer.old) (W.contents writer.new) result }
    ensures writer { LeavesWriter W.calls writer.old writer.new (bank_seen S.Store bank.new).is_down result }
    ensures memory { result ≡ Err (OfBank Memory) → W.contents writer.new ≡ W.contents writer.old }
    ensures down { TellsDown (bank_seen S.Store bank.old).is_down (result ≡ Err (OfBank Down))
        ((bank.new ≡ bank.old) × (writer.new ≡ writer.old)) }
    ensures up { (bank_seen S.Store bank.new).is_down → (bank_seen S.Store bank.old).is_down }
    ensures leaves { LeavesAsFound S.Store bank.old bank.new }
{
    if bank.is_down() {
        return Err(ReportFault::Bank(Fault::Down));
    }
    let mut gathered = Gathered::none(bank.alloc());
    visit_postings(bank, None, &mut gathered, writer)?;
    write_gathered(gathered, query, writer)
}
