//! The first record of a new bank, and the reply to it.
ghost use Rattle.std.specs.Prelude.{◌≡◌, OnOk, IfErr, IfOk};
ghost use Rattle.std.specs.Result.{IsErrOf};
ghost use Rattle.posting_rules.specs.declared.fault.Fault.TheVariants.{Memory};
ghost use Rattle.posting_rules.specs.believed.Tables.{AreTablesOf};
ghost use Rattle.posting_core.specs.Plain.{plain_tables};
ghost use Rattle.posting_core.specs.believed.EndCalls.{EndsWith, IsEndOfInput};
ghost use Rattle.posting_core.specs.EndCalls.{HasReadFailed, HasWriteFailed, IsFlush};
ghost use Rattle.counter_once.specs.First.{two_branches, FirstIsAnswered, FirstLeaves};

use message_records::{Branch, Moment};
use posting_core::{Counter, Fault, OnceFault, PlainBank, Sink, Source, answer_once};
use std::alloc::Global;

/// The moment of the record, in seconds since 1970-01-01T00:00:00Z.
const MOMENT: u64 = 1000;

// A bank in memory with three accounts in branch 1 and two in branch 2, without floors. The only fault is `Memory`.
fn two_branches(alloc: Global) -> Result<PlainBank, Fault>
    ensures shows { IfOk result (λ bank. AreTablesOf (plain_tables bank) two_branches) }
    ensures memory { IfErr result (λ fault. fault ≡ Memory) }
{
    let mut bank = PlainBank::new(alloc);
    bank.open_branch(Branch::new(1).unwrap(), 3, None)?;
    bank.open_branch(Branch::new(2).unwrap(), 2, None)?;
    Ok(bank)
}

/// Answers the first record of a new bank, in which branch 1 has three accounts and branch 2 has two. It
/// reads 100 bytes, leaves what follows unread, and writes and flushes 200 bytes.
///
/// # Errors
///
/// - [`OnceFault::Short`]: the input ended within the record, and nothing was written.
/// - [`OnceFault::Read`]: a read failed, and nothing was written.
/// - [`OnceFault::Write`]: a write or the flush failed, and a prefix of the reply may be written.
/// - [`OnceFault::Bank`]: the bank was refused memory, and nothing was written.
pub fn answer_first<R: Source, W: Sink>(
    alloc: Global,
    reader: &mut R,
    writer: &mut W,
) -> Result<(), OnceFault>
    ensures ok { OnOk result (FirstIsAnswered (R.remaining reader.old) (R.remaining reader.new)
        (W.contents writer.old) (W.contents writer.new)) }
    ensures fault { IfErr result (λ fault. FirstLeaves fault (R.remaining reader.old) (R.remaining reader.new)
        (W.contents writer.old) (W.contents writer.new)) }
    ensures ended { IsErrOf result OnceFault.Short
        → EndsWith IsEndOfInput (R.calls reader.old) (R.calls reader.new) }
    ensures unread { IsErrOf result OnceFault.Read → HasReadFailed (R.calls reader.old) (R.calls reader.new) }
    ensures unwritten { IsErrOf result OnceFault.Write
        → HasWriteFailed (W.calls writer.old) (W.calls writer.new) }
    ensures flushed { OnOk result (EndsWith IsFlush (W.calls writer.old) (W.calls writer.new)) }
{
    let mut bank = match two_branches(alloc) {
        Ok(bank) => bank,
        Err(fault) => return Err(OnceFault::Bank(fault)),
    };
    answer_once(reader, writer, Moment::new(MOMENT).unwrap(), &mut bank)
}
