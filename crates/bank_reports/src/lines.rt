//! What stands above the lines of an account, and the line of one posting.
ghost use Rattle.std.specs.Prelude.{◌≡◌, ◌<◌, ◌+ℤ◌, ◌++◌, nat_abs, Err, IfNone, IfSome, OnErr, OnOk};
ghost use Rattle.message_records.specs.declared.limits.TheConstants.{MAX_BALANCE};
ghost use Rattle.posting_core.specs.EndCalls.{HasMore, HasWriteFailed};
ghost use Rattle.bank_reports.specs.declared.fault.ReportFault.TheVariants.{Write};
ghost use Rattle.report_contents.specs.StatementText.{heading_of, names_of};
ghost use Rattle.bank_reports.specs.Postings.{WritesLine, WritesText};

use crate::fault::ReportFault;
use message_records::{Account, Cents};
use posting_core::Sink;
use posting_rules::{Fault, Rule};
use report_contents::{Form, WriteFault, put};
use walked_rows::StatedPosting;

// The balance after one more posting, none where it is out of its limits.
fn with_delta(before: Cents, delta: i64) -> Option<Cents>
    ensures within { IfSome result (λ after. after ≡ before +ℤ delta) }
    ensures beyond { IfNone result (MAX_BALANCE < nat_abs (before +ℤ delta)) }
{
    let after = before.get().checked_add(delta)?;
    Cents::new(after)
}

/// Writes the heading of an account, and what stands below it.
pub(crate) fn write_heading<W: Sink>(
    form: &Form,
    account: Account,
    writer: &mut W,
) -> Result<(), WriteFault>
    ensures written { WritesText (heading_of form.now account ++ names_of form.now) (W.contents writer.old)
        (W.contents writer.new) result }
    ensures more { OnOk result (HasMore (W.calls writer.old) (W.calls writer.new)) }
    ensures failed { OnErr result (HasWriteFailed (W.calls writer.old) (W.calls writer.new)) }
{
    put(writer, form.heading(account).as_str())?;
    put(writer, form.names().as_str())?;
    Ok(())
}

/// Writes the line of a posting in a form, and gives the running balance after it.
pub(crate) fn write_line<W: Sink>(
    form: &Form,
    row: &StatedPosting,
    before: Cents,
    writer: &mut W,
) -> Result<Cents, ReportFault>
    ensures written { WritesLine form.now row.now before (W.contents writer.old) (W.contents writer.new) result }
    ensures more { OnOk result (HasMore (W.calls writer.old) (W.calls writer.new)) }
    ensures failed { result ≡ Err Write → HasWriteFailed (W.calls writer.old) (W.calls writer.new) }
{
    let Some(after) = with_delta(before, row.posting.delta) else {
        return Err(ReportFault::Bank(Fault::Damaged(Rule::Balance)));
    };
    put(writer, form.line(row, after).as_str())?;
    Ok(after)
}
