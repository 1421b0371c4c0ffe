//! The statements of accounts whose postings are gathered, one after another.
ghost use Rattle.std.specs.Prelude.{◌≡◌, All, Err, OnErr, OnOk};
ghost use Rattle.std.specs.List.Sorted.{IsNonDecreasingBy};
ghost use Rattle.posting_core.specs.believed.EndCalls.{EndsWith};
ghost use Rattle.posting_core.specs.EndCalls.{HasMore, HasWriteFailed, IsFlush};
ghost use Rattle.report_contents.specs.AllStatements.{above_in};
ghost use Rattle.bank_reports.specs.declared.fault.ReportFault.TheVariants.{Write};
ghost use Rattle.bank_reports.specs.AllPostings.{IsOfAccount, WritesGathered};
ghost use Rattle.bank_reports.specs.Gathering.{account_of};
ghost use Rattle.bank_reports.specs.Parts.{WritesAccount, WritesLines, WritesListed, WritesParts};
ghost use Rattle.bank_reports.specs.Postings.{WritesText};

use crate::fault::ReportFault;
use crate::gathering::Gathered;
use crate::lines::{write_heading, write_line};
use message_records::{Account, Cents};
use posting_core::Sink;
use report_contents::{Form, Layout, Query, WriteFault, put, put_last};
use walked_rows::StatedPosting;

// Writes the lines of postings in a form.
fn write_each<W: Sink>(
    form: &Form,
    rows: &[StatedPosting],
    writer: &mut W,
) -> Result<(), ReportFault>
    ensures written { WritesLines form.now rows.now (W.contents writer.old) (W.contents writer.new) result }
    ensures more { OnOk result (HasMore (W.calls writer.old) (W.calls writer.new)) }
    ensures failed { result ≡ Err Write → HasWriteFailed (W.calls writer.old) (W.calls writer.new) }
{
    let mut balance = Cents::zero();
    for row in rows {
        let after = write_line(form, row, balance, writer)?;
        balance = after;
    }
    Ok(())
}

// Writes what stands above the lines of an account.
fn write_above<W: Sink>(
    layout: Layout,
    form: &Form,
    account: Account,
    writer: &mut W,
) -> Result<(), WriteFault>
    ensures written { WritesText (above_in layout form.now account) (W.contents writer.old) (W.contents writer.new)
        result }
    ensures more { OnOk result (HasMore (W.calls writer.old) (W.calls writer.new)) }
    ensures failed { OnErr result (HasWriteFailed (W.calls writer.old) (W.calls writer.new)) }
{
    match layout {
        Layout::Sheet { .. } => Ok(()),
        Layout::Columns => write_heading(form, account, writer),
    }
}

// Writes the statement of an account that has these postings.
fn write_account<W: Sink>(
    account: Account,
    rows: &[StatedPosting],
    query: &Query,
    writer: &mut W,
) -> Result<(), ReportFault>
    ensures written { WritesAccount query.now account rows.now (W.contents writer.old) (W.contents writer.new) result }
    ensures more { OnOk result (HasMore (W.calls writer.old) (W.calls writer.new)) }
    ensures failed { result ≡ Err Write → HasWriteFailed (W.calls writer.old) (W.calls writer.new) }
{
    let form = Form::of_account(query, rows);
    write_above(query.layout, &form, account, writer)?;
    write_each(&form, rows, writer)?;
    put(writer, form.closing().as_str())?;
    Ok(())
}

// Writes it if one of them is selected.
fn write_listed<W: Sink>(
    account: Account,
    rows: &[StatedPosting],
    query: &Query,
    writer: &mut W,
) -> Result<(), ReportFault>
    ensures written { WritesListed query.now account rows.now (W.contents writer.old) (W.contents writer.new) result }
    ensures more { OnOk result (HasMore (W.calls writer.old) (W.calls writer.new)) }
    ensures failed { result ≡ Err Write → HasWriteFailed (W.calls writer.old) (W.calls writer.new) }
{
    if query.selection.has_any(rows) {
        write_account(account, rows, query, writer)
    } else {
        Ok(())
    }
}

// Writes the statements of postings that stand by accounts.
fn write_parts<W: Sink>(
    rows: &[StatedPosting],
    query: &Query,
    writer: &mut W,
) -> Result<(), ReportFault>
    requires rise { IsNonDecreasingBy account_of rows.now }
    requires numbers { All IsOfAccount rows.now }
    ensures written { WritesParts query.now rows.now (W.contents writer.old) (W.contents writer.new) result }
    ensures more { OnOk result (HasMore (W.calls writer.old) (W.calls writer.new)) }
    ensures failed { result ≡ Err Write → HasWriteFailed (W.calls writer.old) (W.calls writer.new) }
{
    let mut left = rows;
    'accounts: for _ in 0..rows.len() {
        let Some(first) = left.first() else {
            return Ok(());
        };
        let number = first.posting.account.unsigned_abs();
        let account = Account::new(number).unwrap();
        let count = left.partition_point(|row| row.posting.account.unsigned_abs() <= number);
        let (own, later) = left.split_at(count);
        write_listed(account, own, query, writer)?;
        left = later;
    }
    Ok(())
}

/// Writes the statements of what was gathered.
pub(crate) fn write_gathered<W: Sink>(
    gathered: Gathered,
    query: Query,
    writer: &mut W,
) -> Result<(), ReportFault>
    requires { All IsOfAccount gathered.rows.items }
    ensures written { WritesGathered query gathered.rows.items (W.contents writer.old) (W.contents writer.new)
        result }
    ensures flushed { OnOk result (EndsWith IsFlush (W.calls writer.old) (W.calls writer.new)) }
    ensures failed { result ≡ Err Write → HasWriteFailed (W.calls writer.old) (W.calls writer.new) }
{
    let rows = gathered.by_account()?;
    put(writer, query.layout.top().as_str())?;
    write_parts(rows.as_slice(), &query, writer)?;
    put_last(writer, "")?;
    Ok(())
}
