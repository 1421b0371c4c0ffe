//! The statement of an account.
ghost use Rattle.std.specs.Prelude.{◌≡◌, ◌≢◌, List, Err, OnOk, Some, filter};
ghost use Rattle.sqlite.specs.State.{HasCleanDisk};
ghost use Rattle.posting_rules.specs.declared.fault.Fault.TheVariants.{Down, Memory};
ghost use Rattle.posting_core.specs.believed.EndCalls.{EndsWith};
ghost use Rattle.posting_core.specs.EndCalls.{HasWriteFailed, IsFlush};
ghost use Rattle.walked_rows.specs.Pairs.{Pair};
ghost use Rattle.walked_rows.specs.Stored.{is_stated_of};
ghost use Rattle.bank_store.specs.believed.Seen.{bank_seen, database_of, file_of};
ghost use Rattle.bank_reports.specs.declared.fault.ReportFault.TheVariants.{Bank as OfBank, NoAccount, Write};
ghost use Rattle.bank_reports.specs.Leaving.{HasStated, ReadsPostings, TellsDown};
ghost use Rattle.bank_store.specs.Leaving.{CommitsAsFound};
ghost use Rattle.bank_reports.specs.Postings.{WritesSelected, WritesPart, WritesStatement};
ghost use Rattle.bank_reports.specs.Statements.{LeavesWriter, RefusesBalance, States, StatesSelected, StatesFile};
ghost use Rattle.bank_reports.specs.Statements.{StatesFileSelected};

use crate::fault::ReportFault;
use crate::lines::write_heading;
use crate::postings::visit_postings;
use crate::visitors::Lines;
use bank_store::Bank;
use message_records::{Account, Cents};
use posting_core::Sink;
use posting_rules::{Counter, Fault};
use report_contents::{Form, Layout, Query, Range, RangeSums, Selection, Style, put_last};
use sqlite::Alter;

// Writes the statement of an account in a form.
fn write_lines<S: Alter, W: Sink>(
    bank: &mut Bank<S>,
    account: Account,
    form: &Form,
    writer: &mut W,
) -> Result<(), ReportFault>
    ensures answers { HasCleanDisk (file_of bank.new) → (rows : List Pair)
        → HasStated (database_of S.Store bank.old) rows
        → WritesStatement account form.now (filter (is_stated_of (Some account)) rows) (W.contents writer.old)
        (W.contents writer.new) result }
    ensures reads { ReadsPostings S.Store ⊥ bank.old bank.new result }
    ensures flushed { OnOk result (EndsWith IsFlush (W.calls writer.old) (W.calls writer.new)) }
    ensures failed { result ≡ Err Write → HasWriteFailed (W.calls writer.old) (W.calls writer.new) }
{
    write_heading(form, account, writer)?;
    let mut lines = Lines::none(form);
    visit_postings(bank, Some(account), &mut lines, writer)?;
    put_last(writer, form.closing().as_str())?;
    Ok(())
}

// Writes the statement of what is selected in a range of an account.
fn write_part<S: Alter, W: Sink>(
    bank: &mut Bank<S>,
    account: Account,
    selection: Selection,
    range: Range,
    writer: &mut W,
) -> Result<(), ReportFault>
    ensures answers { HasCleanDisk (file_of bank.new) → (rows : List Pair)
        → HasStated (database_of S.Store bank.old) rows
        → WritesPart account selection range (filter (is_stated_of (Some account)) rows) (W.contents writer.old)
        (W.contents writer.new) result }
    ensures reads { ReadsPostings S.Store ⊥ bank.old bank.new result }
    ensures flushed { OnOk result (EndsWith IsFlush (W.calls writer.old) (W.calls writer.new)) }
    ensures failed { result ≡ Err Write → HasWriteFailed (W.calls writer.old) (W.calls writer.new) }
{
    let mut sums = RangeSums::none(range);
    visit_postings(bank, Some(account), &mut sums, writer)?;
    let part = Form::of_sums(selection, &sums);
    write_lines(bank, account, &part, writer)
}

// Writes what is asked for of an account that has this balance.
fn write_open<S: Alter, W: Sink>(
    bank: &mut Bank<S>,
    account: Account,
    balance: Cents,
    query: Query,
    writer: &mut W,
) -> Result<(), ReportFault>
    ensures answers { HasCleanDisk (file_of bank.new) → (rows : List Pair)
        → HasStated (database_of S.Store bank.old) rows
        → WritesSelected account balance query (filter (is_stated_of (Some account)) rows) (W.contents writer.old)
        (W.contents writer.new) result }
    ensures reads { ReadsPostings S.Store ⊥ bank.old bank.new result }
    ensures flushed { OnOk result (EndsWith IsFlush (W.calls writer.old) (W.calls writer.new)) }
    ensures failed { result ≡ Err Write → HasWriteFailed (W.calls writer.old) (W.calls writer.new) }
{
    let selection = query.selection;
    match query.layout {
        Layout::Sheet { ahead } => {
            let style = Style::Sheet { ahead };
            write_lines(bank, account, &Form { selection, style }, writer)
        }
        Layout::Columns => match selection.range {
            None => {
                let style = Style::Whole { balance };
                write_lines(bank, account, &Form { selection, style }, writer)
            }
            Some(range) => write_part(bank, account, selection, range, writer),
        },
    }
}

/// Writes the statement of an account: its postings by their ordinals, each with the running balance and the
/// reference of its request, and the balance of its row at the end, from which the last line may differ on rows
/// that no bank wrote; and flushes the writer.
///
/// # Errors
///
/// At each but the first a prefix of the text was written. Of the bank's faults only those of its
/// `balance`, which is read first, bring it down; then nothing was written.
///
/// | Error | What happened |
/// |---|---|
/// | [`ReportFault::NoAccount`] | the account isn't open, and nothing was written |
/// | [`ReportFault::Write`] | the writer failed, or took no byte |
/// | [`ReportFault::Bank`] of `Store` | a read failed: the disk did, or memory or steps were refused |
/// | of `Down` | the bank was down, and nothing was written |
/// | of `Damaged` | the account's balance or a running one is out of its limits, or a row can't be read |
pub fn write_statement<S: Alter + Drop, W: Sink>(
    bank: &mut Bank<S>,
    account: Account,
    writer: &mut W,
) -> Result<(), ReportFault>
    ensures bank { States (bank_seen S.Store bank.old) (bank_seen S.Store bank.new) account
        (W.contents writer.old) (W.contents writer.new) result }
    ensures file { (bank_seen S.Store bank.new).honest → ((bank_seen S.Store bank.new).is_down → ⊥)
        → StatesFile S.Store bank.old bank.new account (W.contents writer.old) (W.contents writer.new)
        result }
    ensures refused { (bank_seen S.Store bank.new).is_down
        → RefusesBalance S.Store bank.old bank.new result }
    ensures writer { LeavesWriter W.calls writer.old writer.new (bank_seen S.Store bank.new).is_down result }
    ensures frugal { result ≢ Err (OfBank Memory) }
    ensures down { TellsDown (bank_seen S.Store bank.old).is_down (result ≡ Err (OfBank Down))
        ((bank.new ≡ bank.old) × (writer.new ≡ writer.old)) }
    ensures leaves { CommitsAsFound S.Store bank.old bank.new }
{
    write_selected(bank, account, Query::whole(), writer)
}

/// Writes the statement of an account, as [`write_statement`], or what is asked for of it: those of its postings that
/// are selected, each with the account's running balance. In columns they stand below what all postings before the
/// range add up to, and above what all up to its end do, for which all postings are read twice; as CSV below the
/// names of the columns.
///
/// # Errors
///
/// Those of [`write_statement`].
pub fn write_selected<S: Alter + Drop, W: Sink>(
    bank: &mut Bank<S>,
    account: Account,
    query: Query,
    writer: &mut W,
) -> Result<(), ReportFault>
    ensures bank { StatesSelected (bank_seen S.Store bank.old) (bank_seen S.Store bank.new) account query
        (W.contents writer.old) (W.contents writer.new) result }
    ensures file { (bank_seen S.Store bank.new).honest → ((bank_seen S.Store bank.new).is_down → ⊥)
        → StatesFileSelected S.Store bank.old bank.new account query (W.contents writer.old) (W.contents writer.new)
        result }
    ensures refused { (bank_seen S.Store bank.new).is_down
        → RefusesBalance S.Store bank.old bank.new result }
    ensures writer { LeavesWriter W.calls writer.old writer.new (bank_seen S.Store bank.new).is_down result }
    ensures frugal { result ≢ Err (OfBank Memory) }
    ensures down { TellsDown (bank_seen S.Store bank.old).is_down (result ≡ Err (OfBank Down))
        ((bank.new ≡ bank.old) × (writer.new ≡ writer.old)) }
    ensures leaves { CommitsAsFound S.Store bank.old bank.new }
{
    if bank.is_down() {
        return Err(ReportFault::Bank(Fault::Down));
    }
    let Some(balance) = bank.balance(account)? else {
        return Err(ReportFault::NoAccount);
    };
    write_open(bank, account, balance, query, writer)
}
