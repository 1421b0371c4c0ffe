//! The sheet of replies, beside the sheet of their postings or without it.
ghost use Rattle.std.specs.Prelude.{◌≡◌, ◌<◌, ◌+◌, ◌-◌, ◌^◌, Option, Some, IfSome, OnOk};
ghost use Rattle.posting_sheets.specs.Beside.{BesideFaultIsOfItsEnd, DecodesBeside, RowsFaultIsOfItsEnd};
ghost use Rattle.posting_sheets.specs.Replies.{Decodes, RepliesFaultIsOfItsEnd};
ghost use Rattle.posting_sheets.specs.Sheets.{Sheet, sheet_of};
ghost use Rattle.posting_sheets.specs.Walking.{AreAfter, DecodesIn, IsFoundSo, IsLineSo, IsLineTold, heading_with};

use crate::fault::RepliesFault;
use crate::line::{PostingRow, line_of};
use crate::money::Money;
use crate::rows::Rows;
use branch_loader::{PlanFault, RecordSource, read_text};
use csv::{Reader, ReaderBuilder};
use message_records::{REPLY_BYTES, Reply, decode_reply};
use posting_core::transfer::fill_buffer;
use posting_core::{Sink, Source, write_out};
use std::alloc::Global;
use std::io::ErrorKind;

// The header of a sheet that writes money so, with rows or without.
fn heading_with(rows: bool, money: Money) -> &'static [u8]
    ensures { result.now ≡ heading_with rows money }
{
    match (rows, money) {
        (false, Money::Cents) => {
            b"outcome,name,account,teller,branch,number,delta,balance\n".as_slice()
        }
        (false, Money::Decimals) => {
            b"outcome,name,account,teller,branch,number,amount,balance\n".as_slice()
        }
        (true, Money::Cents) => {
            b"outcome,name,account,teller,branch,number,delta,balance,row,reference\n".as_slice()
        }
        (true, Money::Decimals) => {
            b"outcome,name,account,teller,branch,number,amount,balance,row,reference\n".as_slice()
        }
    }
}

// The row that a reply after so many answers, where there are rows.
fn row_for<S: RecordSource>(
    rows: &mut Option<Rows<S>>,
    reply: &Reply,
    before: u64,
) -> Result<Option<PostingRow>, RepliesFault>
    requires plain { IfSome rows.old (λ rows. S.is_plain rows.source) }
    requires few { before < 2 ^ 64 - 1 }
    ensures found { (beside : Option Sheet) → AreAfter S.has_left rows.old beside before
        → IsFoundSo S.has_left beside before reply.now rows.new result }
    ensures plain { OnOk result (IfSome rows.new (λ rows. S.is_plain rows.source)) }
{
    match rows {
        Some(rows) => match rows.take_for(reply, before) {
            Ok(row) => Ok(Some(row)),
            Err(fault) => Err(fault),
        },
        None => Ok(None),
    }
}

// Writes the line of the reply that the bytes are, of which so many came before.
fn write_line<S: RecordSource, W: Sink>(
    alloc: Global,
    money: Money,
    rows: &mut Option<Rows<S>>,
    writer: &mut W,
    bytes: &[u8; REPLY_BYTES],
    before: u64,
) -> Result<(), RepliesFault>
    requires plain { IfSome rows.old (λ rows. S.is_plain rows.source) }
    requires few { before < 2 ^ 64 - 1 }
    ensures line { (beside : Option Sheet) → AreAfter S.has_left rows.old beside before
        → IsLineSo money beside bytes.now before (W.contents writer.old) (W.contents writer.new) result
        × OnOk result (AreAfter S.has_left rows.new beside (before + 1)) }
    ensures answers { (beside : Option Sheet) → AreAfter S.has_left rows.old beside before
        → IsLineTold (W.calls writer.old) (W.calls writer.new) result }
    ensures plain { OnOk result (IfSome rows.new (λ rows. S.is_plain rows.source)) }
{
    let reply = match decode_reply(bytes) {
        Ok(reply) => reply,
        Err(bad) => return Err(RepliesFault::Reply(before + 1, bad)),
    };
    let row = row_for(rows, &reply, before)?;
    let Ok(line) = line_of(alloc, money, &reply, row) else {
        return Err(RepliesFault::Memory);
    };
    match write_out(writer, line.as_bytes()) {
        Ok(()) => Ok(()),
        Err(_) => Err(RepliesFault::Write),
    }
}

// Writes a sheet of the replies that it reads to the end of its input, each with its row where there are rows.
fn decode_lines<S: RecordSource, R: Source, W: Sink>(
    alloc: Global,
    money: Money,
    rows: &mut Option<Rows<S>>,
    reader: &mut R,
    writer: &mut W,
) -> Result<u64, RepliesFault>
    requires { IfSome rows.old (λ rows. S.is_plain rows.source) }
    ensures decodes { (beside : Option Sheet) → AreAfter S.has_left rows.old beside 0
        → DecodesIn money beside (R.remaining reader.old) (R.remaining reader.new)
        (W.contents writer.old) (W.contents writer.new) result }
    ensures ends { (beside : Option Sheet) → AreAfter S.has_left rows.old beside 0
        → RepliesFaultIsOfItsEnd result (R.remaining reader.new) (R.calls reader.old) (R.calls reader.new)
        (W.calls writer.old) (W.calls writer.new) }
{
    if write_out(writer, heading_with(rows.is_some(), money)).is_err() {
        return Err(RepliesFault::Write);
    }
    let mut buffer = [0u8; REPLY_BYTES];
    let mut filled = 0;
    let mut count = 0;
    'reads: for _ in 0..u64::MAX {
        match fill_buffer(reader, &mut buffer, filled) {
            Ok(0) if filled == 0 => return Ok(count),
            Ok(0) => return Err(RepliesFault::Truncated(filled as u8)),
            Ok(n) => filled += n,
            Err(e) if e.kind() == ErrorKind::Interrupted => {}
            Err(_) => return Err(RepliesFault::Read),
        }
        if filled == REPLY_BYTES {
            write_line(alloc, money, rows, writer, &buffer, count)?;
            count += 1;
            filled = 0;
        }
    }
    Err(RepliesFault::Read)
}

/// Writes a sheet of the replies that it reads to the end of its input: a header, and a line for each reply, with money
/// written so. It answers how many replies there were. It takes memory for a line.
///
/// # Errors
///
/// - [`RepliesFault::Truncated`]: the input ended within a reply. The lines of those before it were written.
/// - [`RepliesFault::Reply`]: the bytes are no reply. The lines of those before it were written.
/// - [`RepliesFault::Read`]: a read failed, or 2^64 - 1 reads were made. The lines of the whole replies that were
///   read before were written.
/// - [`RepliesFault::Write`]: a write or a flush failed, a write took no byte, or it was interrupted 2^64 - 1 times
///   in a row. A prefix of the sheet was written.
/// - [`RepliesFault::Memory`]: memory was refused. A prefix of the sheet was written.
pub fn decode_replies<R: Source, W: Sink>(
    alloc: Global,
    money: Money,
    reader: &mut R,
    writer: &mut W,
) -> Result<u64, RepliesFault>
    ensures decodes { Decodes money (R.remaining reader.old) (R.remaining reader.new)
        (W.contents writer.old) (W.contents writer.new) result }
    ensures ends { RepliesFaultIsOfItsEnd result (R.remaining reader.new) (R.calls reader.old) (R.calls reader.new)
        (W.calls writer.old) (W.calls writer.new) }
{
    let mut none: Option<Rows<Reader<&[u8]>>> = None;
    decode_lines(alloc, money, &mut none, reader, writer)
}

// The sheet of replies beside the text of a sheet of postings.
fn decode_beside_text<R: Source, W: Sink>(
    alloc: Global,
    money: Money,
    text: &[u8],
    reader: &mut R,
    writer: &mut W,
) -> Result<u64, RepliesFault>
    ensures decodes { DecodesIn money (Some (sheet_of text.now)) (R.remaining reader.old) (R.remaining reader.new)
        (W.contents writer.old) (W.contents writer.new) result }
    ensures ends { RowsFaultIsOfItsEnd result (R.remaining reader.new) (R.calls reader.old) (R.calls reader.new)
        (W.calls writer.old) (W.calls writer.new) }
{
    let source = ReaderBuilder::new()
        .has_headers(false)
        .flexible(true)
        .from_reader(alloc, text);
    let mut rows = Some(Rows::new(alloc, source)?);
    let end = decode_lines(alloc, money, &mut rows, reader, writer);
    drop(rows);
    end
}

/// Does the same beside the sheet of the postings that the replies answer: the reply in each place answers the row in
/// this place, and its line has the row's number, counted from 1, and its reference too. The sheet may have more rows. It
/// takes memory for the text of the sheet, a row and a line.
///
/// # Errors
///
/// - [`RepliesFault::Sheet`]: a read of the sheet failed, or 2^64 - 1 of them were made. Nothing was written.
/// - [`RepliesFault::Header`]: the sheet has no header. Nothing was written.
/// - [`RepliesFault::Row`]: the row in a reply's place states no posting. The lines of the replies before it were written.
/// - [`RepliesFault::OtherPosting`]: the row in a reply's place states another posting than the one that the reply
///   answers. The lines of the replies before it were written.
/// - [`RepliesFault::MoreReplies`]: there is no row in a reply's place. The lines of the replies before it were written.
/// - Any other as of [`decode_replies`].
pub fn decode_beside<P: Source, R: Source, W: Sink>(
    alloc: Global,
    money: Money,
    postings: &mut P,
    reader: &mut R,
    writer: &mut W,
) -> Result<u64, RepliesFault>
    ensures decodes { DecodesBeside money (P.remaining postings.old) (P.remaining postings.new)
        (R.remaining reader.old) (R.remaining reader.new) (W.contents writer.old) (W.contents writer.new) result }
    ensures ends { BesideFaultIsOfItsEnd result (P.remaining postings.new) (P.calls postings.old) (P.calls postings.new)
        (R.remaining reader.new) (R.calls reader.old) (R.calls reader.new) (W.calls writer.old) (W.calls writer.new) }
{
    let text = match read_text(alloc, postings) {
        Ok(text) => text,
        Err(PlanFault::Csv) => return Err(RepliesFault::Sheet),
        Err(_) => return Err(RepliesFault::Memory),
    };
    decode_beside_text(alloc, money, &text, reader, writer)
}
