//! The records of a sheet's postings.
ghost use Rattle.std.specs.Prelude.{◌≡◌, ◌++◌, List, ℕ};
ghost use Rattle.branch_loader.specs.Records.{Records};
ghost use Rattle.posting_sheets.specs.Encoding.{Encodes, IsPutSo, SheetFaultIsOfItsEnd};
ghost use Rattle.posting_sheets.specs.Sheets.{sheet_of, sheet_of_records};

use crate::fault::SheetFault;
use crate::form::form_of;
use crate::row::request_of_row;
use branch_loader::{PlanFault, RecordSource, next_record, read_text};
use csv::{ByteRecord, ReaderBuilder};
use message_records::encode_request;
use posting_core::{Sink, Source, write_out};
use std::alloc::Global;

// Puts the records of what rows state after the bytes, up to the first fault, and answers how many they are.
fn put_records<S: RecordSource>(
    source: &mut S,
    fields: &mut ByteRecord,
    records: &mut Vec<u8>,
) -> Result<u64, SheetFault>
    requires { S.is_plain source.old }
    ensures { (all : Records) → S.has_left source.old all → (written : List ℕ)
        × (records.new.items ≡ records.old.items ++ written)
        × IsPutSo (sheet_of_records all) result written }
{
    let Ok(found) = next_record(source, fields) else {
        return Err(SheetFault::Memory);
    };
    if !found {
        return Err(SheetFault::Header);
    }
    let Some(form) = form_of(fields) else {
        return Err(SheetFault::Header);
    };
    'rows: for count in 0..u64::MAX {
        let Ok(found) = next_record(source, fields) else {
            return Err(SheetFault::Memory);
        };
        if !found {
            return Ok(count);
        }
        let request = match request_of_row(form, fields) {
            Ok(request) => request,
            Err(bad) => return Err(SheetFault::Row(count + 1, bad)),
        };
        if records
            .extend_from_slice(&encode_request(&request))
            .is_err()
        {
            return Err(SheetFault::Memory);
        }
    }
    // No text in memory has so many rows.
    Err(SheetFault::Memory)
}

// The records of a text's postings, and how they end.
fn records_of_text(alloc: Global, text: &[u8]) -> (Vec<u8>, Result<u64, SheetFault>)
    ensures { IsPutSo (sheet_of text.now) result.1 result.0.items }
{
    let mut source = ReaderBuilder::new()
        .has_headers(false)
        .flexible(true)
        .from_reader(alloc, text);
    let mut fields = ByteRecord::new(alloc);
    let mut records = Vec::new(alloc);
    let end = put_records(&mut source, &mut fields, &mut records);
    drop(source);
    (records, end)
}

/// Reads a sheet to its end, and checks all of it. Then it writes and flushes the record of each posting, and answers
/// how many they are. It takes memory for the text and for the records.
///
/// # Errors
///
/// - [`SheetFault::Write`]: a write or the flush failed, a write took no byte, or it was interrupted 2^64 - 1 times
///   in a row. A prefix of the records was written.
/// - [`SheetFault::Read`]: a read failed, or 2^64 - 1 reads were made. Nothing was written.
/// - [`SheetFault::Memory`]: memory was refused. Nothing was written.
/// - Any other is the sheet's own, its first. Nothing was written.
pub fn encode_sheet<R: Source, W: Sink>(
    alloc: Global,
    reader: &mut R,
    writer: &mut W,
) -> Result<u64, SheetFault>
    ensures encodes { Encodes (R.remaining reader.old) (R.remaining reader.new)
        (W.contents writer.old) (W.contents writer.new) result }
    ensures ends { SheetFaultIsOfItsEnd result (R.remaining reader.new) (R.calls reader.old) (R.calls reader.new)
        (W.calls writer.old) (W.calls writer.new) }
{
    let text = match read_text(alloc, reader) {
        Ok(text) => text,
        Err(PlanFault::Csv) => return Err(SheetFault::Read),
        Err(_) => return Err(SheetFault::Memory),
    };
    let (records, end) = records_of_text(alloc, &text);
    let count = end?;
    match write_out(writer, &records) {
        Ok(()) => Ok(count),
        Err(_) => Err(SheetFault::Write),
    }
}
