//! Reading a plan from CSV.
ghost use Rattle.std.specs.Prelude.{◌≡◌, ◌<◌, ◌≤◌, ◌+◌, ℕ, List, true, length, option_map, IfOk, IfErr, IfSome};
ghost use Rattle.std.specs.Prelude.{OnErr, OnOk};
ghost use Rattle.message_records.specs.declared.limits.TheConstants.{MAX_BALANCE};
ghost use Rattle.std.specs.Result.{IsErrOf};
ghost use Rattle.posting_core.specs.believed.EndCalls.{EndsWith};
ghost use Rattle.csv.specs.Records.{fields_of};
ghost use Rattle.branch_loader.specs.Plans.{IsToldSo, ReadsPlan, TellsPlan, plan_of, plan_of_records};
ghost use Rattle.branch_loader.specs.Plans.{amount_of, are_names, floor_of, header_of, number_within, parts_of};
ghost use Rattle.branch_loader.specs.Plans.{row_of_fields, three_of, two_of};
ghost use Rattle.branch_loader.specs.Records.{Records, TakesRecord, WasFailure, WasRecord};

use crate::fault::PlanFault;
use crate::plan::{Plan, PlanRow, row_of};
use crate::records::RecordSource;
use crate::text::read_text;
use csv::{ByteRecord, ErrorKind, ReaderBuilder};
use message_records::{Branch, Cents, read_digits};
use posting_core::{LAST_BRANCH, MAX_ACCOUNTS, Source};
use std::alloc::Global;

// The number from 1 to `most` that a field of 1 to 9 digits writes.
fn number_within(field: &[u8], most: u32) -> Option<u32>
    ensures { result ≡ number_within most field.now }
{
    if field.is_empty() || field.len() > 9 {
        return None;
    }
    let value = read_digits(field)?;
    if value >= 1 && value <= u64::from(most) {
        Some(value as u32)
    } else {
        None
    }
}

// The branch that a field writes.
fn branch_of(field: &[u8]) -> Option<Branch>
    ensures { result ≡ number_within LAST_BRANCH field.now }
{
    Branch::new(u64::from(number_within(field, LAST_BRANCH as u32)?))
}

// The two fields of a record of two.
fn two_of(fields: &ByteRecord) -> Option<(&[u8], &[u8])>
    ensures { option_map (λ p. (p.0.now, p.1.now)) result ≡ two_of (fields_of fields.now) }
{
    if fields.len() != 2 {
        return None;
    }
    Some((fields.get(0)?, fields.get(1)?))
}

// The three fields of a record of three.
fn three_of(fields: &ByteRecord) -> Option<(&[u8], &[u8], &[u8])>
    ensures { option_map (λ p. (p.0.now, p.1.now, p.2.now)) result ≡ three_of (fields_of fields.now) }
{
    if fields.len() != 3 {
        return None;
    }
    Some((fields.get(0)?, fields.get(1)?, fields.get(2)?))
}

// Branch, accounts and floor of a record, in a plan with floors or without: there the last is empty.
fn parts_of(has_floors: bool, fields: &ByteRecord) -> Option<(&[u8], &[u8], &[u8])>
    ensures { option_map (λ p. (p.0.now, p.1.now, p.2.now)) result ≡ parts_of has_floors (fields_of fields.now) }
{
    if has_floors {
        return three_of(fields);
    }
    match two_of(fields) {
        Some((branch, accounts)) => Some((branch, accounts, b"".as_slice())),
        None => None,
    }
}

// Whether the fields name the columns, of which the last is empty where a plan has no floors.
fn are_names(last: &[u8], has_floors: bool, fields: &ByteRecord) -> bool
    ensures { result ≡ are_names last.now (parts_of has_floors (fields_of fields.now)) }
{
    match parts_of(has_floors, fields) {
        Some((branch, accounts, floor)) => {
            branch == b"branch".as_slice() && accounts == b"accounts".as_slice() && floor == last
        }
        None => false,
    }
}

// Whether a plan has floors, by its header: none where the record is no header.
fn header_of(fields: &ByteRecord) -> Option<bool>
    ensures { result ≡ header_of (fields_of fields.now) }
{
    if are_names(b"", false, fields) {
        Some(false)
    } else if are_names(b"floor", true, fields) {
        Some(true)
    } else {
        None
    }
}

// The number that 1 to 12 digits write.
fn amount_of(digits: &[u8]) -> Option<u64>
    ensures value { result ≡ amount_of digits.now }
    ensures most { IfSome result (λ n. n ≤ MAX_BALANCE) }
{
    if digits.is_empty() || digits.len() > 12 {
        return None;
    }
    read_digits(digits)
}

// The floor that a field writes: none where it is empty, and else zero, or an amount with a minus.
fn floor_of(field: &[u8]) -> Option<Option<Cents>>
    ensures { result ≡ floor_of field.now }
{
    let Some((sign, digits)) = field.split_first() else {
        return Some(None);
    };
    if *sign == b'-' {
        let amount = amount_of(digits)? as i64;
        return Some(Some(Cents::new(-amount)?));
    }
    match amount_of(field)? {
        0 => Some(Some(Cents::zero())),
        _ => None,
    }
}

// The row that a record states after the rows before it.
fn row_of_fields(
    has_floors: bool,
    before: &[PlanRow],
    fields: &ByteRecord,
) -> Result<PlanRow, PlanFault>
    requires { length before.now ≤ LAST_BRANCH + 1 }
    ensures { result ≡ row_of_fields has_floors before.now (fields_of fields.now) }
{
    match parts_of(has_floors, fields) {
        Some((branch, accounts, floor)) => row_of(
            before,
            branch_of(branch),
            number_within(accounts, MAX_ACCOUNTS),
            floor_of(floor),
        ),
        None => Err(PlanFault::Columns(before.len() as u64 + 1)),
    }
}

/// Takes the next record, if there is one. A failure of csv is told as want of memory: its source is a text in
/// memory, which doesn't fail.
pub fn next_record<S: RecordSource>(
    source: &mut S,
    fields: &mut ByteRecord,
) -> Result<bool, PlanFault>
    requires { S.is_plain source.old }
    ensures plain { OnOk result (S.is_plain source.new) }
    ensures takes { IfOk result (λ found. (rows : Records) → S.has_left source.old rows
        → TakesRecord found (fields_of fields.new) rows (S.has_left source.new)) }
    ensures found { IfOk result (λ found. found ≡ true
        → EndsWith WasRecord (S.calls source.old) (S.calls source.new)) }
    ensures fault { IfErr result (λ fault. fault ≡ PlanFault.Memory) }
    ensures failed { OnErr result (EndsWith WasFailure (S.calls source.old) (S.calls source.new)) }
{
    match source.next(fields) {
        Ok(found) => Ok(found),
        Err(error) => match error.into_kind() {
            ErrorKind::Io(_) | ErrorKind::OutOfMemory => Err(PlanFault::Memory),
            _ => unreachable!(),
        },
    }
}

// The plan that the records of a reader state.
fn read_rows<S: RecordSource>(
    alloc: Global,
    records: &mut S,
    fields: &mut ByteRecord,
) -> Result<Plan, PlanFault>
    requires { S.is_plain records.old }
    ensures plan { (all : Records) → S.has_left records.old all → TellsPlan (plan_of_records all) result }
    ensures calls { IsToldSo result (S.calls records.old) (S.calls records.new) }
{
    if !next_record(records, fields)? {
        return Err(PlanFault::Header);
    }
    let Some(has_floors) = header_of(fields) else {
        return Err(PlanFault::Header);
    };
    let mut rows = Vec::new(alloc);
    'rows: while next_record(records, fields)? {
        let row = row_of_fields(has_floors, rows.as_slice(), fields)?;
        rows.push(row).map_err(|_| PlanFault::Memory)?;
    }
    Ok(Plan::new(rows))
}

// The plan that a text states. It takes memory for the rows and for one record.
fn plan_of_text(alloc: Global, text: &[u8]) -> Result<Plan, PlanFault>
    ensures plan { TellsPlan (plan_of text.now) result }
    ensures read { IsErrOf result PlanFault.Csv → ⊥ }
{
    let mut records = ReaderBuilder::new()
        .has_headers(false)
        .flexible(true)
        .from_reader(alloc, text);
    let mut fields = ByteRecord::new(alloc);
    let plan = read_rows(alloc, &mut records, &mut fields);
    drop(records);
    plan
}

/// Reads a source to its end, and answers the plan that its text states, or the text's first fault: the header
/// `branch,accounts` or `branch,accounts,floor`, after a byte order mark or without one, and a record of a
/// branch, its count of accounts and, in the second case, their floor or nothing for each branch. It takes memory for the text, the rows and one record. `Csv` comes only where a
/// read of this call failed, or where 2^64 - 1 of them were made; an interrupted read is made again.
pub fn read_plan<R: Source>(alloc: Global, reader: &mut R) -> Result<Plan, PlanFault>
    ensures { ReadsPlan (R.remaining reader.old) (R.remaining reader.new)
        (R.calls reader.old) (R.calls reader.new) result }
{
    let text = read_text(alloc, reader)?;
    plan_of_text(alloc, &text)
}
