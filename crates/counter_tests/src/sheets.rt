//! Sheets of postings and of replies: their faults, byte order marks and line ends, and ends that fail.
use crate::plans::{LINE_ENDS, written};
use failing_ends::{CutReader, CutWriter};
use message_records::{BadReply, REPLY_BYTES, REQUEST_BYTES};
use posting_sheets::{
    BadRow, Column, FieldStart, Money, RepliesFault, SheetFault, decode_beside, decode_replies,
    encode_sheet,
};
use std::alloc::{Alloc, Global};
use std::io::{ErrorKind, Read};
use std::process::Abort;

// The sheet ends so, and so many records are written.
fn is_encoded<R: Read>(
    rt: &(impl Abort + Alloc<A = Global>),
    sheet: &mut R,
    want: Result<u64, SheetFault>,
    count: u64,
) {
    let mut records: Vec<u8> = Vec::new(rt.alloc());
    let end = encode_sheet(rt.alloc(), sheet, &mut records);
    assert!(rt; end == want);
    assert!(rt; records.len() as u64 == count.saturating_mul(REQUEST_BYTES as u64));
}

// The same for a header and rows with each of the line ends, after a byte order mark if there is nothing but the first.
fn are_encoded(
    rt: &(impl Abort + Alloc<A = Global>),
    parts: [&[u8]; 2],
    want: Result<u64, SheetFault>,
    count: u64,
) {
    for line_end in &LINE_ENDS {
        let text = written(rt, parts[1].is_empty(), line_end, &parts);
        is_encoded(rt, &mut text.as_slice(), want, count);
    }
}

// How many rows a sheet has, if it has a header.
const SHEETS: &[(&[u8], Option<u64>)] = &[
    (b"", None),
    (b"account,teller,number\n", None),
    (b"account,teller,number,sum\n1,1,1,5\n", None),
    (b"account,teller,number,delta,reference,branch\n", None),
    (b"account,teller,number,delta,\n", None),
    (b"1,1,1,500\n", None),
    (b"account,teller,number,delta", Some(0)),
    (b"account,teller,number,delta,branch\n", Some(0)),
    (b"account,teller,number,delta,reference\n", Some(0)),
    (b"account,teller,number,delta,branch,reference\n", Some(0)),
    (
        b"account,teller,number,delta\n\"1\",\"1\",1,+0000000005\n\n2,1,2,-9999999999\n3,1,3,-0",
        Some(3),
    ),
];

#[test]
fn whole_sheets(rt: HostRuntime) {
    for &(sheet, rows) in SHEETS {
        let want = rows.ok_or(SheetFault::Header);
        are_encoded(&rt, [sheet, b""], want, rows.unwrap_or(0));
    }
}

// Rows below a header, the first faulty one of them, its column, and what stands there.
type FaultyRows = (&'static [u8], u64, Column, &'static [u8]);

const CENTS: &[FaultyRows] = &[
    (b"1,1,1,5\n2,1,2\n", 2, Column::Columns, b""),
    (b"1,1,1,5,1\n", 1, Column::Columns, b""),
    (b"1,1,1,5\n0,1,2,5\n", 2, Column::Account, b"0"),
    (b"+1,1,1,5\n", 1, Column::Account, b"+1"),
    (
        b"1000000000000,1,1,5\n",
        1,
        Column::Account,
        b"1000000000000",
    ),
    (b"1,,1,5\n", 1, Column::Teller, b""),
    (b"1,100000000,1,5\n", 1, Column::Teller, b"100000000"),
    (b"1,1,1,5\n1,1,x,y\n", 2, Column::Number, b"x"),
    (b"1,1,0,5\n", 1, Column::Number, b"0"),
    (b"1,1,10000000000,5\n", 1, Column::Number, b"10000000000"),
    (b"1,1,1,5\n1,1,2,5\n1,1,3,1.50\n", 3, Column::Delta, b"1.50"),
    (b"1,1,1,-\n", 1, Column::Delta, b"-"),
    (b"1,1,1,\n", 1, Column::Delta, b""),
    (b"1,1,1,10000000000\n", 1, Column::Delta, b"10000000000"),
    (b"1,9999991,1,5\n", 1, Column::Branch, b""),
];

const DECIMALS: &[FaultyRows] = &[
    (b"1,1,1,1.5\n", 1, Column::Amount, b"1.5"),
    (b"1,1,1,1.500\n", 1, Column::Amount, b"1.500"),
    (b"1,1,1,.50\n", 1, Column::Amount, b".50"),
    (
        b"1,1,1,5\n1,1,2,\"1,000.00\"\n",
        2,
        Column::Amount,
        b"1,000.00",
    ),
    (b"1,1,1,100000000\n", 1, Column::Amount, b"100000000"),
    (b"1,1,1,100000000.00\n", 1, Column::Amount, b"100000000.00"),
    (b"1,1,1,-.-1\n", 1, Column::Amount, b"-.-1"),
];

const REFERENCES: &[FaultyRows] = &[
    (b"1,1,1,5,0,\n", 1, Column::Branch, b"0"),
    (b"1,1,1,5,1000000,\n", 1, Column::Branch, b"1000000"),
    (b"1,1,1,5,x,\xFF\n", 1, Column::Branch, b"x"),
    (
        b"1,1,1,5,,rent\n1,1,2,5,,R\xC3\xA9\n",
        2,
        Column::Reference,
        b"R\xC3\xA9",
    ),
    (
        b"1,1,1,5,,123456789012345678901\n",
        1,
        Column::Reference,
        b"123456789012345678901",
    ),
];

// Nothing is written, not of the rows before the faulty one either.
fn are_refused(rt: &(impl Abort + Alloc<A = Global>), header: &'static [u8], cases: &[FaultyRows]) {
    for &(rows, row, column, found) in cases {
        let found = FieldStart::of(found);
        let want = Err(SheetFault::Row(row, BadRow { column, found }));
        are_encoded(rt, [header, rows], want, 0);
    }
}

#[test]
fn faulty_rows_in_cents(rt: HostRuntime) {
    are_refused(&rt, b"account,teller,number,delta\n", CENTS);
}

#[test]
fn faulty_decimals_and_references(rt: HostRuntime) {
    are_refused(&rt, b"account,teller,number,amount\n", DECIMALS);
    let header = b"account,teller,number,delta,branch,reference\n";
    are_refused(&rt, header, REFERENCES);
}

const TWO_ROWS: &[u8] =
    b"account,teller,number,delta,reference\n1,1,1,500,\n100001,1,2,-700,rent of May\n";

// The records of the two rows.
fn two_records() -> [u8; 200] {
    let mut records = [b' '; 200];
    records[..51].copy_from_slice(b"DC01000000000001000000010000010000000001+0000000500");
    records[100..162].copy_from_slice(
        b"DC02000000100001000000010000010000000002-0000000700rent of May",
    );
    records
}

// The source fails after so many bytes: nothing is written. An interrupted read is made again.
#[test]
fn an_unread_sheet(rt: HostRuntime) {
    for at in 0..=TWO_ROWS.len() {
        let (before, after) = TWO_ROWS.split_at(at);
        for (fault, want, count) in [
            (ErrorKind::BrokenPipe, Err(SheetFault::Read), 0),
            (ErrorKind::Interrupted, Ok(2), 2),
        ] {
            let fault = Some(fault);
            let mut source = CutReader {
                before,
                fault,
                after,
            };
            is_encoded(&rt, &mut source, want, count);
        }
    }
}

// The sink fails after so many bytes: it has them.
#[test]
fn an_unwritten_sheet(rt: HostRuntime) {
    let want = two_records();
    for most in 0..=want.len() {
        let mut writer = CutWriter::new(rt.alloc(), most, Some(ErrorKind::StorageFull));
        let mut source = TWO_ROWS;
        let end = encode_sheet(rt.alloc(), &mut source, &mut writer);
        assert!(rt; end == Err(SheetFault::Write));
        assert!(rt; writer.taken.as_slice() == &want[..most]);
    }
}

fn three_replies() -> [u8; 600] {
    let mut replies = [b' '; 600];
    replies[..72].copy_from_slice(
        b"DR0100000000100001000000010000010000000002-0000000700-000000000700POSTED",
    );
    replies[200..277].copy_from_slice(
        b"DR0117000000000001000000010000010000000003-9999999999+000000000000BELOW FLOOR",
    );
    replies[400..475].copy_from_slice(
        b"DR0190000000000000000000000000000000000000+0000000000+000000000000MALFORMED",
    );
    replies
}

// The sheet of the three.
const SHEET: &[u8] = b"outcome,name,account,teller,branch,number,delta,balance
0,POSTED,100001,1,1,2,-700,-700
17,BELOW FLOOR,1,1,1,3,-9999999999,
90,MALFORMED,,,,,,
";

// The replies that are read end so, and so many lines are written.
fn are_decoded<R: Read>(
    rt: &(impl Abort + Alloc<A = Global>),
    replies: &mut R,
    want: Result<u64, RepliesFault>,
    lines: usize,
) {
    let mut sheet: Vec<u8> = Vec::new(rt.alloc());
    let end = decode_replies(rt.alloc(), Money::Cents, replies, &mut sheet);
    assert!(rt; end == want);
    assert!(rt; sheet.as_slice() == first_lines(SHEET, lines));
}

// These bytes of replies are read, and then the source ends or fails. The whole ones have their lines below the heading.
fn are_read(
    rt: &(impl Abort + Alloc<A = Global>),
    before: &[u8],
    fault: Option<ErrorKind>,
    want: Result<u64, RepliesFault>,
) {
    let mut source = CutReader {
        before,
        fault,
        after: b"",
    };
    let lines = before.len() / REPLY_BYTES;
    are_decoded(rt, &mut source, want, lines.saturating_add(1));
}

// The input ends, or fails, after so many bytes.
#[test]
fn replies_cut_off(rt: HostRuntime) {
    let replies = three_replies();
    for i in 0..=replies.len() {
        let want = match i % REPLY_BYTES {
            0 => Ok((i / REPLY_BYTES) as u64),
            rest => Err(RepliesFault::Truncated((rest & 0xff) as u8)),
        };
        are_read(&rt, &replies[..i], None, want);
        let failed = Err(RepliesFault::Read);
        are_read(&rt, &replies[..i], Some(ErrorKind::Other), failed);
    }
}

// The sink fails after so many bytes: it has them.
#[test]
fn replies_unwritten(rt: HostRuntime) {
    let replies = three_replies();
    for most in 0..=SHEET.len() {
        let mut writer = CutWriter::new(rt.alloc(), most, Some(ErrorKind::StorageFull));
        let mut source = replies.as_slice();
        let end = decode_replies(rt.alloc(), Money::Cents, &mut source, &mut writer);
        assert!(rt; end == Err(RepliesFault::Write));
        assert!(rt; writer.taken.as_slice() == &SHEET[..most]);
    }
}

// The field of a reply in which a byte is.
fn field_at(byte: usize) -> BadReply {
    match byte {
        0..4 => BadReply::Tag,
        4..6 => BadReply::Outcome,
        6..18 => BadReply::Account,
        18..26 => BadReply::Teller,
        26..32 => BadReply::Branch,
        32..42 => BadReply::Number,
        42..53 => BadReply::Delta,
        53..66 => BadReply::Balance,
        66..82 => BadReply::Name,
        _ => BadReply::Filler,
    }
}

// Each byte of the second reply in turn is another one: the first line is written, and the fault names the reply.
#[test]
fn replies_changed(rt: HostRuntime) {
    for i in 0..REPLY_BYTES {
        let mut replies = three_replies();
        replies[REPLY_BYTES + i] = b'x';
        let want = Err(RepliesFault::Reply(2, field_at(i)));
        are_decoded(&rt, &mut replies.as_slice(), want, 2);
    }
}

// The postings of the three, and one that has no reply.
const POSTINGS: &[u8] = b"account,teller,number,delta,reference
100001,1,2,-700,\"rent, \"\"May\"\"\"
1,1,3,-9999999999,
7,1,4,5, fee  
1,1,5,1,last
";

// The sheet of the three beside them.
const BESIDE: &[u8] = b"outcome,name,account,teller,branch,number,delta,balance,row,reference
0,POSTED,100001,1,1,2,-700,-700,1,\"rent, \"\"May\"\"\"
17,BELOW FLOOR,1,1,1,3,-9999999999,,2,
90,MALFORMED,,,,,,,3, fee
";

// The replies beside this sheet of postings end so, and so many lines are written.
fn are_beside<R: Read>(
    rt: &(impl Abort + Alloc<A = Global>),
    postings: &mut R,
    want: Result<u64, RepliesFault>,
    lines: usize,
) {
    let replies = three_replies();
    let mut source = replies.as_slice();
    let mut sheet: Vec<u8> = Vec::new(rt.alloc());
    let end = decode_beside(rt.alloc(), Money::Cents, postings, &mut source, &mut sheet);
    assert!(rt; end == want);
    assert!(rt; sheet.as_slice() == first_lines(BESIDE, lines));
}

// A sheet of so many lines: where it has fewer rows than there are replies, one whose row isn't there has no line.
#[test]
fn replies_beside_postings(rt: HostRuntime) {
    for lines in 1..=5usize {
        let want = match lines {
            1..4 => Err(RepliesFault::MoreReplies),
            _ => Ok(3),
        };
        are_beside(&rt, &mut first_lines(POSTINGS, lines), want, lines);
    }
}

// The sheet of postings fails after so many bytes.
#[test]
fn postings_cut_off(rt: HostRuntime) {
    for i in 0..POSTINGS.len() {
        let mut source = CutReader {
            before: &POSTINGS[..i],
            fault: Some(ErrorKind::Other),
            after: b"",
        };
        are_beside(&rt, &mut source, Err(RepliesFault::Sheet), 0);
    }
}

// So many lines of a text.
fn first_lines(text: &[u8], count: usize) -> &[u8] {
    let mut left = count;
    for i in 0..text.len() {
        if left == 0 {
            return &text[..i];
        }
        if text[i] == b'\n' {
            left -= 1;
        }
    }
    text
}
