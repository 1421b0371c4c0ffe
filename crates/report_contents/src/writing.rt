//! Writes an audit.
ghost use Rattle.std.specs.Prelude.{◌≡◌, length, map, IfErr, OnErr, OnOk};
ghost use Rattle.std.specs.Io.KnownBytes.{Appends};
ghost use Rattle.posting_core.specs.believed.EndCalls.{EndsWith};
ghost use Rattle.posting_core.specs.EndCalls.{HasMore, HasWriteFailed, IsFlush};
ghost use Rattle.report_contents.specs.Audit.{is_sound};
ghost use Rattle.report_contents.specs.AuditText.{audit_text, branch_line, verdict_line};
ghost use Rattle.report_contents.specs.Lines.{text_of};
ghost use Rattle.report_contents.specs.Written.{AppendsPart};

use crate::audit::{Audit, BranchLine};
use crate::audit_text::{branch_text, numbers_text};
use posting_core::{Sink, WriteFailed, write_each, write_out};
use std::fmt;

/// The writer failed, or took no byte.
#[derive(Clone, Copy, Debug, PartialEq, Eq)]
pub struct WriteFault;

impl fmt::Display for WriteFault {
    ghost use Rattle.std.specs.Prelude.{Some, codes};

    ghost output = { λ _. Some (codes "write failed") };

    fn fmt<W: fmt::Write>(&self, f: &mut fmt::Formatter<W>) -> fmt::Result {
        write!(f, "write failed")
    }
}

impl std::error::Error for WriteFault {}

impl From<WriteFailed> for WriteFault {
    fn from(_: WriteFailed) -> Self {
        WriteFault
    }
}

/// Writes a text.
///
/// # Errors
///
/// [`WriteFault`] where the writer failed or took no byte. A prefix of the text was written.
pub fn put<W: Sink>(writer: &mut W, text: &str) -> Result<(), WriteFault>
    ensures ok { OnOk result (Appends (W.contents writer.old) (W.contents writer.new) text.now) }
    ensures err { OnErr result (AppendsPart (W.contents writer.old) (W.contents writer.new) text.now) }
    ensures more { OnOk result (HasMore (W.calls writer.old) (W.calls writer.new)) }
    ensures failed { OnErr result (HasWriteFailed (W.calls writer.old) (W.calls writer.new)) }
{
    match write_each(writer, text.as_bytes()) {
        Ok(()) => Ok(()),
        Err(_) => Err(WriteFault),
    }
}

/// Writes a text, and flushes the writer.
///
/// # Errors
///
/// [`WriteFault`] where the writer failed, at the flush too, or took no byte. A prefix of the text was
/// written.
pub fn put_last<W: Sink>(writer: &mut W, text: &str) -> Result<(), WriteFault>
    ensures ok { OnOk result (Appends (W.contents writer.old) (W.contents writer.new) text.now) }
    ensures err { OnErr result (AppendsPart (W.contents writer.old) (W.contents writer.new) text.now) }
    ensures flushed { OnOk result (EndsWith IsFlush (W.calls writer.old) (W.calls writer.new)) }
    ensures failed { OnErr result (HasWriteFailed (W.calls writer.old) (W.calls writer.new)) }
{
    match write_out(writer, text.as_bytes()) {
        Ok(()) => Ok(()),
        Err(_) => Err(WriteFault),
    }
}

// Writes the lines of branches.
fn put_branches<W: Sink>(writer: &mut W, lines: &[BranchLine]) -> Result<(), WriteFault>
    ensures ok { OnOk result
        (Appends (W.contents writer.old) (W.contents writer.new) (text_of (map branch_line lines.now))) }
    ensures err { OnErr result
        (AppendsPart (W.contents writer.old) (W.contents writer.new) (text_of (map branch_line lines.now))) }
    ensures more { OnOk result (HasMore (W.calls writer.old) (W.calls writer.new)) }
    ensures failed { OnErr result (HasWriteFailed (W.calls writer.old) (W.calls writer.new)) }
{
    for line in lines {
        put(writer, branch_text(line).as_str())?;
    }
    Ok(())
}

// The last line.
fn verdict_text(sound: bool) -> &'static str
    ensures { result.now ≡ verdict_line sound }
{
    if sound {
        "CONSISTENT\n"
    } else {
        "INCONSISTENT\n"
    }
}

/// Writes the text of an audit, and flushes the writer. It takes no memory.
///
/// # Errors
///
/// [`WriteFault`] where the writer failed, at the flush too, or took no byte. A prefix of the text was
/// written.
pub fn write_audit<W: Sink>(audit: &Audit, writer: &mut W) -> Result<(), WriteFault>
    ensures ok { OnOk result
        (Appends (W.contents writer.old) (W.contents writer.new) (audit_text audit.now)) }
    ensures err { OnErr result
        (AppendsPart (W.contents writer.old) (W.contents writer.new) (audit_text audit.now)) }
    ensures flushed { OnOk result (EndsWith IsFlush (W.calls writer.old) (W.calls writer.new)) }
    // The last write or flush failed, or it was asked too often.
    ensures failed { OnErr result (HasWriteFailed (W.calls writer.old) (W.calls writer.new)) }
{
    put(writer, numbers_text(audit).as_str())?;
    put_branches(writer, audit.lines.as_slice())?;
    put_last(writer, verdict_text(audit.is_consistent()))
}
