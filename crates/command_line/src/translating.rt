//! What `encode` and `decode` do, which need no bank.
ghost use Rattle.std.specs.Prelude.{option_map};
ghost use Rattle.command_line.specs.Translating.{DecodesIn, DecodesOver, DecodesReplies, EncodesSheet};
ghost use Rattle.command_line.specs.Working.{known_source};

use crate::fault::CommandFault;
use crate::loading::Plans;
use crate::status::Status;
use posting_core::{Sink, Source};
use posting_sheets::{Money, decode_beside, decode_replies, encode_sheet};
use std::alloc::Global;

/// Reads a sheet of postings, and writes their records.
pub fn translate_sheet<R: Source, W: Sink>(
    alloc: Global,
    input: &mut R,
    output: &mut W,
) -> Result<Status, CommandFault>
    ensures { EncodesSheet (R.remaining input.old) (R.remaining input.new) (R.calls input.old) (R.calls input.new)
        (W.contents output.old) (W.contents output.new) (W.calls output.old) (W.calls output.new) result }
{
    match encode_sheet(alloc, input, output) {
        Ok(_) => Ok(Status::Done),
        Err(fault) => Err(CommandFault::from(fault)),
    }
}

// Reads replies, and writes a sheet of them with money written so.
fn translate_alone<R: Source, W: Sink>(
    alloc: Global,
    money: Money,
    input: &mut R,
    output: &mut W,
) -> Result<Status, CommandFault>
    ensures { DecodesReplies money (R.remaining input.old) (R.remaining input.new) (R.calls input.old) (R.calls input.new)
        (W.contents output.old) (W.contents output.new) (W.calls output.old) (W.calls output.new) result }
{
    match decode_replies(alloc, money, input, output) {
        Ok(_) => Ok(Status::Done),
        Err(fault) => Err(CommandFault::from(fault)),
    }
}

// Does the same beside the sheet of this name, whose postings the replies answer, and writes their rows too.
fn translate_beside<P: Plans, R: Source, W: Sink>(
    alloc: Global,
    money: Money,
    plans: &P,
    sheet: &str,
    input: &mut R,
    output: &mut W,
) -> Result<Status, CommandFault>
    ensures { DecodesOver money (P.is_named plans.now sheet.now) (known_source P.Plan.remaining P.Plan.calls)
        (R.remaining input.old) (R.remaining input.new) (R.calls input.old) (R.calls input.new)
        (W.contents output.old) (W.contents output.new) (W.calls output.old) (W.calls output.new) result }
{
    let mut postings = match plans.open_plan(sheet) {
        Ok(postings) => postings,
        Err(fault) => return Err(CommandFault::of_sheet_file(fault)),
    };
    match decode_beside(alloc, money, &mut postings, input, output) {
        Ok(_) => Ok(Status::Done),
        Err(fault) => Err(CommandFault::from(fault)),
    }
}

/// Reads replies, and writes a sheet of them with money written so, and with their rows of the sheet of this name where
/// one is given, whose postings they answer.
pub fn translate_replies<P: Plans, R: Source, W: Sink>(
    alloc: Global,
    money: Money,
    plans: &P,
    sheet: Option<&str>,
    input: &mut R,
    output: &mut W,
) -> Result<Status, CommandFault>
    ensures { DecodesIn money (option_map (λ s. s.now) sheet.entry) (P.is_named plans.now)
        (known_source P.Plan.remaining P.Plan.calls) (R.remaining input.old) (R.remaining input.new)
        (R.calls input.old) (R.calls input.new) (W.contents output.old) (W.contents output.new)
        (W.calls output.old) (W.calls output.new) result }
{
    match sheet {
        None => translate_alone(alloc, money, input, output),
        Some(name) => translate_beside(alloc, money, plans, name, input, output),
    }
}
