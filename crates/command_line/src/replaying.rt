//! What `replay` and `digest` print.
ghost use Rattle.std.specs.Prelude.{◌≡◌, ℕ, List, IfOk, string_bytes};
ghost use Rattle.command_line.specs.Replaying.{IsTextOf, PrintsText, agreeing_lines, before_digits};
ghost use Rattle.command_line.specs.Replaying.{differing_lines, digest_lines, plan_lines};

use crate::CommandFault;
use crate::lines::print_line;
use posting_core::Sink;
use std::alloc::{AllocError, Global};
use std::fmt::Display;

/// Prints how many requests there are and the digest over them, a line each, and flushes them.
///
/// # Errors
///
/// Of each function here: [`CommandFault::Memory`], and nothing is out; or [`CommandFault::Write`], and a prefix of
/// the lines may be.
pub fn print_digest<W: Sink>(
    alloc: Global,
    requests: u64,
    sha256: &[u8; 32],
    output: &mut W,
) -> Result<(), CommandFault>
    ensures { PrintsText (digest_lines requests sha256.now) (W.contents output.old) (W.contents output.new)
        (W.calls output.old) (W.calls output.new) result }
{
    let Ok(text) = digest_text(alloc, requests, sha256) else {
        return Err(CommandFault::Memory);
    };
    print_line(text.as_str(), output)
}

/// Prints the same of all requests, the digests of the plan and of the closed numbers, and that a replay agreed.
pub fn print_agreeing<W: Sink>(
    alloc: Global,
    requests: u64,
    sha256: &[u8; 32],
    plan: &[u8; 32],
    closings: &[u8; 32],
    output: &mut W,
) -> Result<(), CommandFault>
    ensures { PrintsText (agreeing_lines requests sha256.now plan.now closings.now) (W.contents output.old)
        (W.contents output.new) (W.calls output.old) (W.calls output.new) result }
{
    let Ok(text) = agreeing_text(alloc, requests, sha256, plan, closings) else {
        return Err(CommandFault::Memory);
    };
    print_line(text.as_str(), output)
}

/// Prints the first difference that a replay found, and that it differed.
pub fn print_differing<D: Display + Drop, W: Sink>(
    alloc: Global,
    difference: D,
    output: &mut W,
) -> Result<(), CommandFault>
    ensures { (text : List ℕ) × IsTextOf (D.output difference) text
        × PrintsText (differing_lines text) (W.contents output.old) (W.contents output.new)
        (W.calls output.old) (W.calls output.new) result }
{
    let Ok(text) = differing_text(alloc, difference) else {
        return Err(CommandFault::Memory);
    };
    print_line(text.as_str(), output)
}

// The lines of a digest.
fn digest_text(alloc: Global, requests: u64, sha256: &[u8; 32]) -> Result<String, AllocError>
    ensures { IfOk result (λ text. string_bytes text ≡ digest_lines requests sha256.now) }
{
    let digits = hex::encode(alloc, sha256)?;
    let mut text = requests_text(alloc, requests)?;
    text.push_str(digits.as_str())?;
    text.push_str("\n")?;
    Ok(text)
}

// The line of the requests, and what stands before the digits of the digest.
fn requests_text(alloc: Global, requests: u64) -> Result<String, AllocError>
    ensures { IfOk result (λ text. string_bytes text ≡ before_digits requests) }
{
    format!(in alloc; "requests    {requests:>20}\ndigest      ")
}

// The lines of a replay that agreed.
fn agreeing_text(
    alloc: Global,
    requests: u64,
    sha256: &[u8; 32],
    plan: &[u8; 32],
    closings: &[u8; 32],
) -> Result<String, AllocError>
    ensures { IfOk result (λ text. string_bytes text ≡ agreeing_lines requests sha256.now plan.now closings.now) }
{
    let digits = hex::encode(alloc, closings)?;
    let mut text = plan_text(alloc, requests, sha256, plan)?;
    text.push_str("closing     ")?;
    text.push_str(digits.as_str())?;
    text.push_str("\nAGREES\n")?;
    Ok(text)
}

// The lines of a digest and of a plan.
fn plan_text(
    alloc: Global,
    requests: u64,
    sha256: &[u8; 32],
    plan: &[u8; 32],
) -> Result<String, AllocError>
    ensures { IfOk result (λ text. string_bytes text ≡ plan_lines requests sha256.now plan.now) }
{
    let digits = hex::encode(alloc, plan)?;
    let mut text = digest_text(alloc, requests, sha256)?;
    text.push_str("plan        ")?;
    text.push_str(digits.as_str())?;
    text.push_str("\n")?;
    Ok(text)
}

// The lines of a replay that differed.
fn differing_text<D: Display + Drop>(alloc: Global, difference: D) -> Result<String, AllocError>
    ensures { IfOk result (λ lines. (text : List ℕ) × IsTextOf (D.output difference) text
        × (string_bytes lines ≡ differing_lines text)) }
{
    let mut text = difference.to_string(alloc)?;
    text.push_str("\nDIFFERS\n")?;
    Ok(text)
}
