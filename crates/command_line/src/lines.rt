//! What the program prints: one line for a command that did its work, and one on standard error for a fault.
ghost use Rattle.std.specs.Prelude.{◌≡◌, ◌⊎◌, [], IfSome, IsErr, IsErrOf, IsOk, OnErr, OnOk};
ghost use Rattle.std.specs.Io.KnownBytes.{Keeps};
ghost use Rattle.std.specs.IoError.{error_kind};
ghost use Rattle.clap.specs.Words.{kind_of};
ghost use Rattle.posting_core.specs.believed.EndCalls.{EndsWith};
ghost use Rattle.posting_core.specs.EndCalls.{HasWriteFailed, IsFlush};
ghost use Rattle.command_line.specs.CommandFaults.{status_of};
ghost use Rattle.command_line.specs.Lines.{IsHelpOrVersion, IsShown, PrintsLine, WritesOut, already_line};
ghost use Rattle.command_line.specs.Lines.{after_line, created_line, driven_line, fault_line, followed_line};
ghost use Rattle.command_line.specs.Lines.{joined_line, listening_line, loaded_line, migrated_line, no_words_line};
ghost use Rattle.command_line.specs.Lines.{sealed_line, usable_line};
ghost use Rattle.command_line.specs.Statuses.{status_of_no_words};
ghost use Rattle.report_contents.specs.Written.{AppendsPart};

use crate::fault::CommandFault;
use crate::status::Status;
use arrayvec::ArrayString;
use branch_loader::Loaded;
use clap::error::ErrorKind;
use itoa::Buffer;
use load_driver::Driven;
use posting_core::{Count, Sink, write_out};
use posting_rules::Closing;
use shared_log::Joined;
use std::fmt::Write as WriteText;
use std::io;
use std::io::Write;
use std::marker::Model;
use std::net::SocketAddr;

// The most that a line takes.
const LINE: usize = 160;

/// Prints `created`, and flushes it, as each function here that prints a line does.
///
/// # Errors
///
/// Of each of them only [`CommandFault::Write`]: a write or the flush failed, and a prefix of the line may
/// be out.
pub fn print_created<W: Sink>(output: &mut W) -> Result<(), CommandFault>
    ensures prints { PrintsLine created_line (W.contents output.old) (W.contents output.new)
        (W.calls output.old) (W.calls output.new) result }
    ensures fault { OnErr result (IsErrOf result CommandFault.Write) }
    ensures failed { OnErr result (HasWriteFailed (W.calls output.old) (W.calls output.new)) }
{
    print_line("created\n", output)
}

/// Prints that a bank can be opened, and what looks at its rows.
pub fn print_usable<W: Sink>(output: &mut W) -> Result<(), CommandFault>
    ensures prints { PrintsLine usable_line (W.contents output.old) (W.contents output.new)
        (W.calls output.old) (W.calls output.new) result }
    ensures fault { OnErr result (IsErrOf result CommandFault.Write) }
    ensures failed { OnErr result (HasWriteFailed (W.calls output.old) (W.calls output.new)) }
{
    print_line("it can be opened: bank audit looks at its rows\n", output)
}

/// Prints how many branches of a plan got each answer, as `opened 2 already 0 differs 0`.
pub fn print_loaded<W: Sink>(loaded: Loaded, output: &mut W) -> Result<(), CommandFault>
    ensures prints { PrintsLine (loaded_line loaded) (W.contents output.old) (W.contents output.new)
        (W.calls output.old) (W.calls output.new) result }
    ensures fault { OnErr result (IsErrOf result CommandFault.Write) }
    ensures failed { OnErr result (HasWriteFailed (W.calls output.old) (W.calls output.new)) }
{
    print_line(loaded_text(loaded).as_str(), output)
}

/// Prints how many of `count` records were posted, and how many weren't, as
/// `records 1000 posted 990 refused 10`.
pub fn print_driven<W: Sink>(count: u64, driven: Driven, output: &mut W) -> Result<(), CommandFault>
    ensures prints { PrintsLine (driven_line count driven) (W.contents output.old) (W.contents output.new)
        (W.calls output.old) (W.calls output.new) result }
    ensures fault { OnErr result (IsErrOf result CommandFault.Write) }
    ensures failed { OnErr result (HasWriteFailed (W.calls output.old) (W.calls output.new)) }
{
    print_line(driven_text(count, driven).as_str(), output)
}

/// Prints how many requests a bank has that is to follow another one, as `after 1000`.
pub fn print_after<W: Sink>(requests: u64, output: &mut W) -> Result<(), CommandFault>
    ensures prints { PrintsLine (after_line requests) (W.contents output.old) (W.contents output.new)
        (W.calls output.old) (W.calls output.new) result }
    ensures fault { OnErr result (IsErrOf result CommandFault.Write) }
    ensures failed { OnErr result (HasWriteFailed (W.calls output.old) (W.calls output.new)) }
{
    print_line(after_text(requests).as_str(), output)
}

/// Prints how many entries were followed, as `followed 1000`.
pub fn print_followed<W: Sink>(entries: Count, output: &mut W) -> Result<(), CommandFault>
    ensures prints { PrintsLine (followed_line entries) (W.contents output.old) (W.contents output.new)
        (W.calls output.old) (W.calls output.new) result }
    ensures fault { OnErr result (IsErrOf result CommandFault.Write) }
    ensures failed { OnErr result (HasWriteFailed (W.calls output.old) (W.calls output.new)) }
{
    print_line(followed_text(entries).as_str(), output)
}

/// Prints from which version to which a bank was carried over, as `migrated 1 to 4`.
pub fn print_migrated<W: Sink>(from: i64, to: i64, output: &mut W) -> Result<(), CommandFault>
    ensures prints { PrintsLine (migrated_line from to) (W.contents output.old) (W.contents output.new)
        (W.calls output.old) (W.calls output.new) result }
    ensures fault { OnErr result (IsErrOf result CommandFault.Write) }
    ensures failed { OnErr result (HasWriteFailed (W.calls output.old) (W.calls output.new)) }
{
    print_line(migrated_text(from, to).as_str(), output)
}

/// Prints which version a bank had already, as `already version 4`.
pub fn print_already<W: Sink>(version: i64, output: &mut W) -> Result<(), CommandFault>
    ensures prints { PrintsLine (already_line version) (W.contents output.old) (W.contents output.new)
        (W.calls output.old) (W.calls output.new) result }
    ensures fault { OnErr result (IsErrOf result CommandFault.Write) }
    ensures failed { OnErr result (HasWriteFailed (W.calls output.old) (W.calls output.new)) }
{
    print_line(already_text(version).as_str(), output)
}

/// Prints that books are sealed, or that they were sealed already.
pub fn print_sealed<W: Sink>(closing: Closing, output: &mut W) -> Result<(), CommandFault>
    ensures prints { PrintsLine (sealed_line closing) (W.contents output.old) (W.contents output.new)
        (W.calls output.old) (W.calls output.new) result }
    ensures fault { OnErr result (IsErrOf result CommandFault.Write) }
    ensures failed { OnErr result (HasWriteFailed (W.calls output.old) (W.calls output.new)) }
{
    print_line(sealed_text(closing), output)
}

/// Prints how many entries the quorum held before a machine joined, and how many both hold now, as
/// `quorum held 1000 holds 1004`.
pub fn print_joined<W: Sink>(joined: Joined, output: &mut W) -> Result<(), CommandFault>
    ensures prints { PrintsLine (joined_line joined) (W.contents output.old) (W.contents output.new)
        (W.calls output.old) (W.calls output.new) result }
    ensures fault { OnErr result (IsErrOf result CommandFault.Write) }
    ensures failed { OnErr result (HasWriteFailed (W.calls output.old) (W.calls output.new)) }
{
    print_line(joined_text(joined).as_str(), output)
}

/// Prints the address with its port at which the counter listens, as `listening 127.0.0.1:8080`.
pub fn print_listening<W: Sink>(line: &ListeningLine, output: &mut W) -> Result<(), CommandFault>
    ensures prints { PrintsLine (listening_line line.now) (W.contents output.old) (W.contents output.new)
        (W.calls output.old) (W.calls output.new) result }
    ensures fault { OnErr result (IsErrOf result CommandFault.Write) }
    ensures failed { OnErr result (HasWriteFailed (W.calls output.old) (W.calls output.new)) }
{
    print_line(line.text.as_str(), output)
}

/// The line that says at which address the counter listens.
#[derive(Drop)]
pub struct ListeningLine {
    address: SocketAddr,
    text: ArrayString<LINE>,
}

impl Model for ListeningLine {
    ghost use Rattle.std.specs.Prelude.{◌≡◌};
    ghost use Rattle.std.specs.declared.net.socket_addr.SocketAddr.{SocketAddr as Address};
    ghost use Rattle.command_line.specs.Lines.{listening_line};

    // The address.
    ghost Value = { Address };

    ghost view = { λ line. line.address };

    ghost invariant = { λ line. line.text.bytes ≡ listening_line line.address };
}

impl ListeningLine {
    /// The line of an address; none where the text of the address can't be made.
    #[must_use]
    pub fn new(address: SocketAddr) -> Option<ListeningLine>
        ensures { IfSome result (λ line. line ≡ address) }
    {
        let text = listening_text(address)?;
        Some(ListeningLine { address, text })
    }
}

// The line that `load` prints.
fn loaded_text(loaded: Loaded) -> ArrayString<LINE>
    ensures { result.bytes ≡ loaded_line loaded }
{
    let mut digits = Buffer::new();
    let mut line = ArrayString::new();
    line.push_str("opened ");
    line.push_str(digits.format(loaded.opened));
    line.push_str(" already ");
    line.push_str(digits.format(loaded.already));
    line.push_str(" differs ");
    line.push_str(digits.format(loaded.differs));
    line.push_str("\n");
    line
}

// The line that `drive` prints.
fn driven_text(count: u64, driven: Driven) -> ArrayString<LINE>
    ensures { result.bytes ≡ driven_line count driven }
{
    let mut digits = Buffer::new();
    let mut line = ArrayString::new();
    line.push_str("records ");
    line.push_str(digits.format(count));
    line.push_str(" posted ");
    line.push_str(digits.format(driven.posted));
    line.push_str(" refused ");
    line.push_str(digits.format(driven.refused));
    line.push_str("\n");
    line
}

// The line that `follow` prints first.
fn after_text(requests: u64) -> ArrayString<LINE>
    ensures { result.bytes ≡ after_line requests }
{
    let mut digits = Buffer::new();
    let mut line = ArrayString::new();
    line.push_str("after ");
    line.push_str(digits.format(requests));
    line.push_str("\n");
    line
}

// The line that it prints at the end.
fn followed_text(entries: Count) -> ArrayString<LINE>
    ensures { result.bytes ≡ followed_line entries }
{
    let mut digits = Buffer::new();
    let mut line = ArrayString::new();
    line.push_str("followed ");
    line.push_str(digits.format(entries));
    line.push_str("\n");
    line
}

// The line that `migrate` prints of a bank that it carried over.
fn migrated_text(from: i64, to: i64) -> ArrayString<LINE>
    ensures { result.bytes ≡ migrated_line from to }
{
    let mut digits = Buffer::new();
    let mut line = ArrayString::new();
    line.push_str("migrated ");
    line.push_str(digits.format(from));
    line.push_str(" to ");
    line.push_str(digits.format(to));
    line.push_str("\n");
    line
}

// The line that `migrate` prints of a bank that had its version already.
fn already_text(version: i64) -> ArrayString<LINE>
    ensures { result.bytes ≡ already_line version }
{
    let mut digits = Buffer::new();
    let mut line = ArrayString::new();
    line.push_str("already version ");
    line.push_str(digits.format(version));
    line.push_str("\n");
    line
}

// The line that `seal` prints.
fn sealed_text(closing: Closing) -> &'static str
    ensures { result.now ≡ sealed_line closing }
{
    match closing {
        Closing::Closed => "sealed\n",
        _ => "already sealed\n",
    }
}

// The line that `serve` prints first where machines share its log.
fn joined_text(joined: Joined) -> ArrayString<LINE>
    ensures { result.bytes ≡ joined_line joined }
{
    let mut digits = Buffer::new();
    let mut line = ArrayString::new();
    line.push_str("quorum held ");
    line.push_str(digits.format(joined.held));
    line.push_str(" holds ");
    line.push_str(digits.format(joined.holds));
    line.push_str("\n");
    line
}

// The line that `serve` prints.
fn listening_text(address: SocketAddr) -> Option<ArrayString<LINE>>
    ensures { IfSome result (λ line. line.bytes ≡ listening_line address) }
{
    let mut line = ArrayString::new();
    match writeln!(line, "listening {address}") {
        Ok(()) => Some(line),
        Err(_) => None,
    }
}

/// Writes a line, and flushes it.
pub(crate) fn print_line<W: Sink>(line: &str, output: &mut W) -> Result<(), CommandFault>
    ensures prints { PrintsLine line.now (W.contents output.old) (W.contents output.new)
        (W.calls output.old) (W.calls output.new) result }
    ensures fault { OnErr result (IsErrOf result CommandFault.Write) }
    ensures failed { OnErr result (HasWriteFailed (W.calls output.old) (W.calls output.new)) }
{
    match write_out(output, line.as_bytes()) {
        Ok(()) => Ok(()),
        Err(_) => Err(CommandFault::Write),
    }
}

// Flushes what was written, unless the write failed.
fn finish<W: Sink>(written: io::Result<()>, output: &mut W) -> Result<(), CommandFault>
    ensures stays { Keeps (W.contents output.old) (W.contents output.new) }
    ensures done { OnOk result (IsOk written) }
    ensures flushed { OnOk result (EndsWith IsFlush (W.calls output.old) (W.calls output.new)) }
    ensures fault { OnErr result (IsErrOf result CommandFault.Write) }
    ensures failed { OnErr result (IsErr written ⊎ HasWriteFailed (W.calls output.old) (W.calls output.new)) }
{
    if written.is_err() {
        return Err(CommandFault::Write);
    }
    match output.send_on() {
        Ok(()) => Ok(()),
        Err(_) => Err(CommandFault::Write),
    }
}

/// Writes `bank: ` and the fault as a line to standard error, and returns the status that the program ends
/// with. A line that can't be written is given up.
pub fn tell<E: Sink>(fault: CommandFault, faults: &mut E) -> Status
    ensures status { result ≡ status_of fault }
    ensures said { AppendsPart (E.contents faults.old) (E.contents faults.new) (fault_line fault) }
{
    say(told_text(&fault).as_str(), faults);
    fault.status()
}

/// Writes a line to standard error, and flushes it. One that can't be written is given up.
pub(crate) fn say<E: Sink>(line: &str, faults: &mut E)
    ensures { WritesOut line.now (E.contents faults.old) (E.contents faults.new)
        (E.calls faults.old) (E.calls faults.new) }
{
    let _ = write_out(faults, line.as_bytes());
}

// The line of a fault; none where its text can't be made.
fn told_text(fault: &CommandFault) -> ArrayString<LINE>
    ensures { (result.bytes ≡ fault_line fault.now) ⊎ (result.bytes ≡ []) }
{
    let mut line = ArrayString::new();
    match writeln!(line, "bank: {fault}") {
        Ok(()) => line,
        Err(_) => ArrayString::new(),
    }
}

/// Shows why the words aren't a command, by the text of `clap`, and returns the status that the program ends
/// with.
///
/// Help and the version, if they were asked for, go to standard output, with the status 0 or, if they can't
/// be written, 3. Refused memory is [`CommandFault::Memory`], with the status 3. Everything else goes to
/// standard error, with the status 2.
pub fn explain<W: Write, E: Write>(error: &clap::Error, output: &mut W, faults: &mut E) -> Status
    ensures status { IsShown (kind_of error.now) result }
    ensures silent { Keeps (W.contents output.old) (W.contents output.new)
        ⊎ IsHelpOrVersion (kind_of error.now) }
{
    match error.kind() {
        ErrorKind::OutOfMemory => tell(CommandFault::Memory, faults),
        ErrorKind::DisplayHelp | ErrorKind::DisplayVersion => show(error, output, faults),
        _ => {
            let _ = write!(faults, "{error}");
            Status::Usage
        }
    }
}

// Prints help or the version.
fn show<W: Write, E: Write>(error: &clap::Error, output: &mut W, faults: &mut E) -> Status
    ensures { (result ≡ Status.Done) ⊎ (result ≡ Status.System) }
{
    let written = write!(output, "{error}");
    match finish(written, output) {
        Ok(()) => Status::Done,
        Err(fault) => tell(fault, faults),
    }
}

/// Reports on standard error that the words couldn't be read, and returns the status that the program ends
/// with: 3 if memory was refused, and 2 if a word isn't UTF-8.
pub fn tell_no_words<E: Sink>(error: &io::Error, faults: &mut E) -> Status
    ensures status { result ≡ status_of_no_words (error_kind error.now) }
    ensures said { AppendsPart (E.contents faults.old) (E.contents faults.new)
        (no_words_line (error_kind error.now)) }
{
    match error.kind() {
        io::ErrorKind::OutOfMemory => tell(CommandFault::Memory, faults),
        _ => {
            say("error: a word isn't UTF-8\n", faults);
            Status::Usage
        }
    }
}
