//! How an audit ends.
ghost use Rattle.std.specs.Prelude.{◌≡◌, ◌⊎◌, IfOk};
ghost use Rattle.std.specs.Result.{IsErrOf};
ghost use Rattle.posting_core.specs.EndCalls.{HasWriteFailed};
ghost use Rattle.command_line.specs.Auditing.{Prints, status_of_audit};

use crate::{CommandFault, Status};
use posting_core::{Fault, Sink};
use report_contents::{Audit, write_audit};

/// Prints an audit, and returns how the program ends.
pub fn print_audit<W: Sink>(
    answer: Result<Audit, Fault>,
    output: &mut W,
) -> Result<Status, CommandFault>
    ensures prints { Prints answer (W.contents output.old) (W.contents output.new) result }
    ensures unprinted { IsErrOf result CommandFault.Write
        → HasWriteFailed (W.calls output.old) (W.calls output.new) }
    ensures ends { IfOk result (λ status. (status ≡ Status.Done) ⊎ (status ≡ Status.Inconsistent)) }
{
    let found = match answer {
        Ok(found) => found,
        Err(fault) => return Err(CommandFault::from(fault)),
    };
    match write_audit(&found, output) {
        Ok(()) => Ok(status_of(&found)),
        Err(_) => Err(CommandFault::Write),
    }
}

// The program ends in its own way where the books don't agree.
fn status_of(found: &Audit) -> Status
    ensures { result ≡ status_of_audit found.now }
{
    if found.is_consistent() {
        Status::Done
    } else {
        Status::Inconsistent
    }
}
