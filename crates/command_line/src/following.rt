//! What `follow` does with a bank.
ghost use Rattle.std.specs.Result.{IsErrOf};
ghost use Rattle.posting_core.specs.EndCalls.{HasWriteFailed};
ghost use Rattle.command_line.specs.Following.{FollowsBy, FollowsOver, FollowsRead};
ghost use Rattle.command_line.specs.Working.{known_source};

use crate::loading::Plans;
use crate::{CommandFault, print_after, print_followed};
use branch_loader::{FollowWatch, Plan, follow, read_plan};
use posting_core::{Counter, Sink, Source};
use std::alloc::Global;

/// Prints how many requests a bank has, takes it along the log of another one by the plan of a name, and prints how many
/// entries there were.
pub fn follow_into<P: Plans, R: Source, C: Counter, W: Sink, T: FollowWatch>(
    alloc: Global,
    plans: &P,
    name: &str,
    requests: u64,
    input: &mut R,
    bank: &mut C,
    output: &mut W,
    watch: &mut T,
) -> Result<(), CommandFault>
    ensures follows { FollowsOver C.seen C.spares C.reason (P.is_named plans.now name.now)
        (known_source P.Plan.remaining P.Plan.calls) requests (R.remaining input.old) (R.remaining input.new)
        (R.calls input.old) (R.calls input.new) (W.contents output.old) (W.contents output.new)
        bank.old bank.new result }
    ensures unprinted { IsErrOf result CommandFault.Write
        → HasWriteFailed (W.calls output.old) (W.calls output.new) }
    ensures spares { C.spares bank.old bank.new }
{
    let mut source = plans.open_plan(name)?;
    let plan = read_plan(alloc, &mut source)?;
    follow_by(alloc, &plan, requests, input, bank, output, watch)
}

// The same by a plan that was read.
fn follow_by<R: Source, C: Counter, W: Sink, T: FollowWatch>(
    alloc: Global,
    plan: &Plan,
    requests: u64,
    input: &mut R,
    bank: &mut C,
    output: &mut W,
    watch: &mut T,
) -> Result<(), CommandFault>
    ensures follows { FollowsBy C.seen C.spares C.reason plan.now requests (R.remaining input.old)
        (R.remaining input.new) (R.calls input.old) (R.calls input.new) (W.contents output.old)
        (W.contents output.new) bank.old bank.new result }
    ensures unprinted { IsErrOf result CommandFault.Write
        → HasWriteFailed (W.calls output.old) (W.calls output.new) }
    ensures spares { C.spares bank.old bank.new }
{
    print_after(requests, output)?;
    follow_log(alloc, plan, input, bank, output, watch)
}

// Takes a bank along a log, and prints how many entries there were.
fn follow_log<R: Source, C: Counter, W: Sink, T: FollowWatch>(
    alloc: Global,
    plan: &Plan,
    input: &mut R,
    bank: &mut C,
    output: &mut W,
    watch: &mut T,
) -> Result<(), CommandFault>
    ensures follows { FollowsRead C.seen C.spares C.reason plan.now (R.remaining input.old) (R.remaining input.new)
        (R.calls input.old) (R.calls input.new) (W.contents output.old) (W.contents output.new)
        bank.old bank.new result }
    ensures unprinted { IsErrOf result CommandFault.Write
        → HasWriteFailed (W.calls output.old) (W.calls output.new) }
    ensures spares { C.spares bank.old bank.new }
{
    let followed = follow(alloc, plan, input, bank, watch)?;
    print_followed(followed, output)
}
