//! What `load` does with a bank.
ghost use Rattle.std.specs.Prelude.{⊤, ◌≡◌, ◌≢◌, ℕ, List, IfErr, IfOk};
ghost use Rattle.std.specs.Result.{IsErrOf};
ghost use Rattle.std.specs.Io.KnownBytes.{Appends, Keeps};
ghost use Rattle.command_line.specs.Lines.{loaded_line};
ghost use Rattle.command_line.specs.Looking.{IsOfPlanFile};
ghost use Rattle.posting_core.specs.EndCalls.{HasWriteFailed};
ghost use Rattle.command_line.specs.Working.{LoadsFrom, LoadsOver, ended_by_load, known_source};

use crate::{CommandFault, print_loaded};
use branch_loader::{Loaded, load, read_plan};
use posting_core::{Counter, Sink, Source};
use std::alloc::Global;

/// What opens the plans of branches, and sheets of postings, by their names. A type of its own may also know which source
/// is which plan's.
pub trait Plans {
    type Plan: Source + Drop;

    /// The source is that of the plan of this name, where it is known.
    ghost is_named: { Self → List ℕ → Self.Plan → Type 0 } = { λ _ _ _. ⊤ };

    /// The plan of this name, from its first byte on.
    ///
    /// # Errors
    ///
    /// - [`CommandFault::Plan`] with [`PlanFault::Csv`](branch_loader::PlanFault::Csv): it can't be opened.
    /// - [`CommandFault::Memory`]: memory was refused.
    fn open_plan(&self, name: &str) -> Result<Self::Plan, CommandFault>
        ensures named { IfOk result (is_named self.now name.now) }
        ensures refused { IfErr result IsOfPlanFile };
}

/// Opens the branches of the plan of a name, and prints how many got each answer.
pub fn load_into<P: Plans, C: Counter, W: Sink>(
    alloc: Global,
    plans: &P,
    name: &str,
    bank: &mut C,
    output: &mut W,
) -> Result<Loaded, CommandFault>
    ensures loads { LoadsOver C.seen C.reason (P.is_named plans.now name.now)
        (known_source P.Plan.remaining P.Plan.calls) (W.contents output.old) (W.contents output.new)
        (λ end. ended_by_load result ≡ end) bank.old bank.new }
    ensures line { IfOk result
        (λ loaded. Appends (W.contents output.old) (W.contents output.new) (loaded_line loaded)) }
    ensures silent { IfErr result
        (λ fault. fault ≢ CommandFault.Write → Keeps (W.contents output.old) (W.contents output.new)) }
    ensures unprinted { IsErrOf result CommandFault.Write
        → HasWriteFailed (W.calls output.old) (W.calls output.new) }
    ensures honest { (C.seen bank.new).honest → (C.seen bank.old).honest }
    ensures spares { C.spares bank.old bank.new }
{
    let mut plan = plans.open_plan(name)?;
    load_from(alloc, &mut plan, bank, output)
}

/// Opens the branches of the plan that a source states, and prints how many got each answer.
pub fn load_from<R: Source, C: Counter, W: Sink>(
    alloc: Global,
    source: &mut R,
    bank: &mut C,
    output: &mut W,
) -> Result<Loaded, CommandFault>
    ensures loads { LoadsFrom C.seen C.reason (R.remaining source.old) (R.remaining source.new)
        (R.calls source.old) (R.calls source.new) (W.contents output.old) (W.contents output.new)
        (λ end. ended_by_load result ≡ end) bank.old bank.new }
    ensures line { IfOk result
        (λ loaded. Appends (W.contents output.old) (W.contents output.new) (loaded_line loaded)) }
    ensures silent { IfErr result
        (λ fault. fault ≢ CommandFault.Write → Keeps (W.contents output.old) (W.contents output.new)) }
    ensures unprinted { IsErrOf result CommandFault.Write
        → HasWriteFailed (W.calls output.old) (W.calls output.new) }
    ensures honest { (C.seen bank.new).honest → (C.seen bank.old).honest }
    ensures spares { C.spares bank.old bank.new }
{
    let plan = read_plan(alloc, source)?;
    let loaded = load(&plan, bank)?;
    print_loaded(loaded, output)?;
    Ok(loaded)
}
