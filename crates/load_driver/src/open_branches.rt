//! The open branches of a counter.
ghost use Rattle.std.specs.Prelude.{◌≡◌, ◌↔◌, List, IfOk, OnOk, IfErr};
ghost use Rattle.std.specs.Result.{IsErrOf};
ghost use Rattle.posting_rules.specs.believed.Commands.{Command};
ghost use Rattle.posting_rules.specs.believed.Counter.{ShowsLog};
ghost use Rattle.load_driver.specs.Drives.{IsListed, IsUnlisted};
ghost use Rattle.posting_core.specs.Stream.{IsOfCall};
ghost use Rattle.load_driver.specs.believed.Records.{open_branches};

use branch_loader::Plan;
use posting_core::{Counter, Fault};
use std::alloc::Global;

/// The plan of the open branches by rising numbers, each with its count of accounts and its floor. It changes nothing. A
/// fault is that of `next_branch`, or `Memory` for the list.
pub(crate) fn list_branches<C: Counter>(alloc: Global, counter: &mut C) -> Result<Plan, Fault>
    ensures listed { IfOk result (λ plan. (C.seen counter.new).honest
        → (log : List Command) → ShowsLog (C.seen counter.old) log → plan ≡ open_branches log) }
    ensures done { OnOk result (IsListed (C.seen counter.old) (C.seen counter.new)) }
    ensures spared { IsErrOf result Fault.Memory → (C.seen counter.new).is_down
        → (C.seen counter.old).is_down }
    ensures fault { IfErr result (IsUnlisted C.seen counter.old counter.new) }
    ensures why { IfErr result (IsOfCall C.seen C.reason counter.old counter.new) }
    ensures down { IsErrOf result Fault.Down ↔ (C.seen counter.old).is_down }
    ensures spares { C.spares counter.old counter.new }
{
    let mut rows = Vec::new(alloc);
    let mut after = 0;
    while let Some(line) = counter.next_branch(after)? {
        rows.push((line.branch, line.accounts, line.floor))?;
        after = line.branch.get() as u32;
    }
    Ok(Plan::from_list(rows).unwrap())
}
