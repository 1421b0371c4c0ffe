//! Loading a plan into a counter.
ghost use Rattle.std.specs.Prelude.{◌≡◌, ◌≢◌, ◌+◌, ◌≤◌, ◌↔◌, ℕ, List, [], length, IfOk, IfErr, OnOk};
ghost use Rattle.std.specs.Result.{IsErrOf};
ghost use Rattle.posting_rules.specs.Counter.{HasRefused};
ghost use Rattle.posting_core.specs.Sparing.{IsSpared};
ghost use Rattle.branch_loader.specs.Plans.{openings};

use crate::plan::Plan;
use posting_core::{Counter, Fault, LAST_BRANCH, Opening};

/// How many openings of a plan got each answer.
#[derive(Clone, Copy, Debug, PartialEq, Eq)]
pub struct Loaded {
    /// The branch is open from now on.
    pub opened: u32,
    /// It was open with this count of accounts and this floor.
    pub already: u32,
    /// It was open with another count or another floor, which stay.
    pub differs: u32,
}

ghost use Rattle.branch_loader.specs.believed.Loading.{IsRefusedAfter};
ghost use Rattle.branch_loader.specs.Loading.{CountsAnswers, LoadsAll, total, with_answer};

// The counts with one answer more.
fn with_answer(loaded: Loaded, opening: Opening) -> Loaded
    requires { total loaded ≤ LAST_BRANCH }
    ensures { result ≡ with_answer loaded opening }
{
    match opening {
        Opening::Opened => Loaded {
            opened: loaded.opened + 1,
            ..loaded
        },
        Opening::Already => Loaded {
            already: loaded.already + 1,
            ..loaded
        },
        Opening::Differs => Loaded {
            differs: loaded.differs + 1,
            ..loaded
        },
    }
}

/// Opens the plan's branches in its order, and counts the answers. After a fault the branches before it are
/// open, and what the counter says of the fault holds of the rest: after `Memory` it can be used, and the
/// plan can be loaded again.
pub fn load<C: Counter>(plan: &Plan, counter: &mut C) -> Result<Loaded, Fault>
    ensures counts { IfOk result (CountsAnswers (C.seen counter.old) (C.seen counter.new) plan.now) }
    ensures all { IfOk result (λ loaded. total loaded ≡ length plan.now) }
    ensures done { OnOk result (LoadsAll (C.seen counter.old) (C.seen counter.new) plan.now) }

    // A fault tells how many openings were answered before it.
    ensures fault { IfErr result (λ fault. (answered : ℕ)
        × IsRefusedAfter C.seen counter.old counter.new (openings plan.now) fault answered) }
    ensures why { IfErr result (HasRefused C.seen C.reason counter.old counter.new) }
    ensures down { IsErrOf result Fault.Down ↔ ((C.seen counter.old).is_down × (plan.now ≢ [])) }
    ensures idle { (C.seen counter.old).is_down → counter.new ≡ counter.old }

    ensures spared { IsSpared C.seen C.spares counter.old counter.new }
{
    let mut loaded = Loaded {
        opened: 0,
        already: 0,
        differs: 0,
    };
    for row in plan.rows() {
        let (branch, count, floor) = *row;
        let opening = counter.open_branch(branch, count, floor)?;
        loaded = with_answer(loaded, opening);
    }
    Ok(loaded)
}
