//! The digest of the plan that the open branches are.
ghost use Rattle.std.specs.Prelude.{◌++◌, ℕ, List, IfOk, map};
ghost use Rattle.sqlite.specs.State.{HasCleanDisk};
ghost use Rattle.sha2.specs.Hashers.{Holds256};
ghost use Rattle.walked_rows.specs.Stored.{branch_entry};
ghost use Rattle.walked_rows.specs.StoredBeside.{floor_entry};
ghost use Rattle.bank_store.specs.believed.Seen.{database_of, file_of};
ghost use Rattle.bank_replays.specs.Damaged.{TellsWhy};
ghost use Rattle.bank_replays.specs.PlanDigests.{IsPlanDigestIn};
ghost use Rattle.bank_replays.specs.Reading.{ReadsBank};
ghost use Rattle.bank_replays.specs.Writing.{plan_lines};

use crate::fault::{ReplayFault, bank_fault};
use crate::plan::{Lines, NAMES, floors_of, plan_line};
use crate::visitors::{Visitor, visit_all};
use bank_store::Bank;
use posting_rules::Fault;
use sha2::{Digest, Sha256};
use sqlite::Alter;
use walked_rows::StoredBranch;

/// Branches are hashed as the lines of a plan.
#[derive(Drop)]
struct Hashing {
    lines: Lines,
}

impl Visitor<StoredBranch, Sha256> for Hashing {
    ghost use Rattle.bank_replays.specs.Holding.{bars_held, branches_held};
    ghost use Rattle.bank_replays.specs.Prefixes.{hashed_none};

    ghost Visited = { λ visitor first last rows. (message : List ℕ) → Holds256 first message
        → Holds256 last (message ++ plan_lines (map floor_entry visitor.lines.floors.items) (map branch_entry rows)) };

    ghost none_yet = { λ visitor hasher. hashed_none hasher };

    ghost in_part = { λ visitor first last rows fault many visited. tt };

    ghost held = { λ visitor. bars_held branches_held branch_entry };

    fn visit(&self, row: StoredBranch, hasher: &mut Sha256) -> Result<(), ReplayFault> {
        let line = plan_line(&self.lines, &row);
        hasher.update(line.as_str());
        Ok(())
    }
}

/// SHA-256 of the plan that the open branches are. A fault leaves the bank as it was.
pub(crate) fn digest_plan<S: Alter>(bank: &mut Bank<S>) -> Result<[u8; 32], Fault>
    ensures bank { ReadsBank S.Store bank.old bank.new result }
    ensures rows { HasCleanDisk (file_of bank.new) → IfOk result (IsPlanDigestIn (database_of S.Store bank.old)) }
    ensures why { TellsWhy S.Store (λ fault. fault) bank.old bank.new result }
{
    let visitor = Hashing {
        lines: floors_of(bank)?,
    };
    let mut hasher = Sha256::new();
    hasher.update(NAMES);
    match visit_all::<S, StoredBranch, Sha256, Hashing>(bank, &visitor, &mut hasher) {
        Ok(()) => Ok(hasher.finalize()),
        Err(fault) => Err(bank_fault(fault)),
    }
}
