//! The program of the page of `shared_log`.
ghost use Rattle.std.specs.Prelude.{◌≡◌, [], IfSome};

use branch_loader::{FollowWatch, Plan};
use posting_core::Followed;
use shared_log::{AtOnce, JoinFault, Replicated, SharedLog};
use std::alloc::Global;

pub fn first_machine<C: Followed + Drop, L: SharedLog + Drop, T: FollowWatch>(
    alloc: Global,
    plan: &Plan,
    bank: C,
    log: L,
    watch: &mut T,
) -> Result<Replicated<C, L>, JoinFault>
    requires { IfSome (L.known log) (λ entries. entries ≡ []) }
{
    let mut machine = Replicated::new(bank, log);
    let joined = machine.join(alloc, plan, watch, &mut AtOnce)?;
    let _both_hold = joined.holds;
    Ok(machine)
}
