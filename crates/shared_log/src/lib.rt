//! A log that several machines share, and a counter that answers a posting once the log holds its entry. So a machine that
//! is lost takes nothing with it that was answered, and one that was cut off answers nothing that another one goes on
//! without. The function `first_machine` of `sharing_trials`, which its scenes call, has a bank join the others:
//!
//! ```rust
//! ghost use Rattle.std.specs.Prelude.{◌≡◌, [], IfSome};
//!
//! use branch_loader::{FollowWatch, Plan};
//! use posting_core::Followed;
//! use shared_log::{AtOnce, JoinFault, Replicated, SharedLog};
//! use std::alloc::Global;
//!
//! pub fn first_machine<C: Followed + Drop, L: SharedLog + Drop, T: FollowWatch>(
//!     alloc: Global,
//!     plan: &Plan,
//!     bank: C,
//!     log: L,
//!     watch: &mut T,
//! ) -> Result<Replicated<C, L>, JoinFault>
//!     requires { IfSome (L.known log) (λ entries. entries ≡ []) }
//! {
//!     let mut machine = Replicated::new(bank, log);
//!     let joined = machine.join(alloc, plan, watch, &mut AtOnce)?;
//!     let _both_hold = joined.holds;
//!     Ok(machine)
//! }
//! ```
//!
//! A log is a [`SharedLog`]: it takes entries at its end alone, and never loses one. [`LogFault`] says why it didn't take
//! some: others stand there, it gave no answer, or memory was refused. [`append_settled`] asks where it gave no answer.
//! [`JoinFault`] says why a machine can't serve: an entry of its own that the others don't have at its place, or what the
//! bank or the log refused.
//!
//! A machine that stands by follows the others until a [`Turn`] says that it is to serve.
//!
//! A log over etcd is a [`DialedLog`], which asks a member by the connections that a [`Dial`] makes.
//!
//! Read next: [`SharedLog`]; [`Replicated`], with `specs/Replicated`, which says what it shows; [`Replicated::join`], with
//! `specs/Joined`; `src/etcd`, how etcd is asked, in answers of [`MOST_ANSWER_BYTES`] at most; [`EtcdLog`].
#![tactic(auto)]

mod etcd;
mod joining;
mod laws;
mod log;
mod publishing;
mod replicated;
mod settled;

pub use etcd::{Dial, DialedLog, EtcdLog, MOST_ANSWER_BYTES};
pub use joining::{AtOnce, JoinFault, Joined, Turn};
pub use laws::sharing_law;
pub use log::{LogFault, SharedLog};
pub use replicated::Replicated;
pub use settled::{MOST_TRIES, append_settled};
