//! A log is followed: the entries of a stream are posted as they come.
ghost use Rattle.branch_loader.specs.Followed.{FollowsLog};

use crate::follow_fault::FollowFault;
use crate::followers::Follower;
use crate::plan::Plan;
use posting_core::transfer::{fill_buffer, move_to_front};
use posting_core::{Count, Counter, ENTRY_BYTES, RECORDS_PER_BATCH, Source};
use std::alloc::Global;
use std::io::ErrorKind;

// The length of the buffer: as many entries as can be submitted together.
const BUFFER: usize = ENTRY_BYTES * RECORDS_PER_BATCH;

/// What is told how far following is. No contract speaks of it.
pub trait FollowWatch {
    /// So many entries were followed.
    fn followed(&mut self, entries: Count);
}

/// Follows a log to the end of its entries, and returns how many there were. As soon as whole entries were read, all of
/// them are posted, those of one moment together, before more is read; and a branch of the plan is opened before the
/// first entry that needs it: one whose teller it has, or whose account, where the request was judged by that. A request
/// that is kept already is a repeat, and gets its reply again. An interrupted read is made again.
///
/// # Errors
///
/// - [`FollowFault::Truncated`]: the input ended within an entry. The entries before it were followed.
/// - [`FollowFault::Read`]: a read failed, or 2^64 - 1 reads were made. The whole entries that were read before were
///   followed.
/// - [`FollowFault::NoEntry`]: what was read after so many entries is none. They were followed.
/// - [`FollowFault::Differs`]: a reply is another than its entry's. What was posted with it stands, and nothing that
///   comes after was posted.
/// - [`FollowFault::Memory`]: memory for the branches of the plan was refused. Nothing was read or done.
/// - [`FollowFault::Bank`]: the bank refused a call, and its fault says what holds of it. The entries before were
///   followed.
pub fn follow<R: Source, C: Counter, T: FollowWatch>(
    alloc: Global,
    plan: &Plan,
    reader: &mut R,
    bank: &mut C,
    watch: &mut T,
) -> Result<Count, FollowFault>
    ensures { FollowsLog C.seen C.spares C.reason plan.now (R.remaining reader.old) (R.remaining reader.new)
        (R.calls reader.old) (R.calls reader.new) bank.old bank.new result }
{
    let Ok(mut follower) = Follower::over(alloc, plan) else {
        return Err(FollowFault::Memory);
    };
    let mut buffer = [0u8; BUFFER];
    let mut filled = 0;
    let mut count = 0;
    'reads: for _ in 0..u64::MAX {
        match fill_buffer(reader, &mut buffer, filled) {
            Ok(0) if filled == 0 => return Ok(count),
            Ok(0) => return Err(FollowFault::Truncated(filled as u16)),
            Ok(n) => filled += n,
            Err(e) if e.kind() == ErrorKind::Interrupted => {}
            Err(_) => return Err(FollowFault::Read),
        }
        if filled >= ENTRY_BYTES {
            let (entries, rest) = buffer[..filled].as_chunks::<ENTRY_BYTES>();
            let left = rest.len();
            follower.take_all(entries, count, bank)?;
            count += entries.len() as Count;
            move_to_front(&mut buffer, filled - left, filled);
            filled = left;
            watch.followed(count);
        }
    }
    Err(FollowFault::Read)
}
