//! An append that isn't answered is asked about, and never guessed.
ghost use Rattle.std.specs.Prelude.{◌≡◌, ◌≤◌, IfErr, IfOk, OnOk, length};
ghost use Rattle.shared_log.specs.Known.{with_more};
ghost use Rattle.shared_log.specs.Settled.{IsUnappended, Stands};

use crate::log::{LogFault, SharedLog};
use posting_core::ENTRY_BYTES;

/// How often entries are appended, and it is asked what became of them, before they are given up.
pub const MOST_TRIES: u32 = 4;

/// What stands behind the entries that were known.
#[derive(Clone, Copy)]
enum Standing {
    Nothing,
    /// Just those that were to be appended.
    Ours,
    /// Others, or others behind ours: another machine goes on there.
    Others,
}

// Asks what stands where entries were to be appended.
fn ask<L: SharedLog>(log: &mut L, entries: &[[u8; ENTRY_BYTES]]) -> Result<Standing, LogFault>
    requires { 1 ≤ length entries.now }
    ensures found { IfOk result (λ standing. Stands (L.known log.old) (L.known log.new) entries.now standing) }
    ensures fault { IfErr result (λ fault. L.known log.new ≡ L.known log.old) }
{
    let given = log.read()?;
    if given.is_empty() {
        return Ok(Standing::Nothing);
    }
    if given.as_slice() == entries {
        return Ok(Standing::Ours);
    }
    Ok(Standing::Others)
}

/// Appends one entry at least behind those that are known, and asks where that isn't answered: entries that are there
/// are not appended again, and those that aren't are tried again.
///
/// # Errors
///
/// - [`LogFault::Refused`]: others stand there, or stand behind these already.
/// - [`LogFault::Unanswered`]: nothing was known after [`MOST_TRIES`] tries. They may stand there.
pub fn append_settled<L: SharedLog>(
    log: &mut L,
    entries: &[[u8; ENTRY_BYTES]],
) -> Result<(), LogFault>
    requires { 1 ≤ length entries.now }
    ensures done { OnOk result (L.known log.new ≡ with_more (L.known log.old) entries.now) }
    ensures fault { IfErr result (IsUnappended (L.known log.old) (L.known log.new) entries.now) }
{
    for _ in 0..MOST_TRIES {
        if log.append(entries).is_ok() {
            return Ok(());
        }
        match ask(log, entries) {
            Ok(Standing::Nothing) => {}
            Ok(Standing::Ours) => return Ok(()),
            Ok(Standing::Others) => return Err(LogFault::Refused),
            Err(_) => {}
        }
    }
    Err(LogFault::Unanswered)
}
