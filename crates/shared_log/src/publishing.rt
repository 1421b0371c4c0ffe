//! What a counter decided is appended to a shared log.
ghost use Rattle.shared_log.specs.Published.{HasPublished};

use crate::log::{LogFault, SharedLog};
use crate::settled::append_settled;
use posting_core::{ENTRY_BYTES, Fault, Followed};

/// Why entries weren't appended.
#[derive(Clone, Copy, Debug, PartialEq, Eq)]
pub(crate) enum PublishFault {
    Bank(Fault),
    /// The bank keeps fewer entries than the log is known to hold.
    Fewer,
    Log(LogFault),
}

impl From<Fault> for PublishFault {
    ghost use Rattle.std.specs.Prelude.{◌≡◌};
    ghost use Rattle.shared_log.specs.declared.publishing.PublishFault.TheVariants.{Bank};

    ghost from_gives = { λ fault answer. answer ≡ Bank fault };

    fn from(fault: Fault) -> PublishFault {
        PublishFault::Bank(fault)
    }
}

impl From<LogFault> for PublishFault {
    ghost use Rattle.std.specs.Prelude.{◌≡◌};
    ghost use Rattle.shared_log.specs.declared.publishing.PublishFault.TheVariants.{Log};

    ghost from_gives = { λ fault answer. answer ≡ Log fault };

    fn from(fault: LogFault) -> PublishFault {
        PublishFault::Log(fault)
    }
}

/// Appends the bank's next entries behind those that the log is known to hold, as many as it gives at once, and returns
/// how many there were.
pub(crate) fn publish<C: Followed, L: SharedLog>(
    counter: &mut C,
    log: &mut L,
) -> Result<usize, PublishFault>
    ensures { HasPublished C.seen C.spares counter.old counter.new (L.known log.old) (L.known log.new) result }
{
    let Some(bytes) = counter.entries_after(log.count())? else {
        return Err(PublishFault::Fewer);
    };
    let (entries, _rest) = bytes.as_slice().as_chunks::<ENTRY_BYTES>();
    if !entries.is_empty() {
        append_settled(log, entries)?;
    }
    Ok(entries.len())
}
