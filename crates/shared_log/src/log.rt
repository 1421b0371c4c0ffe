//! A log that several machines share.
ghost use Rattle.std.specs.Prelude.{◌≡◌, None, IfErr, IfOk, IfSome, OnOk, length};
ghost use Rattle.shared_log.specs.Known.{Known, with_more};

use posting_core::ENTRY_BYTES;

/// Why a shared log didn't take entries, or gave none.
#[derive(Clone, Copy, Debug, PartialEq, Eq)]
pub enum LogFault {
    /// Another machine's entries stand where these were to stand.
    Refused,
    /// It gave no answer that says what it did. What it was asked to append may stand there.
    Unanswered,
    /// Memory was refused before anything was asked.
    Memory,
}

/// A log of entries that several machines share, as one of them sees it. It never loses an entry, and takes entries at
/// its end alone: so all machines see one order. What it holds otherwise, no clause can say; what one machine is known to
/// have been told, each clause does.
pub trait SharedLog {
    /// The entries that it is known to hold, from the first on: those that it acknowledged or gave to this machine.
    ghost known: { Self → Known } = { λ _. None };

    /// How many these are: the place of the next one.
    fn count(&self) -> u64
        ensures { IfSome (known self.now) (λ entries. result ≡ length entries) };

    /// Appends entries at that place, if it is the log's end.
    ///
    /// # Errors
    ///
    /// - [`LogFault::Refused`]: the log's end is another place. None of them was appended.
    /// - [`LogFault::Unanswered`]: all of them were appended, or none.
    /// - [`LogFault::Memory`]: none of them was appended.
    fn append(&mut self, entries: &[[u8; ENTRY_BYTES]]) -> Result<(), LogFault>
        ensures done { OnOk result (known self.new ≡ with_more (known self.old) entries.now) }
        ensures fault { IfErr result (λ fault. known self.new ≡ known self.old) };

    /// Reads entries from that place on, some of them where there are some, and none at the log's end. They are known
    /// from then on.
    ///
    /// # Errors
    ///
    /// [`LogFault::Unanswered`] and [`LogFault::Memory`]: none was read.
    fn read(&mut self) -> Result<Vec<[u8; ENTRY_BYTES]>, LogFault>
        ensures given { IfOk result (λ entries. known self.new ≡ with_more (known self.old) entries.items) }
        ensures fault { IfErr result (λ fault. known self.new ≡ known self.old) };
}
