//! What machines over one log come to, whatever each was asked.
ghost use Rattle.shared_log.specs.Sharing.{AllAreHad, AnsweredAreShared, AreOfOneOrder, AreShared, NoneIsAnsweredBehind};

use crate::log::SharedLog;
use crate::replicated::Replicated;
use posting_core::Followed;

/// Any number of machines over a log that never loses an entry, each at any moment. It does nothing: the law is what it
/// ensures. That a log is so can't be proved here.
pub fn sharing_law<C: Followed + Drop, L: SharedLog + Drop>(_machine: &Replicated<C, L>)
    ensures shared { AreShared C.seen L.known }
    ensures answered { AnsweredAreShared C.seen L.known }
    ensures had { AllAreHad C.seen L.known }
    ensures behind { NoneIsAnsweredBehind C.seen L.known }
    ensures order { AreOfOneOrder C.seen L.known }
{}
