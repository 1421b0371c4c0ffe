//! A counter whose postings a shared log holds before they are answered.
ghost use Rattle.std.specs.Prelude.{◌≡◌, ℕ, false, true, IfErr, Ok, OnOk, Result};
ghost use Rattle.posting_rules.specs.declared.fault.Fault.TheVariants.{Down, Store};
ghost use Rattle.shared_log.specs.Published.{HasPublished};
ghost use Rattle.shared_log.specs.declared.publishing.PublishFault.{PublishFault};

use crate::log::SharedLog;
use crate::publishing::publish;
use message_records::{Account, Branch, Cents, Moment, REPLY_BYTES, REQUEST_BYTES, Teller};
use posting_core::{BranchLine, Counter, Fault, Followed, Opening};

/// A counter over another one, and a log that it shares with other machines. A posting is answered once the log holds its
/// entry; after an append that failed it is down, and answers nothing more. It is down until it has joined the others
/// (`join`).
#[derive(Drop)]
pub struct Replicated<C: Drop, L: Drop> {
    pub(crate) counter: C,
    pub(crate) log: L,
    pub(crate) is_down: bool,
}

impl<C: Followed + Drop, L: SharedLog + Drop> Replicated<C, L> {
    /// A counter and a shared log, that hasn't joined yet: it answers nothing.
    pub fn new(counter: C, log: L) -> Replicated<C, L>
        ensures down { result.is_down ≡ true }
        ensures counter { result.counter ≡ counter }
        ensures log { result.log ≡ log }
    {
        Replicated {
            counter,
            log,
            is_down: true,
        }
    }

    /// The counter and the log.
    pub fn into_parts(self) -> (C, L)
        ensures { (result.0 ≡ self.counter) × (result.1 ≡ self.log) }
    {
        (self.counter, self.log)
    }

    // Nothing is tried where it is down.
    fn check_up(&self) -> Result<(), Fault>
        ensures up { OnOk result (self.now.is_down ≡ false) }
        ensures down { IfErr result (λ fault. (fault ≡ Down) × (self.now.is_down ≡ true)) }
    {
        if self.is_down {
            Err(Fault::Down)
        } else {
            Ok(())
        }
    }

    // Appends what was decided, or is down from then on.
    fn publish(&mut self) -> Result<(), Fault>
        ensures done { OnOk result ((count : ℕ) × HasPublished C.seen C.spares self.old.counter self.new.counter
            (L.known self.old.log) (L.known self.new.log) (Ok count)) }
        ensures fault { (published : Result ℕ PublishFault) × HasPublished C.seen C.spares self.old.counter
            self.new.counter (L.known self.old.log) (L.known self.new.log) published }
        ensures up { OnOk result (self.new.is_down ≡ self.old.is_down) }
        ensures down { IfErr result (λ fault. (fault ≡ Store) × (self.new.is_down ≡ true)) }
    {
        match publish(&mut self.counter, &mut self.log) {
            Ok(_) => Ok(()),
            Err(_) => {
                self.is_down = true;
                Err(Fault::Store)
            }
        }
    }
}

impl<C: Followed + Drop, L: SharedLog + Drop> Counter for Replicated<C, L> {
    ghost use Rattle.shared_log.specs.Replicated.{replicated_reason, replicated_seen, replicated_spares};
    ghost use Rattle.shared_log.specs.Holding.{holds_itself, holds_then};

    ghost seen = { replicated_seen C.seen L.known };

    ghost Contents = { C.Contents };

    ghost contents = { λ r. C.contents r.counter };

    ghost reason = { replicated_reason C.reason };

    ghost spares = { replicated_spares C.spares L.known };

    ghost leaves_something = { λ r honest. C.leaves_something r.counter honest };

    ghost spares_itself = { λ r. (C.spares_itself r.counter, holds_itself (L.known r.log)) };

    ghost spares_then = { λ old mid new one two. (C.spares_then old.counter mid.counter new.counter one.0 two.0, holds_then (L.known old.log) (L.known mid.log) (L.known new.log) one.1 two.1) };

    fn submit(
        &mut self,
        moment: Moment,
        bytes: &[u8; REQUEST_BYTES],
    ) -> Result<[u8; REPLY_BYTES], Fault> {
        self.check_up()?;
        let reply = self.counter.submit(moment, bytes)?;
        self.publish()?;
        Ok(reply)
    }

    fn submit_all(
        &mut self,
        moment: Moment,
        records: &[[u8; REQUEST_BYTES]],
    ) -> Result<Vec<[u8; REPLY_BYTES]>, Fault> {
        self.check_up()?;
        let replies = self.counter.submit_all(moment, records)?;
        self.publish()?;
        Ok(replies)
    }

    fn open_branch(
        &mut self,
        branch: Branch,
        count: u32,
        floor: Option<Cents>,
    ) -> Result<Opening, Fault> {
        self.check_up()?;
        self.counter.open_branch(branch, count, floor)
    }

    fn balance(&mut self, account: Account) -> Result<Option<Cents>, Fault> {
        self.check_up()?;
        self.counter.balance(account)
    }

    fn next_branch(&mut self, after: u32) -> Result<Option<BranchLine>, Fault> {
        self.check_up()?;
        self.counter.next_branch(after)
    }
}

impl<C: Followed + Drop, L: SharedLog + Drop> Followed for Replicated<C, L> {
    fn entries_after(&mut self, after: u64) -> Result<Option<Vec<u8>>, Fault> {
        self.check_up()?;
        self.counter.entries_after(after)
    }

    fn teller_balance(&mut self, teller: Teller) -> Result<Option<Cents>, Fault> {
        self.check_up()?;
        self.counter.teller_balance(teller)
    }
}
