//! The log of a bank in memory.
ghost use Rattle.std.specs.Prelude.{◌≡◌, ◌≤◌, ◌-◌, Some, List, length, take, drop, IfOk};
ghost use Rattle.std.specs.Option.{option_map};
ghost use Rattle.posting_rules.specs.believed.Cases.{kept_reply};
ghost use Rattle.posting_rules.specs.believed.Commands.{Command};
ghost use Rattle.posting_rules.specs.believed.Entries.{DecidedRequest};
ghost use Rattle.posting_rules.specs.believed.Kept.{kept_with};
ghost use Rattle.posting_rules.specs.believed.Tables.{history_key, request_key, row_at};
ghost use Rattle.posting_core.specs.Standing.{moment_under};

use super::PlainBank;
use crate::entries::{ENTRY_BYTES, encode_entry};
use crate::followed::{ENTRIES_PER_ANSWER, Followed};
use crate::walking::reference_at;
use message_records::{Cents, Number, Outcome, Reply, Request, Teller};
use posting_batch::balance_at;
use posting_rules::{Decision, Fault, HistoryRow, RequestRow};
use std::alloc::AllocError;

// The teller of a request, its number, and what was decided of it.
fn decided_at(rows: &[RequestRow], ordinal: u64) -> Option<(Teller, Number, Decision)>
    ensures { result ≡ option_map (λ r. (r.teller, r.number, r.decision)) (row_at request_key rows.now ordinal) }
{
    rows.iter()
        .find(|row| row.ordinal.get() == ordinal)
        .map(|row| (row.teller, row.number, row.decision))
}

// When a request was posted; zero where it wasn't.
fn moment_at(rows: &[HistoryRow], ordinal: u64) -> u64
    ensures { result ≡ moment_under rows.now ordinal }
{
    rows.iter()
        .find(|row| row.ordinal.get() == ordinal)
        .map_or(0, |row| row.moment.get())
}

// The reply that a request got.
fn reply_of(decision: &Decision, request: Request) -> Reply
    ensures { result ≡ kept_reply (kept_with request.reference decision.now) request }
{
    let outcome = decision.outcome();
    let balance = if outcome == Outcome::Posted {
        Some(decision.balance())
    } else {
        None
    };
    Reply::new(outcome, Some(request), balance).unwrap()
}

impl PlainBank {
    ghost use Rattle.posting_rules.specs.believed.Commands.{AreCommands};
    ghost use Rattle.posting_rules.specs.believed.Tables.{AreTablesOf};
    ghost use Rattle.posting_core.specs.Plain.{plain_tables};
    ghost use Rattle.posting_core.specs.Standing.{StandsUnder};
    ghost use Rattle.posting_core.specs.believed.Batches.{joined};
    ghost use Rattle.posting_core.specs.believed.LogEntries.{answered_of, entry_of, log_entries};

    // The entry of the request under an ordinal; none where no request has it.
    fn entry_at(&self, ordinal: u64) -> Option<[u8; ENTRY_BYTES]>
        ensures { (e : DecidedRequest) → StandsUnder (plain_tables self.now) ordinal e
            → result ≡ Some (entry_of (answered_of e)) }
    {
        let (teller, number, decision) = decided_at(&self.requests, ordinal)?;
        let request = Request::new(
            decision.account(),
            teller,
            decision.branch(),
            number,
            decision.delta(),
            reference_at(&self.references, ordinal),
        )?;
        let reply = reply_of(&decision, request);
        Some(encode_entry(&request, &reply, moment_at(&self.history, ordinal)))
    }

    // The entries from one place to another, one after another.
    fn entries_between(&self, from: u64, to: u64) -> Result<Vec<u8>, AllocError>
        requires order { from ≤ to }
        requires within { to ≤ length self.now.requests.items }
        ensures { IfOk result (λ bytes. (log : List Command) → AreCommands log
            → AreTablesOf (plain_tables self.now) log
            → bytes.items ≡ joined (take (to - from) (drop from (log_entries log)))) }
    {
        let mut bytes = Vec::new(self.alloc);
        for place in from..to {
            if let Some(entry) = self.entry_at(place + 1) {
                bytes.extend_from_slice(entry.as_slice())?;
            }
        }
        Ok(bytes)
    }
}

impl Followed for PlainBank {
    fn entries_after(&mut self, after: u64) -> Result<Option<Vec<u8>>, Fault> {
        let kept = self.requests.len() as u64;
        if after > kept {
            return Ok(None);
        }
        let to = kept.min(after + ENTRIES_PER_ANSWER as u64);
        Ok(Some(self.entries_between(after, to)?))
    }

    fn teller_balance(&mut self, teller: Teller) -> Result<Option<Cents>, Fault> {
        Ok(balance_at(&self.tellers, teller.get()))
    }
}
