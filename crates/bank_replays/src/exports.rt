//! The kept requests as records.
ghost use Rattle.std.specs.Prelude.{◌≡◌, List, Err, map};
ghost use Rattle.sqlite.specs.State.{HasCleanDisk};
ghost use Rattle.posting_rules.specs.believed.Commands.{Command};
ghost use Rattle.posting_rules.specs.believed.Counter.{ShowsLog};
ghost use Rattle.posting_rules.specs.declared.fault.Fault.TheVariants.{Down};
ghost use Rattle.walked_rows.specs.KeptRows.{HasKept, KeptItem, kept_item};
ghost use Rattle.bank_store.specs.believed.Seen.{bank_seen, database_of, file_of};
ghost use Rattle.bank_replays.specs.Damaged.{TellsWhy, fault_in};
ghost use Rattle.posting_core.specs.believed.LogEntries.{answered_after};
ghost use Rattle.bank_replays.specs.Reading.{IsOnlyRead, ReadsBank};
ghost use Rattle.bank_replays.specs.Writing.{ExportsRows, LeavesWriter, WritesSound, is_after, records_of};
ghost use Rattle.bank_replays.specs.declared.fault.ReplayFault.TheVariants.{Bank as OfBank};

use crate::chain::NO_REQUEST;
use crate::fault::ReplayFault;
use crate::visitors::{Visitor, visit_all};
use crate::writes::put_bytes;
use bank_store::Bank;
use message_records::encode_request;
use posting_core::Sink;
use posting_rules::{Counter, Fault};
use report_contents::put_last;
use sqlite::Alter;
use walked_rows::{KeptRequest, request_of};

/// Whether a row's ordinal is above this one.
pub(crate) fn is_after(row: &KeptRequest, after: u64) -> bool
    ensures { result ≡ is_after after (kept_item row.now) }
{
    row.request.ordinal.get() > after
}

/// Requests after an ordinal are written as records.
#[derive(Drop)]
pub(crate) struct After {
    after: u64,
}

impl<W: Sink> Visitor<KeptRequest, W> for After {
    ghost use Rattle.bank_replays.specs.Visiting.{refused_of};
    ghost use Rattle.bank_replays.specs.Holding.{after_held};
    ghost use Rattle.bank_replays.specs.Prefixes.{rows_end, rows_none};
    ghost use Rattle.bank_replays.specs.Refusing.{RefusesAfter};
    ghost use Rattle.bank_replays.specs.Writing.{WroteRows, WroteSomeRows, record_of};
    ghost use Rattle.walked_rows.specs.Requests.{IsRequestRow};

    ghost Visited = { λ visitor first last rows. WroteRows IsRequestRow record_of visitor.after (map kept_item rows)
        (W.contents first) (W.contents last) (W.calls first) (W.calls last) };

    ghost Part = { λ visitor first last rows next fault. WroteSomeRows IsRequestRow record_of visitor.after
        (map kept_item rows) (refused_of kept_item next) (W.contents first) (W.contents last) (W.calls first)
        (W.calls last) fault };

    ghost Refuses = { λ visitor. RefusesAfter IsRequestRow visitor.after };

    ghost none_yet = { λ visitor writer. rows_none IsRequestRow record_of visitor.after (W.contents writer)
        (W.calls writer) };

    ghost in_part = { λ visitor first last rows fault many visited. rows_end rows fault many visited };

    ghost held = { λ visitor. after_held IsRequestRow (λ k answered. answered.0) visitor.after };

    fn visit(&self, row: KeptRequest, writer: &mut W) -> Result<(), ReplayFault> {
        if !is_after(&row, self.after) {
            return Ok(());
        }
        let Some(request) = request_of(&row) else {
            return Err(NO_REQUEST);
        };
        let record = encode_request(&request);
        put_bytes(writer, record.as_slice())
    }
}

// Writes the records of the kept requests after an ordinal.
fn export_records<S: Alter, W: Sink>(
    bank: &mut Bank<S>,
    after: u64,
    writer: &mut W,
) -> Result<(), ReplayFault>
    ensures bank { ReadsBank S.Store bank.old bank.new result }
    ensures rows { HasCleanDisk (file_of bank.new) → (all : List KeptItem)
        → HasKept (database_of S.Store bank.old) all
        → ExportsRows after all (W.contents writer.old) (W.contents writer.new) result }
    ensures writer { LeavesWriter (W.calls writer.old) (W.calls writer.new) result }
    ensures why { TellsWhy S.Store fault_in bank.old bank.new result }
{
    visit_all::<S, KeptRequest, W, After>(bank, &After { after }, writer)?;
    put_last(writer, "")?;
    Ok(())
}

/// Writes the kept requests whose ordinals are above a number as the records that they came as, 100 bytes each,
/// by their ordinals, and flushes the writer. A bank that gets them after the same plan and the same requests
/// up to that ordinal keeps what this one keeps, but for the moments.
///
/// # Errors
///
/// Where the writer failed a prefix of the records was written, and else those of the rows before the one at which
/// the fault came, all of them. None brings the bank down, and none changes the file.
///
/// | Error | What happened |
/// |---|---|
/// | [`ReplayFault::Write`] | the writer failed, at the flush too, or took no byte |
/// | [`ReplayFault::Bank`] of `Store` | a read failed: the disk did, or memory or steps were refused |
/// | of `Down` | the bank was down, and nothing was written |
/// | of `Damaged` | a row can't be read, or with `Rule::Request` it is that of no request |
pub fn export<S: Alter, W: Sink>(
    bank: &mut Bank<S>,
    after: u64,
    writer: &mut W,
) -> Result<(), ReplayFault>
    ensures rows { (bank_seen S.Store bank.new).honest → (all : List KeptItem)
        → HasKept (database_of S.Store bank.old) all
        → ExportsRows after all (W.contents writer.old) (W.contents writer.new) result }
    ensures log { (bank_seen S.Store bank.new).honest → (log : List Command)
        → ShowsLog (bank_seen S.Store bank.old) log → WritesSound (records_of after (answered_after log))
        (W.contents writer.old) (W.contents writer.new) result }
    ensures writer { LeavesWriter (W.calls writer.old) (W.calls writer.new) result }
    ensures why { TellsWhy S.Store fault_in bank.old bank.new result }
    ensures reads { IsOnlyRead S.Store bank.old bank.new result }
    ensures down { (bank_seen S.Store bank.old).is_down
        → (result ≡ Err (OfBank Down)) × (bank.new ≡ bank.old) × (writer.new ≡ writer.old) }
{
    if bank.is_down() {
        return Err(ReplayFault::Bank(Fault::Down));
    }
    export_records(bank, after, writer)
}
