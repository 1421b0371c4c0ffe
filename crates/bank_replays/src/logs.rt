//! The log of a bank: an entry of each kept request.
ghost use Rattle.std.specs.Prelude.{◌≡◌, ◌≢◌, ◌∷◌, [], ℤ, pos, List, Err, IfErr, IfOk, None, OnOk, int_lt, length, map, true};
ghost use Rattle.sqlite.specs.State.{HasCleanDisk};
ghost use Rattle.posting_rules.specs.believed.Commands.{Command};
ghost use Rattle.posting_rules.specs.believed.Counter.{ShowsLog};
ghost use Rattle.posting_rules.specs.declared.fault.Fault.TheVariants.{Damaged, Down, Memory};
ghost use Rattle.posting_rules.specs.declared.fault.Rule.{Rule};
ghost use Rattle.posting_rules.specs.declared.fault.Rule.TheVariants.{Meta};
ghost use Rattle.posting_core.specs.believed.LogEntries.{log_entries};
ghost use Rattle.store_rows.specs.believed.BankTables.{meta as meta_table};
ghost use Rattle.walked_rows.specs.KeptRows.{HasKept, KeptItem, kept_item};
ghost use Rattle.walked_rows.specs.OnlyMeta.{bank_entry};
ghost use Rattle.walked_rows.specs.Rows.{HasStoredRows};
ghost use Rattle.bank_store.specs.believed.Seen.{bank_seen, database_of, file_of};
ghost use Rattle.bank_replays.specs.Damaged.{TellsCount, TellsWhy, fault_in};
ghost use Rattle.bank_replays.specs.Logs.{LogsEntries, LogsRows, decided_in, without_count};
ghost use Rattle.bank_replays.specs.Reading.{IsOnlyRead, ReadsBank};
ghost use Rattle.bank_replays.specs.Writing.{LeavesWriter};
ghost use Rattle.bank_replays.specs.declared.fault.ReplayFault.TheVariants.{Bank as OfBank};

use crate::chain::NO_REQUEST;
use crate::exports::is_after;
use crate::fault::{ReplayFault, bank_fault};
use crate::visitors::{Visitor, visit_first};
use crate::writes::put_bytes;
use bank_store::{Bank, entry_in};
use message_records::Whole;
use posting_core::Sink;
use posting_rules::{Counter, Fault, Rule};
use report_contents::put_last;
use sqlite::Alter;
use walked_rows::{KeptRequest, StoredMeta};

/// Requests after an ordinal are written as entries.
#[derive(Drop)]
pub(crate) struct EntriesAfter {
    after: u64,
}

impl<W: Sink> Visitor<KeptRequest, W> for EntriesAfter {
    ghost use Rattle.bank_replays.specs.Visiting.{refused_of};
    ghost use Rattle.bank_replays.specs.Holding.{after_held};
    ghost use Rattle.bank_replays.specs.Prefixes.{rows_end, rows_none};
    ghost use Rattle.bank_replays.specs.Refusing.{RefusesAfter};
    ghost use Rattle.bank_replays.specs.Writing.{WroteRows, WroteSomeRows};
    ghost use Rattle.bank_store.specs.KeptEntries.{entry_in};
    ghost use Rattle.walked_rows.specs.Requests.{IsAnsweredRow};

    ghost Visited = { λ visitor first last rows. WroteRows IsAnsweredRow entry_in visitor.after (map kept_item rows)
        (W.contents first) (W.contents last) (W.calls first) (W.calls last) };

    ghost Part = { λ visitor first last rows next fault. WroteSomeRows IsAnsweredRow entry_in visitor.after
        (map kept_item rows) (refused_of kept_item next) (W.contents first) (W.contents last) (W.calls first)
        (W.calls last) fault };

    ghost Refuses = { λ visitor. RefusesAfter IsAnsweredRow visitor.after };

    ghost none_yet = { λ visitor writer. rows_none IsAnsweredRow entry_in visitor.after (W.contents writer)
        (W.calls writer) };

    ghost in_part = { λ visitor first last rows fault many visited. rows_end rows fault many visited };

    ghost held = { λ visitor. after_held IsAnsweredRow (λ k answered. answered) visitor.after };

    fn visit(&self, row: KeptRequest, writer: &mut W) -> Result<(), ReplayFault> {
        if !is_after(&row, self.after) {
            return Ok(());
        }
        let Some(entry) = entry_in(&row) else {
            return Err(NO_REQUEST);
        };
        put_bytes(writer, entry.as_slice())
    }
}

// Writes the entries of the kept requests after an ordinal, and returns how many requests there are.
fn write_entries<S: Alter, W: Sink>(
    bank: &mut Bank<S>,
    after: u64,
    writer: &mut W,
) -> Result<u64, ReplayFault>
    ensures bank { ReadsBank S.Store bank.old bank.new result }
    ensures rows { HasCleanDisk (file_of bank.new) → (all : List KeptItem)
        → HasKept (database_of S.Store bank.old) all
        → LogsRows after all (W.contents writer.old) (W.contents writer.new) result }
    ensures writer { LeavesWriter (W.calls writer.old) (W.calls writer.new) (without_count result) }
    ensures why { TellsWhy S.Store fault_in bank.old bank.new result }
{
    let visitor = EntriesAfter { after };
    let count = visit_first::<S, KeptRequest, W, EntriesAfter>(bank, u64::MAX, &visitor, writer)?;
    if count == u64::MAX {
        // There would be no room for so many rows.
        return Err(ReplayFault::Bank(Fault::Memory));
    }
    put_last(writer, "")?;
    Ok(count)
}

/// Writes the kept requests whose ordinals are above a number as entries of a log, 308 bytes each, by their ordinals,
/// flushes the writer, and returns how many requests are kept: where they are fewer than the number, nothing was
/// written. A bank that follows the entries after those that it has gets them byte for byte.
///
/// # Errors
///
/// Where the writer failed a prefix of the entries was written, and else those of the rows before the one at which the
/// fault came, all of them. None brings the bank down, and none changes the file.
///
/// | Error | What happened |
/// |---|---|
/// | [`ReplayFault::Write`] | the writer failed, at the flush too, or took no byte |
/// | [`ReplayFault::Bank`] of `Store` | a read failed: the disk did, or memory or steps were refused |
/// | of `Down` | the bank was down, and nothing was written |
/// | of `Damaged` | a row can't be read, or with `Rule::Request` it is that of no request |
/// | of `Memory` | there would be no room for so many requests |
pub fn write_log<S: Alter, W: Sink>(
    bank: &mut Bank<S>,
    after: u64,
    writer: &mut W,
) -> Result<u64, ReplayFault>
    ensures rows { (bank_seen S.Store bank.new).honest → (all : List KeptItem)
        → HasKept (database_of S.Store bank.old) all
        → LogsRows after all (W.contents writer.old) (W.contents writer.new) result }
    ensures log { (bank_seen S.Store bank.new).honest → (log : List Command)
        → ShowsLog (bank_seen S.Store bank.old) log
        → LogsEntries after (log_entries log) (W.contents writer.old) (W.contents writer.new) result }
    ensures writer { LeavesWriter (W.calls writer.old) (W.calls writer.new) (without_count result) }
    ensures why { TellsWhy S.Store fault_in bank.old bank.new result }
    ensures reads { IsOnlyRead S.Store bank.old bank.new result }
    ensures down { (bank_seen S.Store bank.old).is_down
        → (result ≡ Err (OfBank Down)) × (bank.new ≡ bank.old) × (writer.new ≡ writer.old) }
{
    if bank.is_down() {
        return Err(ReplayFault::Bank(Fault::Down));
    }
    write_entries(bank, after, writer)
}

// The last row of `meta` is kept.
struct LastMeta;

impl Visitor<StoredMeta, StoredMeta> for LastMeta {
    ghost use Rattle.std.proofs.Common.{refl};
    ghost use Rattle.walked_rows.specs.StoredBeside.{meta_entry};
    ghost use Rattle.bank_replays.specs.Holding.{bars_held, metas_held};
    ghost use Rattle.bank_replays.specs.Prefixes.{asks_none};
    ghost use Rattle.bank_replays.specs.Visiting.{AsksMemory};

    ghost Visited = { λ visitor first last rows. last.decided ≡ decided_in first.decided rows };

    ghost Part = { λ visitor first last rows next fault. AsksMemory rows None fault };

    ghost none_yet = { λ visitor last. refl };

    ghost in_part = { λ visitor first last rows fault many visited. asks_none rows fault many };

    ghost held = { λ visitor. bars_held metas_held meta_entry };

    #[tactic(auto, using(crate::proofs::Logged::decided_last))]
    fn visit(&self, row: StoredMeta, last: &mut StoredMeta) -> Result<(), ReplayFault> {
        *last = row;
        Ok(())
    }
}

// The count of requests that a row has.
fn counted(row: &StoredMeta) -> Result<u64, Fault>
    ensures count { IfOk result (λ count. pos count ≡ row.now.decided) }
    ensures below { IfErr result (λ fault. (fault ≡ Damaged Meta) × (int_lt row.now.decided (pos 0) ≡ true)) }
{
    if row.decided < 0 {
        return Err(Fault::Damaged(Rule::Meta));
    }
    Ok(row.decided as u64)
}

// The count of requests that `meta` has.
fn stored_count<S: Alter>(bank: &mut Bank<S>) -> Result<u64, Fault>
    ensures bank { ReadsBank S.Store bank.old bank.new result }
    ensures rows { HasCleanDisk (file_of bank.new) → (version decided : ℤ)
        → HasStoredRows (database_of S.Store bank.old) meta_table (bank_entry version decided ∷ [])
        → IfOk result (λ count. pos count ≡ decided) }
    ensures sound { HasCleanDisk (file_of bank.new) → (log : List Command)
        → ShowsLog (bank_seen S.Store bank.old) log → (rule : Rule) → result ≢ Err (Damaged rule) }
    ensures why { TellsCount S.Store bank.old bank.new result }
    ensures frugal { result ≢ Err Memory }
{
    let mut last = StoredMeta {
        id: Whole::new(1).unwrap(),
        version: 0,
        decided: 0,
    };
    match visit_first::<S, StoredMeta, StoredMeta, LastMeta>(bank, u64::MAX, &LastMeta, &mut last) {
        Ok(_) => counted(&last),
        Err(fault) => Err(bank_fault(fault)),
    }
}

/// How many requests a bank keeps, by the count that its file has.
///
/// # Errors
///
/// None of them brings the bank down, and none changes the file.
///
/// | Error | What happened |
/// |---|---|
/// | [`Fault::Store`] | a read failed: the disk did, or memory or steps were refused |
/// | [`Fault::Down`] | the bank was down, and nothing was read |
/// | [`Fault::Damaged`] | the row can't be read, or with `Rule::Meta` its count is below zero |
pub fn count_requests<S: Alter>(bank: &mut Bank<S>) -> Result<u64, Fault>
    ensures rows { (bank_seen S.Store bank.new).honest → (version decided : ℤ)
        → HasStoredRows (database_of S.Store bank.old) meta_table (bank_entry version decided ∷ [])
        → IfOk result (λ count. pos count ≡ decided) }
    ensures log { (bank_seen S.Store bank.new).honest → (log : List Command)
        → ShowsLog (bank_seen S.Store bank.old) log
        → IfOk result (λ count. count ≡ length (log_entries log)) }
    ensures sound { (bank_seen S.Store bank.new).honest → (log : List Command)
        → ShowsLog (bank_seen S.Store bank.old) log → (rule : Rule) → result ≢ Err (Damaged rule) }
    ensures why { TellsCount S.Store bank.old bank.new result }
    ensures frugal { result ≢ Err Memory }
    ensures reads { IsOnlyRead S.Store bank.old bank.new result }
    ensures same { (bank_seen S.Store bank.new).honest
        → OnOk result (database_of S.Store bank.new ≡ database_of S.Store bank.old) }
    ensures down { (bank_seen S.Store bank.old).is_down → (result ≡ Err Down) × (bank.new ≡ bank.old) }
{
    if bank.is_down() {
        return Err(Fault::Down);
    }
    stored_count(bank)
}
