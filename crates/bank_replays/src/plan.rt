//! The open branches as a plan.
ghost use Rattle.std.specs.Prelude.{◌≡◌, ◌≢◌, ◌≤◌, ◌+◌, ◌++◌, [], List, Err, IfOk, length, map, option_map};
ghost use Rattle.sqlite.specs.State.{HasCleanDisk};
ghost use Rattle.posting_rules.specs.believed.Commands.{Command};
ghost use Rattle.posting_rules.specs.believed.Counter.{ShowsLog};
ghost use Rattle.posting_rules.specs.believed.Tables.{row_at};
ghost use Rattle.posting_rules.specs.declared.fault.Fault.TheVariants.{Damaged, Down, Memory};
ghost use Rattle.posting_rules.specs.declared.fault.Rule.{Rule};
ghost use Rattle.sql_meanings.specs.believed.Entries.{Entry};
ghost use Rattle.store_rows.specs.believed.BankTables.{branch as branch_table, floor as floor_table};
ghost use Rattle.walked_rows.specs.Rows.{HasStoredRows};
ghost use Rattle.walked_rows.specs.Stored.{branch_entry};
ghost use Rattle.walked_rows.specs.StoredBeside.{floor_entry};
ghost use Rattle.bank_store.specs.believed.Seen.{bank_seen, database_of, file_of};
ghost use Rattle.bank_replays.specs.Damaged.{TellsWhy, fault_in};
ghost use Rattle.bank_replays.specs.Reading.{IsOnlyRead, ReadsBank};
ghost use Rattle.bank_replays.specs.Writing.{LeavesWriter, WritesPlan, Wrote, WrotePart, branch_of, line_with, lowest_of};
ghost use Rattle.bank_replays.specs.Writing.{plan_line, plan_lines, text_of_floor};
ghost use Rattle.bank_replays.specs.declared.fault.ReplayFault.TheVariants.{Bank as OfBank};

use crate::fault::{ReplayFault, bank_fault};
use crate::lines::{LINE, Line, NUMBER, push_number};
use crate::visitors::{Visitor, visit_all};
use arrayvec::ArrayString;
use bank_store::Bank;
use posting_core::Sink;
use posting_rules::{Counter, Fault};
use report_contents::{put, put_last};
use sqlite::Alter;
use walked_rows::{StoredBranch, StoredFloor};

/// The first line.
pub(crate) const NAMES: &str = "branch,accounts,floor\n";

// Appends a floor, if there is one.
fn push_floor(line: &mut Line, floor: Option<i64>)
    requires { length line.old.bytes + NUMBER ≤ LINE }
    ensures bytes { line.new.bytes ≡ line.old.bytes ++ text_of_floor floor }
    ensures len { length line.new.bytes ≤ length line.old.bytes + NUMBER }
{
    if let Some(lowest) = floor {
        push_number(line, lowest);
    }
}

// The line of a branch.
fn line_of(row: &StoredBranch, floor: Option<i64>) -> Line
    ensures { result.bytes ≡ line_with (branch_entry row.now) (text_of_floor floor) }
{
    let mut line = ArrayString::new();
    push_number(&mut line, row.branch.get() as i64);
    line.push_str(",");
    push_number(&mut line, row.accounts.get() as i64);
    line.push_str(",");
    push_floor(&mut line, floor);
    line.push_str("\n");
    line
}

// The floor of a branch.
fn floor_of(floors: &[StoredFloor], branch: u64) -> Option<i64>
    ensures { result ≡ option_map lowest_of (row_at branch_of floors.now branch) }
{
    floors
        .iter()
        .find(|floor| floor.branch.get() == branch)
        .map(|floor| floor.lowest)
}

// Rows are listed.
struct Listing;

impl Visitor<StoredFloor, Vec<StoredFloor>> for Listing {
    ghost use Rattle.std.proofs.Common.{append-nil, sym};
    ghost use Rattle.bank_replays.specs.Holding.{bars_held, floors_held};
    ghost use Rattle.bank_replays.specs.Prefixes.{asks_none};
    ghost use Rattle.bank_replays.specs.Visiting.{AsksMemory};

    ghost Visited = { λ visitor first last rows. last.items ≡ first.items ++ rows };

    ghost Part = { λ visitor first last rows next fault. AsksMemory rows next fault };

    ghost none_yet = { λ visitor floors. sym (append-nil floors.items) };

    ghost in_part = { λ visitor first last rows fault many visited. asks_none rows fault many };

    ghost held = { λ visitor. bars_held floors_held floor_entry };

    fn visit(&self, row: StoredFloor, floors: &mut Vec<StoredFloor>) -> Result<(), ReplayFault> {
        match floors.push(row) {
            Ok(()) => Ok(()),
            Err(_) => Err(ReplayFault::Bank(Fault::Memory)),
        }
    }
}

/// Writes branches as lines, each with its floor from this list.
#[derive(Drop)]
pub(crate) struct Lines {
    floors: Vec<StoredFloor>,
}

/// The line of a branch, with its floor.
pub(crate) fn plan_line(lines: &Lines, row: &StoredBranch) -> Line
    ensures { result.bytes ≡ plan_line (map floor_entry lines.now.floors.items) (branch_entry row.now) }
{
    let floor = floor_of(lines.floors.as_slice(), row.branch.get());
    line_of(row, floor)
}

impl<W: Sink> Visitor<StoredBranch, W> for Lines {
    ghost use Rattle.bank_replays.specs.Visiting.{AreTooMany, refused_of};
    ghost use Rattle.bank_replays.specs.Holding.{bars_held, branches_held};
    ghost use Rattle.bank_replays.specs.Prefixes.{all_part, memory_is, wrote_none};

    ghost Visited = { λ visitor first last rows.
        Wrote (plan_lines (map floor_entry visitor.floors.items) (map branch_entry rows))
        (W.contents first) (W.contents last) (W.calls first) (W.calls last) };

    ghost Part = { λ visitor first last rows next fault.
        WrotePart (plan_lines (map floor_entry visitor.floors.items) (map branch_entry rows)
        ++ plan_lines (map floor_entry visitor.floors.items) (refused_of branch_entry next))
        (W.contents first) (W.contents last) (W.calls first) (W.calls last) fault
        × (fault ≡ OfBank Memory → AreTooMany rows) };

    ghost none_yet = { λ visitor writer. wrote_none (W.contents writer) (W.calls writer) };

    ghost in_part = { λ visitor first last rows fault many visited.
        (all_part (W.contents first) (W.contents last) _ _ visited fault, λ is. many (memory_is fault is)) };

    ghost held = { λ visitor. bars_held branches_held branch_entry };

    fn visit(&self, row: StoredBranch, writer: &mut W) -> Result<(), ReplayFault> {
        put(writer, plan_line(self, &row).as_str())?;
        Ok(())
    }
}

/// The floors of branches.
pub(crate) fn floors_of<S: Alter>(bank: &mut Bank<S>) -> Result<Lines, Fault>
    ensures bank { ReadsBank S.Store bank.old bank.new result }
    ensures rows { HasCleanDisk (file_of bank.new) → (floors : List Entry)
        → HasStoredRows (database_of S.Store bank.old) floor_table floors
        → IfOk result (λ lines. map floor_entry lines.floors.items ≡ floors) }
    ensures frugal { HasCleanDisk (file_of bank.new) → (floors : List Entry)
        → HasStoredRows (database_of S.Store bank.old) floor_table floors → result ≡ Err Memory → floors ≢ [] }
    ensures why { TellsWhy S.Store (λ fault. fault) bank.old bank.new result }
{
    let mut floors = Vec::new(bank.alloc());
    match visit_all::<S, StoredFloor, Vec<StoredFloor>, Listing>(bank, &Listing, &mut floors) {
        Ok(()) => Ok(Lines { floors }),
        Err(fault) => Err(bank_fault(fault)),
    }
}

// Writes the lines of all branches.
fn write_branches<S: Alter, W: Sink>(bank: &mut Bank<S>, writer: &mut W) -> Result<(), ReplayFault>
    ensures bank { ReadsBank S.Store bank.old bank.new result }
    ensures rows { HasCleanDisk (file_of bank.new) → (floors branches : List Entry)
        → HasStoredRows (database_of S.Store bank.old) floor_table floors
        → HasStoredRows (database_of S.Store bank.old) branch_table branches
        → WritesPlan floors branches (W.contents writer.old) (W.contents writer.new) result }
    ensures writer { LeavesWriter (W.calls writer.old) (W.calls writer.new) result }
    ensures why { TellsWhy S.Store fault_in bank.old bank.new result }
{
    let lines = floors_of(bank)?;
    put(writer, NAMES)?;
    visit_all::<S, StoredBranch, W, Lines>(bank, &lines, writer)?;
    put_last(writer, "")?;
    Ok(())
}

/// Writes the open branches, by their numbers, as the plan that `read_plan` of `branch_loader` reads, and
/// flushes the writer: CSV with the header `branch,accounts,floor`. The third field is empty where a branch has
/// no floor.
///
/// # Errors
///
/// At each a prefix of the text was written. None brings the bank down, and none changes the file.
///
/// | Error | What happened |
/// |---|---|
/// | [`ReplayFault::Write`] | the writer failed, at the flush too, or took no byte |
/// | [`ReplayFault::Bank`] of `Memory` | memory for the floors was refused |
/// | of `Store` | a read failed: the disk did, or memory or steps were refused |
/// | of `Down` | the bank was down, and nothing was written |
/// | of `Damaged` | a row can't be read: a number of it is out of its column's range |
pub fn write_plan<S: Alter, W: Sink>(bank: &mut Bank<S>, writer: &mut W) -> Result<(), ReplayFault>
    ensures rows { (bank_seen S.Store bank.new).honest → (floors branches : List Entry)
        → HasStoredRows (database_of S.Store bank.old) floor_table floors
        → HasStoredRows (database_of S.Store bank.old) branch_table branches
        → WritesPlan floors branches (W.contents writer.old) (W.contents writer.new) result }
    ensures sound { (bank_seen S.Store bank.new).honest → (log : List Command)
        → ShowsLog (bank_seen S.Store bank.old) log → (rule : Rule) → result ≢ Err (OfBank (Damaged rule)) }
    ensures writer { LeavesWriter (W.calls writer.old) (W.calls writer.new) result }
    ensures why { TellsWhy S.Store fault_in bank.old bank.new result }
    ensures reads { IsOnlyRead S.Store bank.old bank.new result }
    ensures down { (bank_seen S.Store bank.old).is_down
        → (result ≡ Err (OfBank Down)) × (bank.new ≡ bank.old) × (writer.new ≡ writer.old) }
{
    if bank.is_down() {
        return Err(ReplayFault::Bank(Fault::Down));
    }
    write_branches(bank, writer)
}
