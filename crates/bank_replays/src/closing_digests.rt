//! The digest of the numbers that were closed, and of the seal.
ghost use Rattle.std.specs.Prelude.{◌≡◌, ◌++◌, ℕ, List, IfOk, map};
ghost use Rattle.sqlite.specs.State.{HasCleanDisk};
ghost use Rattle.sha2.specs.Hashers.{Holds256};
ghost use Rattle.walked_rows.specs.StoredBeside.{closing_entry};
ghost use Rattle.bank_store.specs.believed.Seen.{database_of, file_of};
ghost use Rattle.bank_replays.specs.ClosingDigests.{IsClosingDigestIn, closing_line, closing_lines};
ghost use Rattle.bank_replays.specs.Damaged.{TellsWhy};
ghost use Rattle.bank_replays.specs.Reading.{ReadsBank};

use crate::fault::{ReplayFault, bank_fault};
use crate::lines::{Line, push_number};
use crate::visitors::{Visitor, visit_all};
use arrayvec::ArrayString;
use bank_store::Bank;
use posting_rules::Fault;
use sha2::{Digest, Sha256};
use sqlite::Alter;
use walked_rows::StoredClosing;

// The line of a row.
fn closing_line(row: &StoredClosing) -> Line
    ensures { result.bytes ≡ closing_line (closing_entry row.now) }
{
    let mut line = ArrayString::new();
    push_number(&mut line, row.last.get() as i64);
    line.push_str(",");
    push_number(&mut line, row.first);
    line.push_str("\n");
    line
}

// Rows are hashed as their lines.
struct ClosingLines;

impl Visitor<StoredClosing, Sha256> for ClosingLines {
    ghost use Rattle.bank_replays.specs.Holding.{bars_held, closings_held};
    ghost use Rattle.bank_replays.specs.Prefixes.{hashed_none};

    ghost Visited = { λ visitor first last rows. (message : List ℕ) → Holds256 first message
        → Holds256 last (message ++ closing_lines (map closing_entry rows)) };

    ghost none_yet = { λ visitor hasher. hashed_none hasher };

    ghost in_part = { λ visitor first last rows fault many visited. tt };

    ghost held = { λ visitor. bars_held closings_held closing_entry };

    fn visit(&self, row: StoredClosing, hasher: &mut Sha256) -> Result<(), ReplayFault> {
        let line = closing_line(&row);
        hasher.update(line.as_str());
        Ok(())
    }
}

/// SHA-256 of the rows of `closing`, each a line of its last key and its first. A fault leaves the bank as it was.
pub(crate) fn digest_closings<S: Alter>(bank: &mut Bank<S>) -> Result<[u8; 32], Fault>
    ensures bank { ReadsBank S.Store bank.old bank.new result }
    ensures rows { HasCleanDisk (file_of bank.new)
        → IfOk result (IsClosingDigestIn (database_of S.Store bank.old)) }
    ensures why { TellsWhy S.Store (λ fault. fault) bank.old bank.new result }
{
    let mut hasher = Sha256::new();
    match visit_all::<S, StoredClosing, Sha256, ClosingLines>(bank, &ClosingLines, &mut hasher) {
        Ok(()) => Ok(hasher.finalize()),
        Err(fault) => Err(bank_fault(fault)),
    }
}
