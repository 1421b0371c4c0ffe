//! The closed numbers, read one row after another by rising keys.
ghost use Rattle.std.specs.Prelude.{◌≡◌, ◌++◌, [], ◌∷◌, List, OnOk, ⊤};
ghost use Rattle.posting_rules.specs.declared.rows.ClosingRow.{ClosingRow as Run};
ghost use Rattle.bank_transactions.specs.Doing.{ReadsWhere};
ghost use Rattle.bank_transactions.specs.Gathering.{Gathers, ReadsAs, ReadsUpTo};

use posting_rules::{ClosingRow, LAST_KEY};
use sqlite::{Alter, Transaction};
use store_rows::{TableFault, find_seal, next_closing};

/// What is made of closed numbers, one row after another.
pub(crate) trait Gather {
    /// What stays as it is.
    ghost Core: { Type 0 };

    ghost core: { Self → Core };

    /// It tells of these.
    ghost Told: { List Run → Self → Type 0 };

    /// It tells of one row more.
    fn add(&mut self, row: &ClosingRow)
        ensures told { (runs : List Run) → Told runs self.old → Told (runs ++ row.now ∷ []) self.new }
        ensures core { core self.new ≡ core self.old };
}

// Gathers the row that seals the books, if there is one.
fn gather_seal<S: Alter, G: Gather>(
    tx: &mut Transaction<'_, S>,
    gathered: &mut G,
) -> Result<(), TableFault>
    requires { G.Told [] gathered.old }
    ensures says { ReadsWhere S.Store tx.old tx.new (λ _. ⊤) (λ _. tt {0}) result }
    ensures core { G.core gathered.new ≡ G.core gathered.old }
    ensures told { OnOk result (Gathers S.Store tx.old tx.new (ReadsUpTo 0) (λ runs. G.Told runs gathered.new)) }
{
    if let Some(row) = find_seal(tx)? {
        gathered.add(&row);
    }
    Ok(())
}

/// Gathers all closed numbers.
pub(crate) fn gather_closings<S: Alter, G: Gather>(
    tx: &mut Transaction<'_, S>,
    gathered: &mut G,
) -> Result<(), TableFault>
    requires { G.Told [] gathered.old }
    ensures says { ReadsWhere S.Store tx.old tx.new (λ _. ⊤) (λ _. tt {0}) result }
    ensures core { G.core gathered.new ≡ G.core gathered.old }
    ensures told { OnOk result (Gathers S.Store tx.old tx.new ReadsAs (λ runs. G.Told runs gathered.new)) }
{
    gather_seal(tx, gathered)?;
    let mut after = 0;
    // On an honest disk each key is above the one before it, so that there are no more.
    for _step in 0..LAST_KEY + 1 {
        let Some(row) = next_closing(tx, after)? else {
            return Ok(());
        };
        gathered.add(&row);
        after = row.last;
    }
    Ok(())
}
