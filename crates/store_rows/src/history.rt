//! The table of postings.
ghost use Rattle.std.specs.Prelude.{◌≡◌, ◌≤◌, is_some};
ghost use Rattle.sqlite.specs.Values.{bound};
ghost use Rattle.posting_rules.specs.believed.Tables.{row_at, history_key};
ghost use Rattle.posting_rules.specs.believed.Changes.{with_history};
ghost use Rattle.store_rows.specs.Calls.{AddsRow};
ghost use Rattle.store_rows.specs.Lying.{PutsLying};
ghost use Rattle.store_rows.specs.believed.BankTables.{history as table};
ghost use Rattle.store_rows.specs.believed.SeveralRows.{given};
ghost use Rattle.store_rows.specs.SeveralRows.{AddsRows};
ghost use Rattle.store_rows.specs.believed.View.{history_entry};
ghost use Rattle.store_rows.specs.declared.statements.TheConstants.{MAX_KEY};
ghost use Rattle.store_rows.specs.declared.texts.TheConstants.{ADD_EIGHT_POSTINGS as eight};
ghost use Rattle.store_rows.specs.declared.texts.TheConstants.{ADD_HISTORY as one};

use crate::fault::TableFault;
use crate::statements::put_in;
use crate::texts::{ADD_EIGHT_POSTINGS, ADD_HISTORY};
use posting_rules::HistoryRow;
use sqlite::types::ValueRef;
use sqlite::{Alter, Transaction};

// The values of a posting's row.
fn values_of<'a>(row: &HistoryRow) -> [ValueRef<'a>; 6]
    ensures values { bound result ≡ given (history_entry row.now) }
    ensures low { row.now.ordinal ≤ MAX_KEY }
{
    let key = row.ordinal.get() as i64;
    let account = row.account.get() as i64;
    let teller = row.teller.get() as i64;
    let branch = row.branch.get() as i64;
    let delta = row.delta.get();
    let moment = row.moment.get() as i64;
    [
        ValueRef::Int(key),
        ValueRef::Int(account),
        ValueRef::Int(teller),
        ValueRef::Int(branch),
        ValueRef::Int(delta),
        ValueRef::Int(moment),
    ]
}

/// Adds a posting. `Damaged(Rule::Key)` is an ordinal that is taken.
pub fn add_history<S: Alter>(tx: &mut Transaction<'_, S>, row: HistoryRow) -> Result<(), TableFault>
    ensures adds { AddsRow S.Store tx.old tx.new one.now (given (history_entry row)) table
        (λ tables. is_some (row_at history_key tables.history row.ordinal)) (with_history row) result }
    // Whatever rows the file holds.
    ensures lies { PutsLying S.Store tx.old tx.new table result }
{
    put_in(tx, ADD_HISTORY, &values_of(&row))
}

/// Adds eight postings, one after another. `Damaged(Rule::Key)` is an ordinal of theirs that is taken by then.
pub fn add_eight_postings<S: Alter>(
    tx: &mut Transaction<'_, S>,
    rows: &[HistoryRow; 8],
) -> Result<(), TableFault>
    ensures adds { AddsRows S.Store tx.old tx.new eight.now history_entry table
        (λ row tables. is_some (row_at history_key tables.history row.ordinal)) with_history rows.now result }
    // Whatever rows the file holds.
    ensures lies { PutsLying S.Store tx.old tx.new table result }
{
    let [a, b, c, d, e, f, g, h] = rows;
    let values = [
        values_of(a),
        values_of(b),
        values_of(c),
        values_of(d),
        values_of(e),
        values_of(f),
        values_of(g),
        values_of(h),
    ];
    put_in(tx, ADD_EIGHT_POSTINGS, values.as_flattened())
}
