//! The balances that a posting changes are written. A row that is written was looked up, so it is there, or
//! its rule is broken.
ghost use Rattle.std.specs.Prelude.{◌≡◌, ◌≤◌, ⊤, OnOk};
ghost use Rattle.posting_rules.specs.believed.Changes.{with_decided};
ghost use Rattle.store_rows.specs.believed.Failures.{IsUpdateOf};
ghost use Rattle.store_rows.specs.Holders.{HasRow, holder_table, holder_update, with_balance};
ghost use Rattle.store_rows.specs.Lying.{AfterWrite, CountLies, Counts, LeavesOthers, SetsBalance, holder_key};
ghost use Rattle.store_rows.specs.believed.BankTables.{meta};
ghost use Rattle.store_rows.specs.believed.Inserts.{meta_key, meta_update};
ghost use Rattle.bank_transactions.specs.believed.Additions.{WritesUnder};
ghost use Rattle.bank_transactions.specs.Doing.{expected};
ghost use Rattle.bank_transactions.specs.Running.{Writes};

use message_records::Cents;
use posting_rules::{MAX_DECIDED, Rule};
use sqlite::{Alter, Error, Transaction};
use store_rows::{Holder, TableFault, set_balance, set_decided};

// What the answer of a write comes to.
fn expect_row(answer: Result<bool, Error>, rule: Rule) -> Result<(), TableFault>
    ensures { result ≡ expected answer rule }
{
    match answer {
        Ok(true) => Ok(()),
        Ok(false) => Err(TableFault::Damaged(rule)),
        Err(e) => Err(TableFault::Sqlite(e)),
    }
}

// The rule that wants a holder's row: a branch has one where its tellers do.
fn rule_of(holder: &Holder) -> Rule
    ensures { IsUpdateOf result (holder_update holder.now) }
{
    match holder {
        Holder::Account(_) => Rule::Account,
        Holder::Teller(_) | Holder::Branch(_) => Rule::Teller,
    }
}

/// Writes a balance.
pub fn write_balance<S: Alter>(
    tx: &mut Transaction<'_, S>,
    holder: Holder,
    balance: Cents,
) -> Result<(), TableFault>
    ensures writes { Writes S.Store (WritesUnder (holder_update holder) (holder_key holder)) tx.old tx.new
        (HasRow holder) (with_balance holder balance) result }
    // Whatever rows the file holds.
    ensures lies { OnOk result (AfterWrite S.Store tx.old tx.new (λ was now.
        LeavesOthers (holder_table holder) (holder_key holder) was now × SetsBalance holder balance was now)) }
{
    let rule = rule_of(&holder);
    expect_row(set_balance(tx, holder, balance), rule)
}

/// Writes how many requests are decided.
pub fn write_decided<S: Alter>(tx: &mut Transaction<'_, S>, decided: u64) -> Result<(), TableFault>
    requires { decided ≤ MAX_DECIDED }
    ensures writes { Writes S.Store (WritesUnder meta_update meta_key) tx.old tx.new (λ _. ⊤) (with_decided decided)
        result }
    // Whatever rows the file holds.
    ensures counts { OnOk result (Counts S.Store tx.old tx.new decided) }
    ensures lies { OnOk result (AfterWrite S.Store tx.old tx.new (λ was now.
        LeavesOthers meta meta_key was now × CountLies now decided)) }
{
    expect_row(set_decided(tx, decided), Rule::Meta)
}
