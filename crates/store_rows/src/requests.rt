//! The table of decided requests.
ghost use Rattle.std.specs.Prelude.{◌≡◌, ◌≤◌, [], ◌∷◌, pos, find, is_some, IfOk, IsTrue, OnOk};
ghost use Rattle.sqlite.specs.Held.{state};
ghost use Rattle.sqlite.specs.State.{HasCleanDisk};
ghost use Rattle.sqlite.specs.Values.{bound};
ghost use Rattle.sql_meanings.specs.believed.Entries.{has_two};
ghost use Rattle.posting_rules.specs.believed.Tables.{row_at, request_key};
ghost use Rattle.posting_rules.specs.believed.Changes.{with_request};
ghost use Rattle.store_rows.specs.Calls.{AddsRow, LooksUp};
ghost use Rattle.store_rows.specs.Lying.{PutsLying};
ghost use Rattle.store_rows.specs.TableAnswers.{Gives};
ghost use Rattle.store_rows.specs.believed.BankTables.{request as table};
ghost use Rattle.store_rows.specs.believed.SeveralRows.{given};
ghost use Rattle.store_rows.specs.SeveralRows.{AddsRows, PutsNew};
ghost use Rattle.store_rows.specs.believed.View.{request_entry};
ghost use Rattle.store_rows.specs.declared.statements.TheConstants.{MAX_KEY};
ghost use Rattle.store_rows.specs.declared.texts.TheConstants.{ADD_EIGHT_REQUESTS as eight};
ghost use Rattle.store_rows.specs.declared.texts.TheConstants.{ADD_REQUEST as one};
ghost use Rattle.store_rows.specs.believed.Readings.{decision_of, read_request};

use crate::columns::{cents_at, outcome_at, whole_at};
use crate::fault::TableFault;
use crate::found::{FromRow, found};
use crate::statements::{put_in, row_under_two};
use crate::texts::{ADD_EIGHT_REQUESTS, ADD_REQUEST, GET_REQUEST};
use message_records::{
    MAX_ACCOUNT, MAX_BALANCE, MAX_BRANCH, MAX_DELTA, MAX_NUMBER, MAX_TELLER, Number, Teller,
};
use posting_rules::{Decision, MAX_DECIDED, RequestRow, Rule};
use sqlite::types::ValueRef;
use sqlite::{Alter, Row, Transaction};

// What a row says was decided of a request.
fn decision_from(row: &Row) -> Result<Decision, TableFault>
    ensures { Gives (decision_of row.now) result }
{
    let account = whole_at(row, 3, Rule::Request, MAX_ACCOUNT)?;
    let branch = whole_at(row, 4, Rule::Request, MAX_BRANCH)?;
    let delta = cents_at(row, 5, Rule::Request, MAX_DELTA)?;
    let outcome = outcome_at(row, 6)?;
    let balance = cents_at(row, 7, Rule::Request, MAX_BALANCE)?;
    Decision::new(account, branch, delta, outcome, balance).ok_or(TableFault::Damaged(
        Rule::Request,
    ))
}

impl FromRow for RequestRow {
    ghost use Rattle.store_rows.specs.believed.Readings.{request_of};

    ghost read = { request_of };

    fn from_row(row: &Row) -> Result<Self, TableFault> {
        Ok(RequestRow {
            ordinal: whole_at(row, 0, Rule::Value, MAX_DECIDED)?,
            teller: whole_at(row, 1, Rule::Request, MAX_TELLER)?,
            number: whole_at(row, 2, Rule::Request, MAX_NUMBER)?,
            decision: decision_from(row)?,
        })
    }
}

/// The request of a teller under its number, if there is such a row.
pub fn find_request<S: Alter>(
    tx: &mut Transaction<'_, S>,
    teller: Teller,
    number: Number,
) -> Result<Option<RequestRow>, TableFault>
    ensures says { LooksUp S.Store tx.old tx.new (λ rows. find (has_two (pos teller) (pos number)) rows.requests)
        read_request result }
{
    found(row_under_two(tx, GET_REQUEST, teller.get(), number.get()))
}

// The values of a decided request's row.
fn values_of<'a>(row: &RequestRow) -> [ValueRef<'a>; 8]
    ensures values { bound result ≡ given (request_entry row.now) }
    ensures low { row.now.ordinal ≤ MAX_KEY }
{
    let key = row.ordinal.get() as i64;
    let teller = row.teller.get() as i64;
    let number = row.number.get() as i64;
    let account = row.decision.account().get() as i64;
    let branch = row.decision.branch().get() as i64;
    let delta = row.decision.delta().get();
    let outcome = i64::from(row.decision.outcome().code());
    let balance = row.decision.balance().get();
    [
        ValueRef::Int(key),
        ValueRef::Int(teller),
        ValueRef::Int(number),
        ValueRef::Int(account),
        ValueRef::Int(branch),
        ValueRef::Int(delta),
        ValueRef::Int(outcome),
        ValueRef::Int(balance),
    ]
}

/// Adds a decided request. `Damaged(Rule::Key)` is an ordinal that is taken. It is refused where its teller has
/// used its number before.
pub fn add_request<S: Alter>(tx: &mut Transaction<'_, S>, row: RequestRow) -> Result<(), TableFault>
    ensures adds { AddsRow S.Store tx.old tx.new one.now (given (request_entry row)) table
        (λ tables. is_some (row_at request_key tables.requests row.ordinal)) (with_request row) result }
    // Whatever rows the file holds.
    ensures unknown { OnOk result (HasCleanDisk (state S.Store tx.new.conn.now)
        → IsTrue (state S.Store tx.old.conn.now).in_transaction
        → PutsNew (state S.Store tx.old.conn.now).now (state S.Store tx.new.conn.now).now (row ∷ [])) }
    ensures lies { PutsLying S.Store tx.old tx.new table result }
{
    put_in(tx, ADD_REQUEST, &values_of(&row))
}

/// Adds eight decided requests, one after another. `Damaged(Rule::Key)` is an ordinal of theirs that is taken by
/// then.
pub fn add_eight_requests<S: Alter>(
    tx: &mut Transaction<'_, S>,
    rows: &[RequestRow; 8],
) -> Result<(), TableFault>
    ensures adds { AddsRows S.Store tx.old tx.new eight.now request_entry table
        (λ row tables. is_some (row_at request_key tables.requests row.ordinal)) with_request rows.now result }
    // Whatever rows the file holds.
    ensures unknown { OnOk result (HasCleanDisk (state S.Store tx.new.conn.now)
        → IsTrue (state S.Store tx.old.conn.now).in_transaction
        → PutsNew (state S.Store tx.old.conn.now).now (state S.Store tx.new.conn.now).now rows.now) }
    ensures lies { PutsLying S.Store tx.old tx.new table result }
{
    let [a, b, c, d, e, f, g, h] = rows;
    let values = [
        values_of(a),
        values_of(b),
        values_of(c),
        values_of(d),
        values_of(e),
        values_of(f),
        values_of(g),
        values_of(h),
    ];
    put_in(tx, ADD_EIGHT_REQUESTS, values.as_flattened())
}
