//! Stored numbers and texts as the types that they are read as.
ghost use Rattle.std.specs.Prelude.{◌≤◌};
ghost use Rattle.message_records.specs.declared.limits.TheConstants.{MAX_BALANCE};
ghost use Rattle.posting_rules.specs.declared.fault.Rule.TheVariants.{Closing, Value};
ghost use Rattle.posting_rules.specs.declared.limits.TheConstants.{LAST_KEY as MOST_KEY, MAX_ACCOUNTS as MANY};
ghost use Rattle.sqlite.specs.Order.{column};
ghost use Rattle.store_rows.specs.TableAnswers.{Gives};
ghost use Rattle.store_rows.specs.believed.Readings.{cents, lowest, number, outcome_of, reference, whole};

use crate::fault::TableFault;
use message_records::{Cents, MAX_BALANCE as LIMIT, Outcome, Reference, Whole};
use posting_rules::{LAST_KEY, MAX_ACCOUNTS, Rule};
use sqlite::Row;
use sqlite::types::ValueRef;

// The integer in a column. A value of another type is damage, and no failure of the store.
pub(crate) fn integer_at(row: &Row, at: usize) -> Result<i64, TableFault>
    ensures { Gives (number (column row.now at)) result }
{
    match row.get_ref(at) {
        Ok(ValueRef::Int(value)) => Ok(value),
        _ => Err(TableFault::Damaged(Rule::Value)),
    }
}

// The whole number in a column, up to so many, or the rule that it breaks outside the range.
pub(crate) fn whole_at<const LEAST: u64, const MOST: u64>(
    row: &Row,
    at: usize,
    rule: Rule,
    most: u64,
) -> Result<Whole<LEAST, MOST>, TableFault>
    requires { most ≤ MOST }
    ensures { Gives (whole LEAST most rule (column row.now at)) result }
{
    let value = integer_at(row, at)?;
    if value < 0 || value as u64 > most {
        return Err(TableFault::Damaged(rule));
    }
    Whole::new(value as u64).ok_or(TableFault::Damaged(rule))
}

// The count of accounts in a column.
pub(crate) fn accounts_at(row: &Row, at: usize) -> Result<u32, TableFault>
    ensures { Gives (whole 1 MANY Value (column row.now at)) result }
{
    let value = integer_at(row, at)?;
    if value < 1 || value > i64::from(MAX_ACCOUNTS) {
        return Err(TableFault::Damaged(Rule::Value));
    }
    Ok(value as u32)
}

// The key of a number in a column, or the 0 of the seal.
pub(crate) fn key_at(row: &Row, at: usize) -> Result<u64, TableFault>
    ensures { Gives (whole 0 MOST_KEY Closing (column row.now at)) result }
{
    let value = integer_at(row, at)?;
    if value < 0 || value as u64 > LAST_KEY {
        return Err(TableFault::Damaged(Rule::Closing));
    }
    Ok(value as u64)
}

// The amount in a column, at most so far from zero, or the rule that it breaks beyond that.
pub(crate) fn cents_at(row: &Row, at: usize, rule: Rule, limit: u64) -> Result<Cents, TableFault>
    requires { limit ≤ MAX_BALANCE }
    ensures { Gives (cents limit rule (column row.now at)) result }
{
    let value = integer_at(row, at)?;
    if value.unsigned_abs() > limit {
        return Err(TableFault::Damaged(rule));
    }
    Cents::new(value).ok_or(TableFault::Damaged(rule))
}

// The floor in a column.
pub(crate) fn lowest_at(row: &Row, at: usize) -> Result<Cents, TableFault>
    ensures { Gives (lowest (column row.now at)) result }
{
    let lowest = cents_at(row, at, Rule::Floor, LIMIT)?;
    if lowest.get() > 0 {
        return Err(TableFault::Damaged(Rule::Floor));
    }
    Ok(lowest)
}

// The outcome whose code is in a column.
pub(crate) fn outcome_at(row: &Row, at: usize) -> Result<Outcome, TableFault>
    ensures { Gives (outcome_of (column row.now at)) result }
{
    let value = integer_at(row, at)?;
    if value < 0 {
        return Err(TableFault::Damaged(Rule::Request));
    }
    Outcome::with_code(value as u64).ok_or(TableFault::Damaged(Rule::Request))
}

// The reference in a column. A value of another type is damage of another rule.
pub(crate) fn reference_at(row: &Row, at: usize) -> Result<Reference, TableFault>
    ensures { Gives (reference (column row.now at)) result }
{
    match row.get_ref(at) {
        Ok(ValueRef::Text(bytes)) => Reference::new(bytes).ok_or(TableFault::Damaged(
            Rule::Reference,
        )),
        _ => Err(TableFault::Damaged(Rule::Value)),
    }
}
