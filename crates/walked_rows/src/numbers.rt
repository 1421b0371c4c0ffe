//! The numbers of a row, and those of them that have a range.
ghost use Rattle.std.specs.Prelude.{◌≡◌, pos, IfOk};
ghost use Rattle.sqlite.specs.Order.{column};
ghost use Rattle.sqlite.specs.declared.types.Value.TheVariants.{Int};
ghost use Rattle.posting_rules.specs.declared.fault.Rule.TheVariants.{Value};
ghost use Rattle.store_rows.specs.TableAnswers.{Gives};
ghost use Rattle.store_rows.specs.believed.Readings.{number, whole};

use message_records::Whole;
use posting_rules::Rule;
use sqlite::Row;
use sqlite::types::ValueRef;
use store_rows::TableFault;

// The number in a column. A value of another type is damage.
pub(crate) fn number_at(row: &Row, at: usize) -> Result<i64, TableFault>
    ensures reads { Gives (number (column row.now at)) result }
    ensures is { IfOk result (λ z. column row.now at ≡ Int z) }
{
    match row.get_ref(at) {
        Ok(ValueRef::Int(value)) => Ok(value),
        _ => Err(TableFault::Damaged(Rule::Value)),
    }
}

// The whole number in a column. One outside the range is damage.
pub(crate) fn whole_at<const LEAST: u64, const MOST: u64>(
    row: &Row,
    at: usize,
) -> Result<Whole<LEAST, MOST>, TableFault>
    ensures reads { Gives (whole LEAST MOST Value (column row.now at)) result }
    ensures is { IfOk result (λ n. column row.now at ≡ Int (pos n)) }
{
    let value = number_at(row, at)?;
    if value < 0 {
        return Err(TableFault::Damaged(Rule::Value));
    }
    Whole::new(value as u64).ok_or(TableFault::Damaged(Rule::Value))
}
