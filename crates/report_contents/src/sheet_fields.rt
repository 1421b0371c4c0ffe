//! Amounts as fields of CSV.
ghost use Rattle.std.specs.Prelude.{◌≡◌, ◌≤◌, ◌+◌, ◌++◌, length};
ghost use Rattle.posting_sheets.specs.declared.money.Money.TheVariants.{Decimals};
ghost use Rattle.posting_sheets.specs.Replies.{money_text, sign_text};
ghost use Rattle.report_contents.specs.declared.statement_text.TheConstants.{STATEMENT_LINE};

use crate::statement_text::StatementLine;
use itoa::Buffer;

/// The most that an amount takes.
pub(crate) const AMOUNT: usize = 62;

// A minus before an amount below zero.
fn sign_of(cents: i64) -> &'static str
    ensures value { result.now ≡ sign_text cents }
    ensures len { length result.now ≤ 1 }
{
    if cents < 0 { "-" } else { "" }
}

/// Appends an amount in decimals, with two digits of cents.
pub(crate) fn push_amount(line: &mut StatementLine, cents: i64)
    requires { length line.old.bytes + AMOUNT ≤ STATEMENT_LINE }
    ensures bytes { line.new.bytes ≡ line.old.bytes ++ money_text Decimals cents }
    ensures len { length line.new.bytes ≤ length line.old.bytes + AMOUNT }
{
    let mut digits = Buffer::new();
    let size = cents.unsigned_abs();
    line.push_str(sign_of(cents));
    line.push_str(digits.format(size / 100));
    line.push_str(".");
    line.push_str(digits.format(size / 10 % 10));
    line.push_str(digits.format(size % 10));
}
