//! The text of an audit.
ghost use Rattle.std.specs.Prelude.{◌≡◌, ◌≤◌, ◌+◌, ◌++◌, length, pos};
ghost use Rattle.report_contents.specs.AuditText.{branch_line, number_line, number_lines};
ghost use Rattle.report_contents.specs.Lines.{left_in, text_of};

use crate::audit::{Audit, BranchLine};
use crate::lines::{NUMBER, push_number, push_repeated};
use arrayvec::ArrayString;

// How wide the column of the labels is, and that of the numbers.
const LABELS: usize = 12;

const NUMBERS: usize = 20;

// The most that a line of a number takes, and ten of them.
const NUMBER_LINE: usize = LABELS + NUMBERS + NUMBER + 1;

const NUMBER_LINES: usize = 10 * NUMBER_LINE;

// The most that the line of a branch takes.
const BRANCH_LINE: usize = 26 + 3 * NUMBER;

// Appends the line of a number.
#[tactic(auto, unfolding(crate::specs::AuditText::number_line))]
fn push_line(lines: &mut ArrayString<NUMBER_LINES>, label: &str, number: i128)
    requires label { length label.now ≤ LABELS }
    requires room { length lines.old.bytes + NUMBER_LINE ≤ NUMBER_LINES }
    ensures bytes { lines.new.bytes ≡ lines.old.bytes ++ number_line label.now number }
    ensures len { length lines.new.bytes ≤ length lines.old.bytes + NUMBER_LINE }
{
    lines.push_str(label);
    push_repeated(lines, ' ', LABELS - label.len());
    push_number(lines, NUMBERS, number);
    lines.push_str("\n");
}

// Appends the line of a count.
fn push_count(lines: &mut ArrayString<NUMBER_LINES>, label: &str, count: u64)
    requires label { length label.now ≤ LABELS }
    requires room { length lines.old.bytes + NUMBER_LINE ≤ NUMBER_LINES }
    ensures bytes { lines.new.bytes ≡ lines.old.bytes ++ number_line label.now (pos count) }
    ensures len { length lines.new.bytes ≤ length lines.old.bytes + NUMBER_LINE }
{
    push_line(lines, label, i128::from(count));
}

/// The lines of the ten numbers.
pub(crate) fn numbers_text(audit: &Audit) -> ArrayString<NUMBER_LINES>
    ensures { result.bytes ≡ text_of (number_lines audit.now) }
{
    let mut lines = ArrayString::new();
    push_count(&mut lines, "branches", audit.branches);
    push_count(&mut lines, "tellers", audit.tellers);
    push_count(&mut lines, "accounts", audit.accounts);
    push_count(&mut lines, "requests", audit.requests);
    push_count(&mut lines, "history", audit.history);
    push_line(&mut lines, "account sum", audit.account_sum);
    push_line(&mut lines, "teller sum", audit.teller_sum);
    push_line(&mut lines, "branch sum", audit.branch_sum);
    push_line(&mut lines, "history sum", audit.history_sum);
    push_count(&mut lines, "unmatched", audit.unmatched);
    lines
}

/// The line of a branch that isn't the sum of its tellers.
#[tactic(auto, unfolding(crate::specs::AuditText::branch_line))]
pub(crate) fn branch_text(branch: &BranchLine) -> ArrayString<BRANCH_LINE>
    ensures { result.bytes ≡ branch_line branch.now }
{
    let mut line = ArrayString::new();
    line.push_str("branch ");
    push_number(&mut line, 0, i128::from(branch.branch));
    line.push_str(" tellers ");
    push_number(&mut line, 0, branch.tellers);
    line.push_str(" balance ");
    push_number(&mut line, 0, i128::from(branch.balance));
    line.push_str("\n");
    line
}
