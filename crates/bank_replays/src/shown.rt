//! The text of a difference.
ghost use Rattle.std.specs.Prelude.{◌≡◌, ◌≤◌, ◌+◌, ◌++◌, ℕ, List, codes, find, pos, length, refl};
ghost use Rattle.std.specs.Fmt.{decimal};
ghost use Rattle.bank_replays.specs.DifferenceText.{both_accounts, both_branches, both_closings, both_floors, both_metas};
ghost use Rattle.bank_replays.specs.DifferenceText.{both_postings, both_references, both_requests, both_tellers};
ghost use Rattle.bank_replays.specs.DifferenceText.{column_of, difference_text, first_text, is_different, name_text};
ghost use Rattle.bank_replays.specs.DifferenceText.{sides_text};

use crate::compared::Compared;
use crate::difference::{Difference, Sides};
use crate::lines::{LINE, Line, NUMBER, push_number};
use arrayvec::ArrayString;
use itoa::Buffer;
use report_contents::push_text;
use std::fmt;
use walked_rows::{
    StoredAccount, StoredBranch, StoredClosing, StoredFloor, StoredMeta, StoredPosting,
    StoredReference, StoredRequest, StoredTeller,
};

// The most characters that the word of a table has, and the name of a column.
const WORD: usize = 9;

// The most that what stands and what is due take: two numbers, with what stands before each.
const BOTH: usize = 2 * NUMBER + WORD + 12;

// What a number of a row is called; nothing where it is a balance, or the floor of a branch.
#[derive(Clone, Copy)]
enum Name {
    Plain,
    Version,
    Decided,
    Accounts,
    Account,
    Teller,
    Branch,
    Number,
    Delta,
    Moment,
    Outcome,
    First,
}

// Its text, as it stands before the number.
fn name_text(name: Name) -> &'static str
    ensures text { result.now ≡ name_text name }
    ensures len { length result.now ≤ WORD }
{
    match name {
        Name::Plain => "",
        Name::Version => "version ",
        Name::Decided => "decided ",
        Name::Accounts => "accounts ",
        Name::Account => "account ",
        Name::Teller => "teller ",
        Name::Branch => "branch ",
        Name::Number => "number ",
        Name::Delta => "delta ",
        Name::Moment => "moment ",
        Name::Outcome => "outcome ",
        Name::First => "first ",
    }
}

// A number of the row that stands, and of the one that is due.
#[derive(Clone, Copy)]
struct Column {
    name: Name,
    stands: i64,
    due: i64,
}

fn column_of(name: Name, stands: i64, due: i64) -> Column
    ensures { result ≡ column_of name stands due }
{
    Column { name, stands, due }
}

// The first number in which two rows differ.
fn first_different(columns: &[Column]) -> Option<Column>
    ensures { result ≡ find is_different columns.now }
{
    columns
        .iter()
        .find(|column| column.stands != column.due)
        .copied()
}

// Appends the first number in which two rows differ, with its name before it.
fn push_first(line: &mut Line, columns: &[Column])
    requires { length line.old.bytes + BOTH ≤ LINE }
    ensures { line.new.bytes ≡ line.old.bytes ++ first_text columns.now }
{
    if let Some(column) = first_different(columns) {
        line.push_str(name_text(column.name));
        line.push_str("stands ");
        push_number(line, column.stands);
        line.push_str(" due ");
        push_number(line, column.due);
    }
}

// A row, as a difference shows it.
trait Shown: Compared {
    // What a row of the table is called.
    ghost word: { List ℕ };

    // Its key.
    ghost under: { Self → ℕ };

    // What is said of two of them.
    ghost both: { Self → Self → List ℕ };

    fn word() -> &'static str
        ensures text { result.now ≡ word }
        ensures len { length result.now ≤ WORD };

    // Appends what is said of the two.
    fn push_both(line: &mut Line, stands: &Self, due: &Self)
        requires { length line.old.bytes + BOTH ≤ LINE }
        ensures { line.new.bytes ≡ line.old.bytes ++ both stands.now due.now };

    ghost keyed: { (r : Self) → Self.key (Self.item r) ≡ pos (under r) };
}

// Its key.
fn key_of<R: Shown>(row: &R) -> u64
    ensures { result ≡ R.Shown.under row.now }
{
    row.number()
}

// The line so far: the word of the table, and a key.
fn line_under<R: Shown>(key: u64) -> Line
    ensures bytes { result.bytes ≡ R.Shown.word ++ codes " " ++ decimal key }
    ensures len { length result.bytes ≤ WORD + 1 + NUMBER }
{
    let mut line = ArrayString::new();
    line.push_str(R::word());
    line.push_str(" ");
    let mut digits = Buffer::new();
    line.push_str(digits.format(key));
    line
}

// The line of what stands and of what is due.
fn line_of<R: Shown>(sides: &Sides<R>) -> Line
    ensures { result.bytes ≡ sides_text R.Shown.word R.Shown.under R.Shown.both sides.now }
{
    match (&sides.stands, &sides.due) {
        (Some(stands), Some(due)) => {
            let mut line = line_under::<R>(key_of(stands));
            line.push_str(" ");
            R::push_both(&mut line, stands, due);
            line
        }
        (Some(stands), None) => {
            let mut line = line_under::<R>(key_of(stands));
            line.push_str(" stands a row due no row");
            line
        }
        (None, Some(due)) => {
            let mut line = line_under::<R>(key_of(due));
            line.push_str(" stands no row due a row");
            line
        }
        (None, None) => {
            let mut line = ArrayString::new();
            line.push_str(R::word());
            line
        }
    }
}

// The line of a difference.
fn difference_line(difference: &Difference) -> Line
    ensures { result.bytes ≡ difference_text difference.now }
{
    match difference {
        Difference::Meta(sides) => line_of(sides),
        Difference::Branch(sides) => line_of(sides),
        Difference::Teller(sides) => line_of(sides),
        Difference::Account(sides) => line_of(sides),
        Difference::Posting(sides) => line_of(sides),
        Difference::Request(sides) => line_of(sides),
        Difference::Floor(sides) => line_of(sides),
        Difference::Reference(sides) => line_of(sides),
        Difference::Closing(sides) => line_of(sides),
    }
}

/// A line, as `account 2 stands 0 due -100`: the table's word, the key, and of the first number in which the two
/// rows differ what stands and what the rules give, with its name before it where it is neither a balance nor a
/// floor, as `request 3 outcome stands 0 due 17`. Where one of the two isn't there: `stands no row due a row`, or
/// `stands a row due no row`. References are shown as they are.
impl fmt::Display for Difference {
    ghost use Rattle.std.specs.Prelude.{Some};
    ghost use Rattle.bank_replays.specs.DifferenceText.{difference_text};

    ghost output = { λ difference. Some (difference_text difference) };

    fn fmt<W: fmt::Write>(&self, f: &mut fmt::Formatter<W>) -> fmt::Result {
        let line = difference_line(self);
        write!(f, "{line}")
    }
}

impl Shown for StoredMeta {
    ghost word = { codes "meta" };

    ghost under = { λ r. r.id };

    ghost both = { both_metas };

    ghost keyed = { λ r. refl };

    fn word() -> &'static str {
        "meta"
    }

    fn push_both(line: &mut Line, stands: &Self, due: &Self) {
        let columns = [
            column_of(Name::Version, stands.version, due.version),
            column_of(Name::Decided, stands.decided, due.decided),
        ];
        push_first(line, columns.as_slice());
    }
}

impl Shown for StoredBranch {
    ghost word = { codes "branch" };

    ghost under = { λ r. r.branch };

    ghost both = { both_branches };

    ghost keyed = { λ r. refl };

    fn word() -> &'static str {
        "branch"
    }

    fn push_both(line: &mut Line, stands: &Self, due: &Self) {
        let columns = [
            column_of(
                Name::Accounts,
                stands.accounts.get() as i64,
                due.accounts.get() as i64,
            ),
            column_of(Name::Plain, stands.balance, due.balance),
        ];
        push_first(line, columns.as_slice());
    }
}

impl Shown for StoredTeller {
    ghost word = { codes "teller" };

    ghost under = { λ r. r.teller };

    ghost both = { both_tellers };

    ghost keyed = { λ r. refl };

    fn word() -> &'static str {
        "teller"
    }

    fn push_both(line: &mut Line, stands: &Self, due: &Self) {
        let columns = [column_of(Name::Plain, stands.balance, due.balance)];
        push_first(line, columns.as_slice());
    }
}

impl Shown for StoredAccount {
    ghost word = { codes "account" };

    ghost under = { λ r. r.account };

    ghost both = { both_accounts };

    ghost keyed = { λ r. refl };

    fn word() -> &'static str {
        "account"
    }

    fn push_both(line: &mut Line, stands: &Self, due: &Self) {
        let columns = [column_of(Name::Plain, stands.balance, due.balance)];
        push_first(line, columns.as_slice());
    }
}

impl Shown for StoredPosting {
    ghost word = { codes "posting" };

    ghost under = { λ r. r.ordinal };

    ghost both = { both_postings };

    ghost keyed = { λ r. refl };

    fn word() -> &'static str {
        "posting"
    }

    fn push_both(line: &mut Line, stands: &Self, due: &Self) {
        let columns = [
            column_of(Name::Account, stands.account, due.account),
            column_of(Name::Teller, stands.teller, due.teller),
            column_of(Name::Branch, stands.branch, due.branch),
            column_of(Name::Delta, stands.delta, due.delta),
            column_of(
                Name::Moment,
                stands.moment.get() as i64,
                due.moment.get() as i64,
            ),
        ];
        push_first(line, columns.as_slice());
    }
}

impl Shown for StoredRequest {
    ghost word = { codes "request" };

    ghost under = { λ r. r.ordinal };

    ghost both = { both_requests };

    ghost keyed = { λ r. refl };

    fn word() -> &'static str {
        "request"
    }

    fn push_both(line: &mut Line, stands: &Self, due: &Self) {
        let columns = [
            column_of(Name::Teller, stands.teller, due.teller),
            column_of(Name::Number, stands.number, due.number),
            column_of(Name::Account, stands.account, due.account),
            column_of(Name::Branch, stands.branch, due.branch),
            column_of(Name::Delta, stands.delta, due.delta),
            column_of(Name::Outcome, stands.outcome, due.outcome),
            column_of(Name::Plain, stands.balance, due.balance),
        ];
        push_first(line, columns.as_slice());
    }
}

impl Shown for StoredFloor {
    ghost word = { codes "floor" };

    ghost under = { λ r. r.branch };

    ghost both = { both_floors };

    ghost keyed = { λ r. refl };

    fn word() -> &'static str {
        "floor"
    }

    fn push_both(line: &mut Line, stands: &Self, due: &Self) {
        let columns = [column_of(Name::Plain, stands.lowest, due.lowest)];
        push_first(line, columns.as_slice());
    }
}

impl Shown for StoredClosing {
    ghost word = { codes "closing" };

    ghost under = { λ r. r.last };

    ghost both = { both_closings };

    ghost keyed = { λ r. refl };

    fn word() -> &'static str {
        "closing"
    }

    fn push_both(line: &mut Line, stands: &Self, due: &Self) {
        let columns = [column_of(Name::First, stands.first, due.first)];
        push_first(line, columns.as_slice());
    }
}

impl Shown for StoredReference {
    ghost word = { codes "reference" };

    ghost under = { λ r. r.ordinal };

    ghost both = { both_references };

    ghost keyed = { λ r. refl };

    fn word() -> &'static str {
        "reference"
    }

    fn push_both(line: &mut Line, stands: &Self, due: &Self) {
        line.push_str("stands ");
        push_text(line, stands.reference.text());
        line.push_str(" due ");
        push_text(line, due.reference.text());
    }
}
