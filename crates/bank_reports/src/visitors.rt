//! What is done with the postings of an account, one after another.
ghost use Rattle.std.specs.Prelude.{◌≡◌, ◌<◌, ◌-◌, ◌^◌, ◌++◌, ◌∷◌, [], ℕ, List, Option, Err, IfErr, MatchResult, OnOk};
ghost use Rattle.std.specs.Prelude.{length, pos};
ghost use Rattle.posting_core.specs.EndCalls.{HasMore, HasWriteFailed};
ghost use Rattle.walked_rows.specs.declared.stated.StatedPosting.{StatedPosting};
ghost use Rattle.bank_reports.specs.declared.fault.ReportFault.{ReportFault};
ghost use Rattle.bank_reports.specs.declared.fault.ReportFault.TheVariants.{Write};
ghost use Rattle.bank_reports.specs.Refusals.{IsRefusal};

use crate::fault::ReportFault;
use crate::lines::write_line;
use message_records::Cents;
use posting_core::Sink;
use report_contents::{Form, RangeSums};
use walked_rows::StatedPosting;

/// What is done with the postings of an account, one after another. It may write of each.
pub(crate) trait Visitor {
    /// From a first state on, and from such known bytes of the writer, these postings were visited; now both are so.
    ghost Visited: { Self → Option (List ℕ) → List StatedPosting → Self → Option (List ℕ) → Type 0 };

    /// After such visits the next posting was refused, for this fault; now the writer's known bytes are so.
    ghost Refused: { Self → Option (List ℕ) → List StatedPosting → StatedPosting → ReportFault
        → Option (List ℕ) → Type 0 };

    /// Whether a visit takes memory.
    ghost TakesMemory: { Type 0 } = { ⊥ };

    /// Visits one more posting.
    fn visit<W: Sink>(&mut self, row: &StatedPosting, writer: &mut W) -> Result<(), ReportFault>
        requires { (first : Self) × (bytes : Option (List ℕ)) × (given : List StatedPosting)
            × Visited first bytes given self.old (W.contents writer.old) × (length given < 2 ^ 64 - 1) }
        ensures visited { (first : Self) (bytes : Option (List ℕ)) (given : List StatedPosting)
            → Visited first bytes given self.old (W.contents writer.old) → MatchResult result
            (λ _. Visited first bytes (given ++ row.now ∷ []) self.new (W.contents writer.new))
            (λ fault. Refused first bytes given row.now fault (W.contents writer.new)) }
        ensures faults { IfErr result (IsRefusal TakesMemory) }
        ensures more { OnOk result (HasMore (W.calls writer.old) (W.calls writer.new)) }
        ensures failed { result ≡ Err Write → HasWriteFailed (W.calls writer.old) (W.calls writer.new) };
}

/// Each posting is added to the sums of a range, and nothing is written.
impl Visitor for RangeSums {
    ghost use Rattle.bank_reports.specs.Visitors.{HasAdded, never_refused};

    ghost Visited = { HasAdded };

    ghost Refused = { never_refused };

    fn visit<W: Sink>(&mut self, row: &StatedPosting, writer: &mut W) -> Result<(), ReportFault> {
        self.add(row);
        Ok(())
    }
}

/// The lines of postings in a form, with the running balance.
#[derive(Drop)]
pub(crate) struct Lines {
    form: Form,
    /// The balance after the lines so far.
    pub(crate) balance: Cents,
}

impl Lines {
    /// No line is written yet. An account opens at zero.
    pub(crate) fn none(form: &Form) -> Lines
        ensures form { result.form ≡ form.now }
        ensures balance { result.balance ≡ pos 0 }
    {
        Lines {
            form: *form,
            balance: Cents::zero(),
        }
    }
}

/// The line of each posting is written.
impl Visitor for Lines {
    ghost use Rattle.bank_reports.specs.Visitors.{HasLined, RefusesLine};

    ghost Visited = { HasLined };

    ghost Refused = { RefusesLine };

    fn visit<W: Sink>(&mut self, row: &StatedPosting, writer: &mut W) -> Result<(), ReportFault> {
        let after = write_line(&self.form, row, self.balance, writer)?;
        self.balance = after;
        Ok(())
    }
}
