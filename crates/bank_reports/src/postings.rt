//! Visits to the postings of an account, or of all.
ghost use Rattle.std.specs.Prelude.{◌≡◌, [], List, Err, OnOk};
ghost use Rattle.std.specs.Borrow.{sem, RestsIfErr};
ghost use Rattle.sqlite.specs.State.{HasCleanDisk};
ghost use Rattle.posting_core.specs.EndCalls.{HasMore, HasWriteFailed};
ghost use Rattle.walked_rows.specs.Pairs.{Pair, pair_key};
ghost use Rattle.walked_rows.specs.Stored.{is_stated_of, stated_pair};
ghost use Rattle.bank_store.specs.believed.Seen.{database_of, file_of};
ghost use Rattle.bank_store.specs.Walking.{BeginsWalk, HasToldFault, given_of, lent, lent_state, loan_of};
ghost use Rattle.bank_store.specs.Walking.{postings_to_come};
ghost use Rattle.bank_store.specs.contracts.bank.Bank.{the_row};
ghost use Rattle.bank_reports.specs.declared.fault.ReportFault.TheVariants.{Write};
ghost use Rattle.bank_reports.specs.Leaving.{HasStated, ReadsPostings};
ghost use Rattle.bank_reports.specs.Visitors.{EndsVisits, VisitsPostings};

use crate::fault::ReportFault;
use crate::visitors::Visitor;
use bank_store::{Bank, Walk, each_row, history_of};
use message_records::Account;
use posting_core::Sink;
use posting_rules::{Fault, Rule};
use sqlite::Alter;
use walked_rows::StatedPosting;

// Visits the postings that a walk gives. A fault of the rows leaves the bank as it was.
fn visit_rows<S: Alter, V: Visitor, W: Sink>(
    walk: &mut Walk<'_, S, StatedPosting>,
    visitor: &mut V,
    writer: &mut W,
) -> Result<(), ReportFault>
    requires fresh { HasToldFault walk.old → ⊥ }
    requires none { V.Visited visitor.old (W.contents writer.old) [] visitor.old (W.contents writer.old) }
    ensures same_reference { loan_of walk.new ≡ loan_of walk.old }
    ensures answers { HasCleanDisk (lent_state S.Store walk.new) → (rows : List Pair)
        → HasStated (lent_state S.Store walk.old).now rows
        → VisitsPostings V.Visited V.Refused visitor.old visitor.new (postings_to_come rows walk.old) (W.contents writer.old)
        (W.contents writer.new) result }
    ensures ends { EndsVisits (V.Visited visitor.old) (V.Refused visitor.old) (W.contents writer.old) visitor.new
        (W.contents writer.new) result }
    ensures reads { ReadsPostings S.Store V.TakesMemory (lent walk.old) (lent walk.new) result }
    ensures more { OnOk result (HasMore (W.calls writer.old) (W.calls writer.new)) }
    ensures failed { result ≡ Err Write → HasWriteFailed (W.calls writer.old) (W.calls writer.new) }
{
    'rows: for _ in 0..u64::MAX {
        let Some(row) = walk.next()? else {
            return Ok(());
        };
        visitor.visit(&row, writer)?;
    }
    Err(ReportFault::Bank(Fault::Damaged(Rule::Value)))
}

// Begins a walk over the postings of an account, or over all.
fn begin<S: Alter>(
    bank: &mut Bank<S>,
    of: Option<Account>,
) -> Result<Walk<'_, S, StatedPosting>, Fault>
    ensures* refused { sem 𝓛 (RestsIfErr (the_row S.row S.Store) bank.entry loan_of result
        (λ last. last ≡ bank.old)) }
    ensures begins { BeginsWalk S.Store pair_key stated_pair is_stated_of
        HasStated of bank.entry.ghost_name bank.old result }
{
    match of {
        None => each_row(bank),
        Some(account) => history_of(bank, account),
    }
}

/// Visits an account's postings, by their ordinals, or all. A fault of the rows leaves the bank as it was.
pub(crate) fn visit_postings<S: Alter, V: Visitor, W: Sink>(
    bank: &mut Bank<S>,
    of: Option<Account>,
    visitor: &mut V,
    writer: &mut W,
) -> Result<(), ReportFault>
    requires none { V.Visited visitor.old (W.contents writer.old) [] visitor.old (W.contents writer.old) }
    ensures answers { HasCleanDisk (file_of bank.new) → (rows : List Pair)
        → HasStated (database_of S.Store bank.old) rows
        → VisitsPostings V.Visited V.Refused visitor.old visitor.new (given_of is_stated_of of rows)
        (W.contents writer.old) (W.contents writer.new) result }
    ensures ends { EndsVisits (V.Visited visitor.old) (V.Refused visitor.old) (W.contents writer.old) visitor.new
        (W.contents writer.new) result }
    ensures reads { ReadsPostings S.Store V.TakesMemory bank.old bank.new result }
    ensures more { OnOk result (HasMore (W.calls writer.old) (W.calls writer.new)) }
    ensures failed { result ≡ Err Write → HasWriteFailed (W.calls writer.old) (W.calls writer.new) }
{
    let mut walk = begin(bank, of)?;
    visit_rows(&mut walk, visitor, writer)
}
