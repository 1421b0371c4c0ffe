//! All rows of a bank are added up.
ghost use Rattle.std.specs.Prelude.{◌≡◌, OnOk};
ghost use Rattle.sqlite.specs.State.{HasCleanDisk};
ghost use Rattle.report_contents.specs.Beside.{no_rows, rows_of};
ghost use Rattle.report_contents.specs.Stored.{StoredTables};
ghost use Rattle.bank_store.specs.believed.Seen.{database_of, file_of};
ghost use Rattle.bank_reports.specs.Adding.{HasSums};
ghost use Rattle.bank_reports.specs.Files.{FileRows, HasFile, rows_in};
ghost use Rattle.bank_reports.specs.Leaving.{ReadsFile, as_report};

use crate::passes::add_each;
use crate::sums::Sums;
use bank_store::Bank;
use posting_rules::Fault;
use sqlite::Alter;
use walked_rows::{
    Joined, StoredAccount, StoredBranch, StoredPosting, StoredRequest, StoredTeller,
};

/// Adds all rows of a bank, table after table. A fault leaves the bank as it was.
pub(crate) fn add_all<S: Alter>(bank: &mut Bank<S>, sums: &mut Sums) -> Result<(), Fault>
    requires { HasSums sums.old no_rows }
    ensures added { HasCleanDisk (file_of bank.new) → (f : FileRows)
        → HasFile (database_of S.Store bank.old) f
        → OnOk result ((t : StoredTables) × (rows_in t ≡ f) × HasSums sums.new (rows_of t)) }
    ensures reads { ReadsFile S.Store bank.old bank.new (as_report result) }
{
    add_each::<S, StoredTeller>(bank, sums)?;
    add_each::<S, StoredBranch>(bank, sums)?;
    add_each::<S, StoredAccount>(bank, sums)?;
    add_each::<S, Joined<StoredRequest, StoredPosting>>(bank, sums)?;
    add_each::<S, Joined<StoredPosting, StoredRequest>>(bank, sums)?;
    Ok(())
}
