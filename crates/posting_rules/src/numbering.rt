//! How the tellers and the accounts of a bank are numbered: those of branch 1 first, then those of branch 2,
//! and so on (the scaling of TPC-B). The nth of a branch, from 0 on, is n after its first.
ghost use Rattle.std.specs.Prelude.{◌≡◌, ◌≤◌};
ghost use Rattle.message_records.specs.declared.limits.TheConstants.{MAX_BRANCH};
ghost use Rattle.posting_rules.specs.believed.Numbering.{first_teller, first_account, branch_of_teller};
ghost use Rattle.posting_rules.specs.believed.Numbering.{branch_of_account, place_of_account};
ghost use Rattle.message_records.specs.declared.limits.TheConstants.{MAX_NUMBER, MAX_TELLER};
ghost use Rattle.posting_rules.specs.believed.Commands.{number_key};

use crate::limits::{ACCOUNTS_PER_BRANCH, NUMBERS_PER_TELLER, TELLERS_PER_BRANCH};
use message_records::{Account, Branch, Number, Teller};

/// The number of a branch's first teller. The branch has `TELLERS_PER_BRANCH` of them in a row.
#[must_use]
pub fn first_teller(branch: Branch) -> u64
    ensures value { result ≡ first_teller branch }
    ensures least { 1 ≤ branch }
    ensures most { branch ≤ MAX_BRANCH }
{
    TELLERS_PER_BRANCH * (branch.get() - 1) + 1
}

/// The number of a branch's first account. The branch has `ACCOUNTS_PER_BRANCH` numbers in a row, of which
/// those within its count are accounts.
#[must_use]
pub fn first_account(branch: Branch) -> u64
    ensures value { result ≡ first_account branch }
    ensures least { 1 ≤ branch }
    ensures most { branch ≤ MAX_BRANCH }
{
    ACCOUNTS_PER_BRANCH * (branch.get() - 1) + 1
}

/// The number of the branch that a teller's number gives. It may be beyond `LAST_BRANCH`.
#[must_use]
pub fn branch_of_teller(teller: Teller) -> u64
    ensures { result ≡ branch_of_teller teller }
{
    (teller.get() - 1) / TELLERS_PER_BRANCH + 1
}

/// The number of the branch that an account's number gives. It may be beyond `LAST_BRANCH`.
#[must_use]
pub fn branch_of_account(account: Account) -> u64
    ensures { result ≡ branch_of_account account }
{
    (account.get() - 1) / ACCOUNTS_PER_BRANCH + 1
}

/// The place of an account among those of its branch: 1..=`ACCOUNTS_PER_BRANCH`.
#[must_use]
pub fn place_of_account(account: Account) -> u64
    ensures { result ≡ place_of_account account }
{
    (account.get() - 1) % ACCOUNTS_PER_BRANCH + 1
}

/// The key of a teller's number among the numbers of all tellers.
#[must_use]
pub fn number_key(teller: Teller, number: Number) -> u64
    ensures value { result ≡ number_key teller number }
    ensures teller { (1 ≤ teller) × (teller ≤ MAX_TELLER) }
    ensures number { (1 ≤ number) × (number ≤ MAX_NUMBER) }
{
    NUMBERS_PER_TELLER * teller.get() + number.get()
}
