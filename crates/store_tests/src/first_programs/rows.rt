//! The first program of `store_rows`.
ghost use Rattle.std.specs.Prelude.{◌≡◌, false};

use message_records::{Branch, Cents};
use posting_rules::BranchRow;
use sqlite::{Alter, Connection};
use store_rows::{TableFault, add_branch, commit, create, find_branch};

pub fn first_branch<S: Alter>(conn: &mut Connection<S>) -> Result<Option<BranchRow>, TableFault>
    requires { conn.old.in_transaction ≡ false }
{
    create(conn)?;
    let branch = Branch::new(1).unwrap();
    let balance = Cents::zero();
    let mut tx = conn.transaction();
    add_branch(
        &mut tx,
        BranchRow {
            branch,
            accounts: 3,
            balance,
        },
    )?;
    commit(tx)?;
    let mut tx = conn.transaction();
    find_branch(&mut tx, branch)
}
