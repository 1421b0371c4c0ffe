//! The first program of `bank_lives`.
ghost use Rattle.std.specs.Prelude.{◌≡◌, false};

use bank_lives::reopen;
use bank_store::{Bank, OpenFault, Refused};
use sqlite::{Alter, Connection};
use std::alloc::Global;

// `conn` was opened on what a crash left of the files of `stopped`.
pub fn next_life<S: Alter + Drop, T: Alter + Drop>(
    alloc: Global,
    stopped: &Bank<S>,
    conn: Connection<T>,
) -> Result<Bank<T>, OpenFault>
    requires { conn.in_transaction ≡ false }
{
    match reopen(alloc, stopped, conn) {
        Ok(bank) => Ok(bank),
        Err(Refused { fault, conn: _conn }) => Err(fault),
    }
}
