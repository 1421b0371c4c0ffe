//! How a command ended over a connection, and how it finds the bank that is there.
ghost use Rattle.std.specs.Prelude.{◌≡◌, Err, IfErr, IfOk, IsErrAnd, false};
ghost use Rattle.command_line.specs.CommandFaults.{fault_of_opening};
ghost use Rattle.bank_commands.specs.Over.{IsFoundOver, IsMissedOver, IsRefusedOver};

use bank_store::{Bank, Refused, adopt};
use command_line::{CommandFault, Status};
use sqlite::{Alter, Connection};
use sqlite_trees::store::Store;
use std::alloc::Global;

/// How a command ended, and the connection that it was given.
#[derive(Drop)]
pub struct Ended<S: Alter + Drop> {
    /// The status that the program ends with, or why the command didn't do its work.
    pub end: Result<Status, CommandFault>,
    /// The connection, outside a transaction.
    pub conn: Connection<S>,
}

/// The bank that a connection's file has, or the end of a command that finds none.
pub fn find<S: Alter + Drop>(alloc: Global, conn: Connection<S>) -> Result<Bank<S>, Ended<S>>
    requires { conn.in_transaction ≡ false }
    ensures found { IfOk result (IsFoundOver S.Store conn) }
    ensures missed { IfErr result
        (λ ended. IsErrAnd ended.end (IsRefusedOver (IsMissedOver S.Store conn) ended.conn)) }
    ensures idle { IfErr result (λ ended. ended.conn.in_transaction ≡ false) }
{
    match adopt(alloc, conn) {
        Ok(bank) => Ok(bank),
        Err(refused) => Err(refuse(refused)),
    }
}

/// The end of a command that has no bank.
pub(crate) fn refuse<S: Alter + Drop>(refused: Refused<S>) -> Ended<S>
    ensures end { result.end ≡ Err (fault_of_opening refused.fault) }
    ensures conn { result.conn ≡ refused.conn }
{
    let Refused { fault, conn } = refused;
    Ended {
        end: Err(CommandFault::from(fault)),
        conn,
    }
}
