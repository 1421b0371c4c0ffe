//! The works that audit a bank and that write the statement of an account or of all, and the command that says that a bank
//! can be used.
ghost use Rattle.std.specs.Prelude.{◌≡◌, ◌≢◌, Err, IsErrOf, false};
ghost use Rattle.posting_core.specs.EndCalls.{HasWriteFailed};
ghost use Rattle.bank_store.specs.OpenBankSparing.{SparesWhileOpen};
ghost use Rattle.bank_store.specs.believed.Seen.{connection_of};
ghost use Rattle.bank_commands.specs.Commands.{AuditsFound, EndsAllStated, LooksOver, States, StatesEach, stated_by};

use crate::commands::done;
use crate::ended::{Ended, find};
use bank_reports::{Query, ReportFault, audit, write_selected, write_statements};
use bank_store::Bank;
use command_line::{CommandFault, Status, print_audit, print_usable};
use message_records::Account;
use posting_core::Sink;
use sqlite::{Alter, Connection};
use sqlite_trees::store::Store;
use std::alloc::Global;

/// Audits the bank that was found, and prints what was found in it.
pub(crate) fn audit_found<S: Alter + Drop, W: Sink>(
    bank: &mut Bank<S>,
    output: &mut W,
) -> Result<Status, CommandFault>
    ensures audits { AuditsFound S.Store (W.contents output.old) (W.contents output.new) bank.old bank.new result }
    ensures unprinted { IsErrOf result CommandFault.Write
        → HasWriteFailed (W.calls output.old) (W.calls output.new) }
    ensures spares { SparesWhileOpen S.Store (connection_of bank.old) (connection_of bank.new) }
{
    print_audit(audit(bank), output)
}

/// Writes the statement of an account of the bank that was found, all of it or what is asked for.
pub(crate) fn statement_found<S: Alter + Drop, W: Sink>(
    bank: &mut Bank<S>,
    account: Account,
    query: Query,
    output: &mut W,
) -> Result<Status, CommandFault>
    ensures states { States S.Store account query (W.contents output.old) (W.contents output.new)
        (W.calls output.old) (W.calls output.new) bank.old bank.new result }
    ensures unprinted { IsErrOf result CommandFault.Write
        → HasWriteFailed (W.calls output.old) (W.calls output.new) }
    ensures spares { SparesWhileOpen S.Store (connection_of bank.old) (connection_of bank.new) }
{
    stated(account, write_selected(bank, account, query, output))
}

/// Writes the statements of all accounts of the bank that was found that have a posting which is asked for.
pub(crate) fn statements_found<S: Alter + Drop, W: Sink>(
    bank: &mut Bank<S>,
    query: Query,
    output: &mut W,
) -> Result<Status, CommandFault>
    ensures states { StatesEach S.Store query (W.contents output.old) (W.contents output.new)
        (W.calls output.old) (W.calls output.new) bank.old bank.new result }
    ensures unprinted { IsErrOf result CommandFault.Write
        → HasWriteFailed (W.calls output.old) (W.calls output.new) }
    ensures spares { SparesWhileOpen S.Store (connection_of bank.old) (connection_of bank.new) }
{
    all_stated(write_statements(bank, query, output))
}

/// Prints that the bank can be used, where one is found.
pub fn why_over<S: Alter + Drop, W: Sink>(
    alloc: Global,
    conn: Connection<S>,
    output: &mut W,
) -> Ended<S>
    requires { conn.in_transaction ≡ false }
    ensures looks { LooksOver S.Store conn result.conn (W.contents output.old) (W.contents output.new)
        result.end }
    ensures unprinted { IsErrOf result.end CommandFault.Write
        → HasWriteFailed (W.calls output.old) (W.calls output.new) }
    ensures idle { result.conn.in_transaction ≡ false }
{
    let bank = match find(alloc, conn) {
        Ok(bank) => bank,
        Err(ended) => return ended,
    };
    let end = done(print_usable(output));
    Ended {
        end,
        conn: bank.release(),
    }
}

// How the program ends after the statements of all accounts.
fn all_stated(end: Result<(), ReportFault>) -> Result<Status, CommandFault>
    requires { end ≢ Err ReportFault.NoAccount }
    ensures { EndsAllStated end result }
{
    match end {
        Ok(()) => Ok(Status::Done),
        Err(ReportFault::NoAccount) => unreachable!(),
        Err(ReportFault::Write) => Err(CommandFault::Write),
        Err(ReportFault::Bank(fault)) => Err(CommandFault::from(fault)),
    }
}

// How it ends after a statement.
fn stated(account: Account, end: Result<(), ReportFault>) -> Result<Status, CommandFault>
    ensures { result ≡ stated_by account end }
{
    match end {
        Ok(()) => Ok(Status::Done),
        Err(ReportFault::NoAccount) => Err(CommandFault::NoAccount(account)),
        Err(ReportFault::Write) => Err(CommandFault::Write),
        Err(ReportFault::Bank(fault)) => Err(CommandFault::from(fault)),
    }
}
