//! Which of the program's commands the words of the command line ask for, and on which files.
ghost use Rattle.std.specs.Prelude.{◌≡◌, ◌≤◌, IfErr, IfNone, IfOk, IfSome, IsErrAnd, IsSomeAnd, codes, false, map, option_map, true};
ghost use Rattle.clap.specs.Words.{FailsBy, fault_of, first_of, found_of, kind_of, one_of, rows_of, subcommand_of};
ghost use Rattle.clap.specs.Words.{subcommand_rows_of, takes};
ghost use Rattle.command_line.specs.CommandLine.{AreInRange, IsCommandOf, IsHalfShared, IsNumber, IsTaskInRange};
ghost use Rattle.command_line.specs.CommandLine.{IsTaskOf, IsText, IsWorkInRange, IsWorkOf, bank_app, money_in};
ghost use Rattle.command_line.specs.CommandLine.{money_of_flag, spelled};
ghost use Rattle.command_line.specs.Queries.{query_in};
ghost use Rattle.command_line.specs.Words.{AsksForHelp, IsHelp, IsReadFrom, words_read};

use crate::command_line::bank_command;
use crate::limits::MAX_CONNECTIONS;
use crate::queries::{QueryFault, is_set, query_told};
use clap::ArgMatches;
use clap::error::ErrorKind;
use load_driver::MAX_DRIVEN;
use message_records::Account;
use posting_sheets::Money;
use report_contents::Query;
use std::alloc::{AllocError, Global};
use std::convert::AsStr;

/// What the program is asked to do.
#[derive(Clone, Copy)]
pub enum Command<'a> {
    /// Something with the bank of a file.
    OnFile {
        file: &'a str,
        task: Task<'a>,
    },
    /// Say whether the file's bank can be used, and if not, why.
    Why {
        file: &'a str,
    },
    /// Make records of the sheet of postings of standard input.
    Encode,
    /// Make a sheet of the replies of standard input, which writes money so, and with their rows of the sheet of postings
    /// that they answer, if it is given.
    Decode {
        money: Money,
        sheet: Option<&'a str>,
    },
    /// Write statements, of something that can't be asked; or serve over a log that isn't told.
    Mistaken(QueryFault),
}

/// What is to be done with the bank of a file, and how that is had.
#[derive(Clone, Copy)]
pub enum Task<'a> {
    /// Make a new bank in the file.
    Init,
    /// Carry the bank, which an older version made, over to this version.
    Migrate,
    /// Serve the bank that is there, over a log that machines share.
    Share {
        address: &'a str,
        connections: Option<u64>,
        /// A member of the quorum that keeps the log, as a host and a port.
        member: &'a str,
        /// The log's name.
        name: &'a str,
        /// It follows the log until it is its turn.
        stands_by: bool,
    },
    /// Work with the bank that is there.
    With(Work<'a>),
}

/// A work with the bank that is there.
#[derive(Clone, Copy)]
pub enum Work<'a> {
    /// Open the branches of a plan.
    Load {
        plan: &'a str,
    },
    /// Post the records of standard input.
    Post,
    /// Post so many records that the driver draws, from this seed on, over the branches of the bank.
    Drive {
        seed: u64,
        count: u64,
    },
    /// Audit the bank.
    Audit,
    /// Write the statement of an account, all of it or what is asked for.
    Statement {
        account: Account,
        query: Query,
    },
    /// Write the statement of each account that has a posting which is asked for.
    Statements {
        query: Query,
    },
    /// Replay the bank.
    Replay,
    /// Print the digest of so many first requests.
    Digest {
        requests: u64,
    },
    /// Write the requests after so many as records.
    Export {
        after: u64,
    },
    /// Write the requests after so many as entries of a log.
    Log {
        after: u64,
    },
    /// Write the open branches as a plan.
    Plan,
    /// Take the bank along the log of another one, whose entries are the standard input, by a plan.
    Follow {
        plan: &'a str,
    },
    /// Seal the books.
    Seal,
    /// Serve the bank over HTTP at this address, to so many connections, or to all that come.
    Serve {
        address: &'a str,
        connections: Option<u64>,
    },
}

/// Reads the words of the command line, of which the first is the program's own name. The command is
/// the one that clap matches in the words, and any other words are the error that clap gives, with
/// the text for the user. A request for help is such an error, of the kind `DisplayHelp`.
pub fn read_words<'a, S: AsStr>(alloc: Global, words: &'a [S]) -> Result<Command<'a>, clap::Error>
    ensures command { IfOk result (IsReadFrom (map S.text words.entry.now)) }
    ensures ranges { IfOk result AreInRange }
    ensures taken { IfErr result (λ error. takes bank_app (map S.text words.entry.now) ≡ true
        → kind_of error ≡ ErrorKind.OutOfMemory) }
    ensures fault { FailsBy (fault_of bank_app (map S.text words.entry.now)) result }
    ensures help { AsksForHelp (map S.text words.entry.now) → IsErrAnd result IsHelp }
{
    let matches = matches_of(alloc, own_words(words))?;
    match command_in(&matches) {
        Some(command) => Ok(command),
        // clap matches each command with its values, so that there is one.
        None => Err(clap::Error::from(AllocError)),
    }
}

// The words that clap is given: it knows no `bank help --help`, which is read as `bank --help`.
fn own_words<S: AsStr>(words: &[S]) -> &[S]
    ensures { map S.text result.now ≡ words_read (map S.text words.now) }
{
    if words.len() == 3 && words[1].as_str() == "help" && words[2].as_str() == "--help" {
        &words[1..]
    } else {
        words
    }
}

// What clap matches in the words.
fn matches_of<'a, S: AsStr>(alloc: Global, words: &'a [S]) -> Result<ArgMatches<'a>, clap::Error>
    ensures matches { IfOk result (λ matches. subcommand_rows_of matches
        ≡ subcommand_of bank_app (map S.text words.entry.now)) }
    ensures taken { IfErr result (λ error. takes bank_app (map S.text words.entry.now) ≡ true
        → kind_of error ≡ ErrorKind.OutOfMemory) }
    ensures fault { FailsBy (fault_of bank_app (map S.text words.entry.now)) result }
{
    bank_command(alloc)?.try_get_matches_from(words)
}

// The command that was matched, if it has all its values.
fn command_in<'a>(matches: &ArgMatches<'a>) -> Option<Command<'a>>
    ensures command { IfSome result (λ command. IsSomeAnd (subcommand_rows_of matches.now)
        (λ p. IsCommandOf p command)) }
    ensures ranges { IfSome result AreInRange }
{
    let (name, values) = matches.subcommand()?;
    command_of(name, values)
}

// The command that a subcommand's name and values tell, if they tell one.
fn command_of<'a>(name: &str, values: &ArgMatches<'a>) -> Option<Command<'a>>
    ensures command { IfSome result (IsCommandOf (name.now, rows_of (found_of values.now))) }
    ensures ranges { IfSome result AreInRange }
{
    match name {
        "encode" => Some(Command::Encode),
        "decode" => {
            let money = money_in(values);
            let sheet = text_in(values, "sheet");
            Some(Command::Decode { money, sheet })
        }
        _ => command_on_file(name, text_in(values, "file")?, values),
    }
}

// The command on a file that a subcommand's name, its file and its other values tell, if they tell one.
fn command_on_file<'a>(name: &str, file: &'a str, values: &ArgMatches<'a>) -> Option<Command<'a>>
    requires { IsText (codes "file") (rows_of (found_of values.now)) file.now }
    ensures command { IfSome result (IsCommandOf (name.now, rows_of (found_of values.now))) }
    ensures ranges { IfSome result AreInRange }
{
    match name {
        "why" => Some(Command::Why { file }),
        "init" => Some(Command::OnFile {
            file,
            task: Task::Init,
        }),
        "migrate" => Some(Command::OnFile {
            file,
            task: Task::Migrate,
        }),
        "statement" => statement_in(file, values),
        "statements" => Some(statements_in(file, values)),
        "serve" => served_in(file, values),
        _ => match work_of(name, values) {
            Some(work) => Some(Command::OnFile {
                file,
                task: Task::With(work),
            }),
            None => None,
        },
    }
}

// The statement of an account that a subcommand's file and its other values tell, if they tell one.
fn statement_in<'a>(file: &'a str, values: &ArgMatches<'a>) -> Option<Command<'a>>
    requires { IsText (codes "file") (rows_of (found_of values.now)) file.now }
    ensures command { IfSome result (IsCommandOf (codes "statement", rows_of (found_of values.now))) }
    ensures ranges { IfSome result AreInRange }
{
    let account = Account::new(number_in(values, "account")?)?;
    match query_in(values) {
        Ok(query) => Some(Command::OnFile {
            file,
            task: Task::With(Work::Statement { account, query }),
        }),
        Err(fault) => Some(Command::Mistaken(fault)),
    }
}

// The statements of all accounts that a subcommand's file and its other values tell.
fn statements_in<'a>(file: &'a str, values: &ArgMatches<'a>) -> Command<'a>
    requires { IsText (codes "file") (rows_of (found_of values.now)) file.now }
    ensures command { IsCommandOf (codes "statements", rows_of (found_of values.now)) result }
    ensures ranges { AreInRange result }
{
    match query_in(values) {
        Ok(query) => Command::OnFile {
            file,
            task: Task::With(Work::Statements { query }),
        },
        Err(fault) => Command::Mistaken(fault),
    }
}

// A counter that a subcommand's file and its other values tell, if they tell one.
fn served_in<'a>(file: &'a str, values: &ArgMatches<'a>) -> Option<Command<'a>>
    requires { IsText (codes "file") (rows_of (found_of values.now)) file.now }
    ensures command { IfSome result (IsCommandOf (codes "serve", rows_of (found_of values.now))) }
    ensures ranges { IfSome result AreInRange }
{
    let address = text_in(values, "address")?;
    let connections = number_if_any(values, "connections")?;
    if !is_in_range(connections) {
        return None;
    }
    match serving_in(address, connections, values) {
        Some(task) => Some(Command::OnFile { file, task }),
        None => Some(Command::Mistaken(QueryFault::Sharing)),
    }
}

// A counter at this address, over a log that machines share if that is told; none where half of it is.
fn serving_in<'a>(
    address: &'a str,
    connections: Option<u64>,
    values: &ArgMatches<'a>,
) -> Option<Task<'a>>
    requires address { IsText (codes "address") (rows_of (found_of values.now)) address.now }
    requires connections { connections ≡ spelled (one_of (codes "connections") (rows_of (found_of values.now))) }
    requires range { IfSome connections (λ n. (1 ≤ n) × (n ≤ MAX_CONNECTIONS)) }
    ensures task { IfSome result (IsTaskOf (codes "serve", rows_of (found_of values.now))) }
    ensures ranges { IfSome result IsTaskInRange }
    ensures half { IfNone result (IsHalfShared (rows_of (found_of values.now))) }
{
    let member = text_in(values, "quorum");
    let name = text_in(values, "name");
    let stands_by = is_set(text_in(values, "standby"));
    match (member, name) {
        (Some(member), Some(name)) => Some(Task::Share {
            address,
            connections,
            member,
            name,
            stands_by,
        }),
        (None, None) => alone_in(address, connections, stands_by),
        (Some(_), None) => None,
        (None, Some(_)) => None,
    }
}

// The same where no log is told: none where one is to be followed.
fn alone_in<'a>(address: &'a str, connections: Option<u64>, stands_by: bool) -> Option<Task<'a>>
    ensures task { IfSome result (λ task. (task ≡ Task.With (Work.Serve address.entry connections)) × (stands_by ≡ false)) }
    ensures none { IfNone result (stands_by ≡ true) }
{
    if stands_by {
        None
    } else {
        Some(Task::With(Work::Serve {
            address,
            connections,
        }))
    }
}

// The work that a subcommand's name and its values beside the file tell, if they tell one that is no statement.
fn work_of<'a>(name: &str, values: &ArgMatches<'a>) -> Option<Work<'a>>
    ensures work { IfSome result (IsWorkOf (name.now, rows_of (found_of values.now))) }
    ensures ranges { IfSome result IsWorkInRange }
{
    match name {
        "load" => Some(Work::Load {
            plan: text_in(values, "plan")?,
        }),
        "post" => Some(Work::Post),
        "drive" => drive_in(number_in(values, "seed")?, number_in(values, "count")?),
        "audit" => Some(Work::Audit),
        "replay" => Some(Work::Replay),
        "digest" => Some(Work::Digest {
            requests: number_in(values, "requests")?,
        }),
        "export" => Some(Work::Export {
            after: number_if_any(values, "after")?.unwrap_or(0),
        }),
        "log" => Some(Work::Log {
            after: number_if_any(values, "after")?.unwrap_or(0),
        }),
        "plan" => Some(Work::Plan),
        "follow" => Some(Work::Follow {
            plan: text_in(values, "plan")?,
        }),
        "seal" => Some(Work::Seal),
        _ => None,
    }
}

// How a sheet of replies writes money: in decimals where the words have the flag.
fn money_in(values: &ArgMatches<'_>) -> Money
    ensures { result ≡ money_in (rows_of (found_of values.now)) }
{
    money_of_flag(values.get_str("words"))
}

// The same by the value that clap makes of the flag.
fn money_of_flag(value: Option<&str>) -> Money
    ensures { result ≡ money_of_flag (option_map (λ s. s.now) value.entry) }
{
    match value {
        Some("true") => Money::Decimals,
        _ => Money::Cents,
    }
}

// What a statement is asked for.
fn query_in(values: &ArgMatches<'_>) -> Result<Query, QueryFault>
    ensures { result ≡ query_in (rows_of (found_of values.now)) }
{
    let from = values.get_str("from");
    let to = values.get_str("to");
    let zone = values.get_str("zone");
    let reference = values.get_str("reference");
    let csv = values.get_str("csv");
    query_told(from, to, zone, reference, csv)
}

// A drive of so many records from this seed on, if the count is in its range.
fn drive_in<'a>(seed: u64, count: u64) -> Option<Work<'a>>
    ensures work { IfSome result (λ work. work ≡ Work.Drive seed count) }
    ensures ranges { IfSome result IsWorkInRange }
{
    if count < 1 || count > MAX_DRIVEN {
        return None;
    }
    Some(Work::Drive { seed, count })
}

// Whether the number of a counter's connections is in its range.
fn is_in_range(connections: Option<u64>) -> bool
    ensures { result ≡ true → IfSome connections (λ n. (1 ≤ n) × (n ≤ MAX_CONNECTIONS)) }
{
    match connections {
        Some(count) => count >= 1 && count <= MAX_CONNECTIONS,
        None => true,
    }
}

// The value of an argument, if it has one.
fn text_in<'a>(values: &ArgMatches<'a>, id: &str) -> Option<&'a str>
    ensures { option_map (λ s. s.now) result ≡ first_of id.now (rows_of (found_of values.now)) }
{
    values.get_str(id)
}

// The number that an argument's value spells, if it has one that does.
fn number_in(values: &ArgMatches<'_>, id: &str) -> Option<u64>
    ensures { IfSome result (IsNumber id.now (rows_of (found_of values.now))) }
{
    values.get_one::<u64>(id)
}

// The number that an argument's value spells, none if it was left out, if it has no other value.
fn number_if_any(values: &ArgMatches<'_>, id: &str) -> Option<Option<u64>>
    ensures { IfSome result (λ number. number ≡ spelled (one_of id.now (rows_of (found_of values.now)))) }
{
    values.try_get_one::<u64>(id).ok()
}
