//! The program's command line as `clap` gets it: its commands, their arguments, and the texts of help.
ghost use Rattle.std.specs.Prelude.{◌≡◌, IfOk, codes, false};
ghost use Rattle.clap.specs.Words.{App, Rule, app_of, new_app, rule_of, with_rule, with_subcommand};
ghost use Rattle.command_line.specs.CommandLine.{IsApp, account_app, bank_alone, bank_app, decode_app, digest_app};
ghost use Rattle.command_line.specs.CommandLine.{drive_app, export_app, file_rule, flag_rule, follow_app, init_app};
ghost use Rattle.command_line.specs.CommandLine.{load_app, log_app, number_rule, optional_rule, required_rule};
ghost use Rattle.command_line.specs.CommandLine.{alone_app, serve_app, statement_app, statements_app, text_rule};
ghost use Rattle.command_line.specs.CommandLine.{why_app};
ghost use Rattle.command_line.specs.CommandLine.{with_days, with_query};

use crate::limits::MAX_CONNECTIONS;
use crate::texts::{self, CommandTexts, books, counter};
use clap::builder::ValueParser;
use clap::{Arg, ArgAction, Command};
use load_driver::MAX_DRIVEN;
use message_records::MAX_ACCOUNT;
use std::alloc::{AllocError, Global};

/// The whole command line.
pub fn bank_command<'a>(alloc: Global) -> Result<Command<'a>, AllocError>
    ensures { IfOk result (λ bank. app_of bank ≡ bank_app) }
{
    let bank = with_command(bank_alone(alloc), init_command(alloc));
    let bank = with_command(bank, load_command(alloc));
    let bank = with_command(bank, command_on_file(alloc, "post", counter::POST));
    let bank = with_command(bank, drive_command(alloc));
    let bank = with_command(bank, command_on_file(alloc, "audit", books::AUDIT));
    let bank = with_command(bank, statement_command(alloc));
    let bank = with_command(bank, statements_command(alloc));
    let bank = with_command(bank, command_on_file(alloc, "replay", books::REPLAY));
    let bank = with_command(bank, digest_command(alloc));
    let bank = with_command(bank, export_command(alloc));
    let bank = with_command(bank, log_command(alloc));
    let bank = with_command(bank, command_on_file(alloc, "plan", books::PLAN));
    let bank = with_command(bank, follow_command(alloc));
    let bank = with_command(bank, serve_command(alloc));
    let bank = with_command(bank, command_on_file(alloc, "migrate", books::MIGRATE));
    let bank = with_command(bank, command_on_file(alloc, "seal", books::SEAL));
    let bank = with_command(bank, why_command(alloc));
    let bank = with_command(bank, command_alone(alloc, "encode", counter::ENCODE));
    with_command(bank, decode_command(alloc))
}

// The command line with one more command, where both could be made. No caller has to let go of one where
// the other fails, which keeps their proofs short.
fn with_command<'a>(
    bank: Result<Command<'a>, AllocError>,
    command: Result<Command<'a>, AllocError>,
) -> Result<Command<'a>, AllocError>
    ensures { (before app : App) → IfOk bank.entry (λ bank. app_of bank ≡ before)
        → IfOk command.entry (IsApp app) → IfOk result (λ built. app_of built ≡ with_subcommand before app.top) }
{
    bank?.subcommand(command?)
}

// The command line with no command yet. Its usage names it `bank`, whatever the first word is.
fn bank_alone<'a>(alloc: Global) -> Result<Command<'a>, AllocError>
    ensures { IfOk result (λ bank. app_of bank ≡ bank_alone) }
{
    Command::new(alloc, "bank")
        .version(texts::VERSION)
        .about(texts::BANK)
        .long_about(texts::BANK_AT_LENGTH)
        .after_help(texts::BANK_EXAMPLE)
        .after_long_help(texts::BANK_DETAILS)
        .subcommand_required(true)
        .arg_required_else_help(true)
        .bin_name("bank")
}

// A command of this name with its texts, which takes FILE first.
fn command_on_file<'a>(
    alloc: Global,
    name: &'a str,
    said: CommandTexts,
) -> Result<Command<'a>, AllocError>
    ensures { IfOk result (IsApp (with_rule (new_app name.now) file_rule)) }
{
    Command::new(alloc, name)
        .about(said.about)
        .long_about(said.at_length)
        .after_long_help(said.details)
        .arg(required_argument(alloc, "file", "FILE", texts::FILE))
}

// The command with one more argument, where it could be made.
fn with_argument<'a>(
    command: Result<Command<'a>, AllocError>,
    argument: Arg<'a>,
) -> Result<Command<'a>, AllocError>
    requires { argument.global ≡ false }
    ensures { (app : App) (rule : Rule) → IfOk command.entry (IsApp app) → rule_of argument.entry ≡ rule
        → IfOk result (IsApp (with_rule app rule)) }
{
    command?.arg(argument)
}

fn init_command<'a>(alloc: Global) -> Result<Command<'a>, AllocError>
    ensures { IfOk result (IsApp init_app) }
{
    let init = command_on_file(alloc, "init", counter::INIT)?;
    Ok(init.after_help(counter::INIT_EXAMPLE))
}

fn load_command<'a>(alloc: Global) -> Result<Command<'a>, AllocError>
    ensures { IfOk result (IsApp load_app) }
{
    let load = command_on_file(alloc, "load", counter::LOAD);
    let plan = required_argument(alloc, "plan", "CSV", texts::PLAN_FILE);
    with_argument(load, plan)
}

fn drive_command<'a>(alloc: Global) -> Result<Command<'a>, AllocError>
    ensures { IfOk result (IsApp drive_app) }
{
    let drive = command_on_file(alloc, "drive", counter::DRIVE);
    let seed = number_option(alloc, "seed", "S", 0, u64::MAX, texts::SEED);
    let count = number_option(alloc, "count", "N", 1, MAX_DRIVEN, texts::COUNT);
    with_argument(with_argument(drive, seed), count)
}

fn statement_command<'a>(alloc: Global) -> Result<Command<'a>, AllocError>
    ensures { IfOk result (IsApp statement_app) }
{
    with_query(alloc, statement_of_account(alloc))
}

// The same without options.
fn statement_of_account<'a>(alloc: Global) -> Result<Command<'a>, AllocError>
    ensures { IfOk result (IsApp account_app) }
{
    let statement = command_on_file(alloc, "statement", books::STATEMENT)?;
    let account = required_argument(alloc, "account", "ACCOUNT", texts::ACCOUNT).value_parser(
        ValueParser::unsigned(1, MAX_ACCOUNT),
    );
    statement.after_help(books::STATEMENT_EXAMPLE).arg(account)
}

fn statements_command<'a>(alloc: Global) -> Result<Command<'a>, AllocError>
    ensures { IfOk result (IsApp statements_app) }
{
    let statements = command_on_file(alloc, "statements", books::STATEMENTS);
    with_query(alloc, statements)
}

// The command with the options that say what a statement shows, where it could be made.
fn with_query<'a>(
    alloc: Global,
    statement: Result<Command<'a>, AllocError>,
) -> Result<Command<'a>, AllocError>
    ensures { (app : App) → IfOk statement.entry (IsApp app) → IfOk result (IsApp (with_query app)) }
{
    let reference = optional_text(alloc, "reference", "TEXT", texts::OF_REFERENCE);
    let csv = flag(alloc, "csv", texts::AS_CSV);
    with_argument(with_argument(with_days(alloc, statement), reference), csv)
}

// The command with the options that say of which days.
fn with_days<'a>(
    alloc: Global,
    statement: Result<Command<'a>, AllocError>,
) -> Result<Command<'a>, AllocError>
    ensures { (app : App) → IfOk statement.entry (IsApp app) → IfOk result (IsApp (with_days app)) }
{
    let from = optional_text(alloc, "from", "DATE", texts::FROM);
    let to = optional_text(alloc, "to", "DATE", texts::TO);
    let zone = optional_text(alloc, "zone", "ZONE", texts::ZONE);
    with_argument(with_argument(with_argument(statement, from), to), zone)
}

fn digest_command<'a>(alloc: Global) -> Result<Command<'a>, AllocError>
    ensures { IfOk result (IsApp digest_app) }
{
    let digest = command_on_file(alloc, "digest", books::DIGEST)?;
    let requests = required_argument(alloc, "requests", "N", texts::REQUESTS).value_parser(
        ValueParser::unsigned(0, u64::MAX),
    );
    digest.arg(requests)
}

fn export_command<'a>(alloc: Global) -> Result<Command<'a>, AllocError>
    ensures { IfOk result (IsApp export_app) }
{
    let export = command_on_file(alloc, "export", books::EXPORT);
    let after = optional_number(alloc, "after", "N", 0, u64::MAX, texts::AFTER);
    with_argument(export, after)
}

fn log_command<'a>(alloc: Global) -> Result<Command<'a>, AllocError>
    ensures { IfOk result (IsApp log_app) }
{
    let log = command_on_file(alloc, "log", books::LOG);
    let after = optional_number(alloc, "after", "N", 0, u64::MAX, texts::AFTER);
    with_argument(log, after)
}

fn follow_command<'a>(alloc: Global) -> Result<Command<'a>, AllocError>
    ensures { IfOk result (IsApp follow_app) }
{
    let follow = command_on_file(alloc, "follow", books::FOLLOW);
    let plan = required_argument(alloc, "plan", "CSV", texts::PLAN_FILE);
    with_argument(follow, plan)
}

fn serve_command<'a>(alloc: Global) -> Result<Command<'a>, AllocError>
    ensures { IfOk result (IsApp serve_app) }
{
    let serve = alone_command(alloc);
    let quorum = optional_text(alloc, "quorum", "HOST:PORT", texts::QUORUM);
    let name = optional_text(alloc, "name", "NAME", texts::LOG_NAME);
    let standby = flag(alloc, "standby", texts::STANDBY);
    with_argument(with_argument(with_argument(serve, quorum), name), standby)
}

// The same without the options of a log that machines share.
fn alone_command<'a>(alloc: Global) -> Result<Command<'a>, AllocError>
    ensures { IfOk result (IsApp alone_app) }
{
    let serve = command_on_file(alloc, "serve", counter::SERVE);
    let address = required_argument(alloc, "address", "ADDR", texts::ADDRESS);
    let connections = optional_number(
        alloc,
        "connections",
        "N",
        1,
        MAX_CONNECTIONS,
        texts::CONNECTIONS,
    );
    with_argument(with_argument(serve, address), connections)
}

// `help` shows it under the name `faults` too.
fn why_command<'a>(alloc: Global) -> Result<Command<'a>, AllocError>
    ensures { IfOk result (IsApp why_app) }
{
    command_on_file(alloc, "why", books::WHY)?.alias("faults")
}

fn decode_command<'a>(alloc: Global) -> Result<Command<'a>, AllocError>
    ensures { IfOk result (IsApp decode_app) }
{
    let decode = command_alone(alloc, "decode", counter::DECODE);
    let sheet = optional_text(alloc, "sheet", "FILE", texts::SHEET);
    with_argument(
        with_argument(decode, flag(alloc, "words", texts::WORDS)),
        sheet,
    )
}

// A command of this name with its texts, which takes no argument.
fn command_alone<'a>(
    alloc: Global,
    name: &'a str,
    said: CommandTexts,
) -> Result<Command<'a>, AllocError>
    ensures { IfOk result (IsApp (new_app name.now)) }
{
    Ok(
        Command::new(alloc, name)
            .about(said.about)
            .long_about(said.at_length)
            .after_long_help(said.details),
    )
}

// A required positional argument, which takes one value.
fn required_argument<'a>(alloc: Global, id: &'a str, value_name: &'a str, help: &'a str) -> Arg<'a>
    ensures rule { rule_of result ≡ required_rule id.now }
    ensures local { result.global ≡ false }
{
    Arg::new(alloc, id)
        .required(true)
        .value_name(value_name)
        .help(help)
}

// A required option `--NAME N`, for a whole number in a range.
fn number_option<'a>(
    alloc: Global,
    name: &'a str,
    value_name: &'a str,
    least: u64,
    most: u64,
    help: &'a str,
) -> Arg<'a>
    ensures rule { rule_of result ≡ number_rule name.now least most }
    ensures local { result.global ≡ false }
{
    required_argument(alloc, name, value_name, help)
        .long(name)
        .value_parser(ValueParser::unsigned(least, most))
}

// An option for a number that may be left out.
fn optional_number<'a>(
    alloc: Global,
    name: &'a str,
    value_name: &'a str,
    least: u64,
    most: u64,
    help: &'a str,
) -> Arg<'a>
    ensures rule { rule_of result ≡ optional_rule name.now least most }
    ensures local { result.global ≡ false }
{
    number_option(alloc, name, value_name, least, most, help).required(false)
}

// An option `--NAME TEXT` that may be left out.
fn optional_text<'a>(alloc: Global, name: &'a str, value_name: &'a str, help: &'a str) -> Arg<'a>
    ensures rule { rule_of result ≡ text_rule name.now }
    ensures local { result.global ≡ false }
{
    Arg::new(alloc, name)
        .value_name(value_name)
        .long(name)
        .help(help)
}

// An option `--NAME` that has no value.
fn flag<'a>(alloc: Global, name: &'a str, help: &'a str) -> Arg<'a>
    ensures rule { rule_of result ≡ flag_rule name.now }
    ensures local { result.global ≡ false }
{
    Arg::new(alloc, name)
        .long(name)
        .action(ArgAction::SetTrue)
        .help(help)
}
