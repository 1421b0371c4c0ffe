//! The lines of accounts, tellers and branches.
ghost use Rattle.std.specs.Prelude.{◌≡◌, ◌++◌, ℕ, List, [], IfOk, OnOk, string_bytes};
ghost use Rattle.posting_rules.specs.believed.Commands.{Command, opened_with};
ghost use Rattle.posting_rules.specs.believed.Counter.{ShowsLog};
ghost use Rattle.counter_http.specs.Listing.{listed, names_of, shown_line};
ghost use Rattle.counter_http.specs.Holders.{holder_line};
ghost use Rattle.counter_http.specs.believed.Answers.{account_line, branch_line, plan_line, teller_line};
ghost use Rattle.counter_http.specs.Turns.{IsAsked};

use crate::holders::Holder;
use message_records::{Account, Cents, Teller};
use posting_core::{BranchLine, Counter, Fault};
use std::alloc::{AllocError, Global};

// The line of an account.
fn line_of_account(alloc: Global, account: Account, balance: Cents) -> Result<String, AllocError>
    ensures { IfOk result (λ text. string_bytes text ≡ account_line account balance) }
{
    let number = account.get();
    let cents = balance.get();
    format!(in alloc; "account {number} balance {cents}\n")
}

// The line of a teller.
fn line_of_teller(alloc: Global, teller: Teller, balance: Cents) -> Result<String, AllocError>
    ensures { IfOk result (λ text. string_bytes text ≡ teller_line teller balance) }
{
    let number = teller.get();
    let cents = balance.get();
    format!(in alloc; "teller {number} balance {cents}\n")
}

/// The line of an account or a teller.
pub(crate) fn line_of_holder(
    alloc: Global,
    holder: &Holder,
    balance: Cents,
) -> Result<String, AllocError>
    ensures { IfOk result (λ text. string_bytes text ≡ holder_line holder.now balance) }
{
    match holder {
        Holder::Account(account) => line_of_account(alloc, *account, balance),
        Holder::Teller(teller) => line_of_teller(alloc, *teller, balance),
    }
}

// The line of a branch.
fn line_of_branch(alloc: Global, line: &BranchLine) -> Result<String, AllocError>
    ensures { IfOk result (λ text. string_bytes text ≡ branch_line line.now.branch line.now.accounts
        line.now.balance) }
{
    let branch = line.branch.get();
    let accounts = line.accounts;
    let balance = line.balance.get();
    format!(in alloc; "{branch:>6} {accounts:>7} {balance:>14}\n")
}

// The line of a branch in a plan.
fn line_of_plan(alloc: Global, line: &BranchLine) -> Result<String, AllocError>
    ensures { IfOk result (λ text. string_bytes text ≡ plan_line line.now.branch
        (opened_with line.now.accounts line.now.floor)) }
{
    let branch = line.branch.get();
    let accounts = line.accounts;
    let Some(floor) = line.floor else {
        return format!(in alloc; "{branch},{accounts},\n");
    };
    let lowest = floor.get();
    format!(in alloc; "{branch},{accounts},{lowest}\n")
}

/// What is listed of the open branches.
#[derive(Clone, Copy)]
pub(crate) enum Listing {
    /// The number of each, its count of accounts and its balance.
    Balances,
    /// The number of each, its count of accounts and its floor, below their names.
    Plan,
}

// The line of a branch.
fn line_of(alloc: Global, listing: Listing, line: &BranchLine) -> Result<String, AllocError>
    ensures { IfOk result (λ text. string_bytes text ≡ shown_line listing line.now) }
{
    match listing {
        Listing::Balances => line_of_branch(alloc, line),
        Listing::Plan => line_of_plan(alloc, line),
    }
}

// Puts the line of a branch behind those before it.
fn put_line(
    alloc: Global,
    listing: Listing,
    line: &BranchLine,
    body: &mut String,
) -> Result<(), AllocError>
    ensures { OnOk result (string_bytes body.new ≡ string_bytes body.old ++ shown_line listing line.now) }
{
    body.push_str(line_of(alloc, listing, line)?.as_str())
}

// The lines, below their names if they have some.
fn named(alloc: Global, listing: Listing, lines: String) -> Result<String, AllocError>
    ensures { IfOk result (λ text. string_bytes text ≡ names_of listing ++ string_bytes lines) }
{
    match listing {
        Listing::Balances => Ok(lines),
        Listing::Plan => format!(in alloc; "branch,accounts,floor\n{lines}"),
    }
}

/// The lines of all open branches, ascending.
pub(crate) fn all_lines<C: Counter>(
    alloc: Global,
    listing: Listing,
    bank: &mut C,
) -> Result<String, Fault>
    ensures lines { IfOk result (λ body. (C.seen bank.new).honest
        → (log : List Command) → ShowsLog (C.seen bank.old) log → string_bytes body ≡ listed listing log) }
    ensures asked { IsAsked C.seen C.reason bank.old bank.new result }
    ensures spares { C.spares bank.old bank.new }
{
    let mut body = String::new(alloc);
    let mut after = 0;
    while let Some(line) = bank.next_branch(after)? {
        put_line(alloc, listing, &line, &mut body)?;
        after = line.branch.get() as u32;
    }
    Ok(named(alloc, listing, body)?)
}
