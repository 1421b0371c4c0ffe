//! The line of a reply.
ghost use Rattle.std.specs.Prelude.{◌≡◌, IfOk, string_bytes};
ghost use Rattle.posting_sheets.specs.Replies.{sign_text};
ghost use Rattle.posting_sheets.specs.Walking.{line_with};

use crate::money::Money;
use crate::quoting::reference_field;
use message_records::{Cents, Reference, Reply, Request};
use std::alloc::{AllocError, Global};
use std::fmt;

// An amount, as the sheet writes money.
#[derive(Clone, Copy)]
struct ShownMoney {
    money: Money,
    cents: Cents,
}

impl fmt::Display for ShownMoney {
    ghost use Rattle.std.specs.Prelude.{Some};
    ghost use Rattle.posting_sheets.specs.Replies.{money_text};

    ghost output = { λ shown. Some (money_text shown.money shown.cents) };

    fn fmt<W: fmt::Write>(&self, f: &mut fmt::Formatter<W>) -> fmt::Result {
        let cents = self.cents.get();
        match self.money {
            Money::Cents => write!(f, "{cents}"),
            Money::Decimals => {
                let sign = sign_of(cents);
                let size = cents.unsigned_abs();
                let whole = size / 100;
                let tens = size / 10 % 10;
                let ones = size % 10;
                write!(f, "{sign}{whole}.{tens}{ones}")
            }
        }
    }
}

// A minus before an amount below zero.
fn sign_of(cents: i64) -> &'static str
    ensures { result.now ≡ sign_text cents }
{
    if cents < 0 { "-" } else { "" }
}

// The five fields of a request, empty where there is none.
#[derive(Clone, Copy)]
struct ShownRequest {
    money: Money,
    request: Option<Request>,
}

impl fmt::Display for ShownRequest {
    ghost use Rattle.std.specs.Prelude.{Some};
    ghost use Rattle.posting_sheets.specs.Replies.{request_text};

    ghost output = { λ shown. Some (request_text shown.money shown.request) };

    fn fmt<W: fmt::Write>(&self, f: &mut fmt::Formatter<W>) -> fmt::Result {
        let Some(request) = self.request else {
            return write!(f, ",,,,");
        };
        let account = request.account();
        let teller = request.teller();
        let branch = request.branch();
        let number = request.number();
        let delta = ShownMoney {
            money: self.money,
            cents: request.delta(),
        };
        write!(f, "{account},{teller},{branch},{number},{delta}")
    }
}

// A balance, empty where there is none.
#[derive(Clone, Copy)]
struct ShownBalance {
    money: Money,
    balance: Option<Cents>,
}

impl fmt::Display for ShownBalance {
    ghost use Rattle.std.specs.Prelude.{Some};
    ghost use Rattle.posting_sheets.specs.Replies.{balance_text};

    ghost output = { λ shown. Some (balance_text shown.money shown.balance) };

    fn fmt<W: fmt::Write>(&self, f: &mut fmt::Formatter<W>) -> fmt::Result {
        match self.balance {
            Some(cents) => {
                let balance = ShownMoney {
                    money: self.money,
                    cents,
                };
                write!(f, "{balance}")
            }
            None => write!(f, ""),
        }
    }
}

/// The row of a posting: its number, counted from 1, and the posting's reference.
#[derive(Clone, Copy)]
pub(crate) struct PostingRow {
    pub(crate) number: u64,
    pub(crate) reference: Option<Reference>,
}

// The fields of a reply.
#[derive(Clone, Copy)]
struct ShownReply {
    money: Money,
    reply: Reply,
}

/// Its code and its name, the request, and the account's new balance.
impl fmt::Display for ShownReply {
    ghost use Rattle.std.specs.Prelude.{Some};
    ghost use Rattle.posting_sheets.specs.Replies.{reply_text};

    ghost output = { λ shown. Some (reply_text shown.money shown.reply) };

    fn fmt<W: fmt::Write>(&self, f: &mut fmt::Formatter<W>) -> fmt::Result {
        let outcome = self.reply.outcome();
        let code = outcome.code();
        let request = ShownRequest {
            money: self.money,
            request: self.reply.request(),
        };
        let balance = ShownBalance {
            money: self.money,
            balance: self.reply.balance(),
        };
        write!(f, "{code},{outcome},{request},{balance}")
    }
}

// A reply as a line of the sheet, with the row that it answers, where there is one.
#[derive(Clone, Copy)]
struct ReplyLine {
    reply: ShownReply,
    row: Option<PostingRow>,
}

impl fmt::Display for ReplyLine {
    ghost use Rattle.std.specs.Prelude.{Some};
    ghost use Rattle.posting_sheets.specs.Walking.{line_with};

    ghost output = { λ line. Some (line_with line.reply.money line.row line.reply.reply) };

    fn fmt<W: fmt::Write>(&self, f: &mut fmt::Formatter<W>) -> fmt::Result {
        let reply = self.reply;
        match self.row {
            Some(row) => {
                let number = row.number;
                let reference = reference_field(&row.reference);
                write!(f, "{reply},{number},{reference}\n")
            }
            None => write!(f, "{reply}\n"),
        }
    }
}

/// The line of a reply, with the row that it answers, where there is one.
pub(crate) fn line_of(
    alloc: Global,
    money: Money,
    reply: &Reply,
    row: Option<PostingRow>,
) -> Result<String, AllocError>
    ensures { IfOk result (λ line. string_bytes line ≡ line_with money row reply.now) }
{
    let line = ReplyLine {
        reply: ShownReply {
            money,
            reply: *reply,
        },
        row,
    };
    line.to_string(alloc)
}
