//! What is to be done for a message, decided once by its path and its method.
ghost use Rattle.std.specs.Prelude.{◌≡◌, codes, bytes_eq};
ghost use Rattle.counter_http.specs.believed.Answers.{is_reading};
ghost use Rattle.counter_http.specs.Next.{asked};
ghost use Rattle.counter_http.specs.believed.Paths.{path_of};
ghost use Rattle.counter_http.specs.Tasks.{IsTaskOf, IsTaskOn};

use crate::fixed::{bad_request, healthy, not_found, not_taken};
use crate::holders::{Holder, account_in, teller_in};
use crate::lines::Listing;
use crate::next::{Whole, is_head};
use crate::places::place_in;
use crate::routes::{Route, Routes, path_of};
use crate::telling::Response;
use message_records::REQUEST_BYTES;

/// What is to be done for a message.
#[derive(Clone, Copy)]
pub(crate) enum Task<'b> {
    /// This is answered, without the bank.
    Say(Response<'static>),
    /// This record is submitted.
    Submit(&'b [u8; REQUEST_BYTES]),
    /// The balance of this account or teller is read.
    Balance(Holder),
    /// The open branches are read, and listed so.
    Branches(Listing),
    /// The entries of the log after so many are read.
    Entries(u64),
    /// The figures of the counter are told.
    Metrics,
}

// A method that submits.
fn is_post(method: &[u8]) -> bool
    ensures { result ≡ bytes_eq method.now (codes "POST") }
{
    method == b"POST".as_slice()
}

// A method that reads.
fn is_reading(method: &[u8]) -> bool
    ensures { result ≡ is_reading method.now }
{
    method == b"GET".as_slice() || is_head(method)
}

// Where a record is posted.
fn posting_task<'b>(message: &Whole<'b>) -> Task<'b>
    ensures { IsTaskOn (Some Route.Posting) (asked message.now) result }
{
    if !is_post(message.method) {
        return Task::Say(not_taken(b"POST"));
    }
    match message.body.as_array::<REQUEST_BYTES>() {
        Some(record) => Task::Submit(record),
        None => Task::Say(bad_request()),
    }
}

// At the path of an account.
fn account_task<'b>(message: &Whole<'b>, path: &[u8]) -> Task<'b>
    requires { path.now ≡ path_of message.now.target.now }
    ensures { IsTaskOn (Some Route.Account) (asked message.now) result }
{
    if !is_reading(message.method) {
        return Task::Say(not_taken(b"GET, HEAD"));
    }
    match account_in(path) {
        Some(account) => Task::Balance(Holder::Account(account)),
        None => Task::Say(not_found()),
    }
}

// At the path of a teller.
fn teller_task<'b>(message: &Whole<'b>, path: &[u8]) -> Task<'b>
    requires { path.now ≡ path_of message.now.target.now }
    ensures { IsTaskOn (Some Route.Teller) (asked message.now) result }
{
    if !is_reading(message.method) {
        return Task::Say(not_taken(b"GET, HEAD"));
    }
    match teller_in(path) {
        Some(teller) => Task::Balance(Holder::Teller(teller)),
        None => Task::Say(not_found()),
    }
}

// Where the branches are read.
fn branches_task<'b>(message: &Whole<'b>) -> Task<'b>
    ensures { IsTaskOn (Some Route.Branches) (asked message.now) result }
{
    if is_reading(message.method) {
        Task::Branches(Listing::Balances)
    } else {
        Task::Say(not_taken(b"GET, HEAD"))
    }
}

// Where it is asked whether the counter answers.
fn health_task<'b>(message: &Whole<'b>) -> Task<'b>
    ensures { IsTaskOn (Some Route.Health) (asked message.now) result }
{
    if is_reading(message.method) {
        Task::Say(healthy())
    } else {
        Task::Say(not_taken(b"GET, HEAD"))
    }
}

// At the path of the log.
fn log_task<'b>(message: &Whole<'b>, path: &[u8]) -> Task<'b>
    requires { path.now ≡ path_of message.now.target.now }
    ensures { IsTaskOn (Some Route.Log) (asked message.now) result }
{
    if !is_reading(message.method) {
        return Task::Say(not_taken(b"GET, HEAD"));
    }
    match place_in(path) {
        Some(after) => Task::Entries(after),
        None => Task::Say(not_found()),
    }
}

// Where the branches are read as a plan.
fn plan_task<'b>(message: &Whole<'b>) -> Task<'b>
    ensures { IsTaskOn (Some Route.Plan) (asked message.now) result }
{
    if is_reading(message.method) {
        Task::Branches(Listing::Plan)
    } else {
        Task::Say(not_taken(b"GET, HEAD"))
    }
}

// Where the figures are asked for.
fn metrics_task<'b>(message: &Whole<'b>) -> Task<'b>
    ensures { IsTaskOn (Some Route.Metrics) (asked message.now) result }
{
    if is_reading(message.method) {
        Task::Metrics
    } else {
        Task::Say(not_taken(b"GET, HEAD"))
    }
}

/// What is to be done for a message.
pub(crate) fn task_of<'b>(message: &Whole<'b>, routes: &Routes) -> Task<'b>
    ensures { IsTaskOf (asked message.now) result }
{
    let path = path_of(message.target);
    match routes.find(path) {
        None => Task::Say(not_found()),
        Some(Route::Posting) => posting_task(message),
        Some(Route::Account) => account_task(message, path),
        Some(Route::Teller) => teller_task(message, path),
        Some(Route::Branches) => branches_task(message),
        Some(Route::Health) => health_task(message),
        Some(Route::Log) => log_task(message, path),
        Some(Route::Plan) => plan_task(message),
        Some(Route::Metrics) => metrics_task(message),
    }
}
