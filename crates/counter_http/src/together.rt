//! Clients that are served at once, in one thread: the records that they sent while the bank was busy are
//! submitted together, by one call. So the more clients wait for a commit, the more records the next one has.
//! Nobody waits for more records.
ghost use Rattle.std.specs.Prelude.{◌≡◌, ◌≢◌, ◌<◌, ◌≤◌, ℕ, [], OnOk, length};
ghost use Rattle.std.specs.List.{AllByRecursion, AllZip};
ghost use Rattle.counter_http.specs.Connections.{known_ends};
ghost use Rattle.counter_http.specs.together.Crowd.{Closes, GoesOn, HaveMoved, IsLeftOf, ServesRounds, TakesIn};
ghost use Rattle.counter_http.specs.together.Rounds.{AllDiffer, AnswersRound, given_up, numbers};
ghost use Rattle.counter_http.specs.together.Standing.{Writes};
ghost use Rattle.counter_http.specs.together.Submitting.{Gathers, IsBatchOf, IsElsewhere, IsFrom, LooksAt, LooksOver, MayAdd};
ghost use Rattle.counter_http.specs.together.Tracing.{ServesTogether};

use crate::batch::Batch;
use crate::client::Client;
use crate::clients::{Clients, Readiness};
use crate::figures::{Figures, Tally};
use crate::listen_fault::ListenFault;
use crate::parting::Parting;
use crate::routes::Routes;
use posting_core::{Clock, Fault, Followed, Sink, Source};
use std::alloc::Global;

/// How many clients are served at once.
pub const MOST_CLIENTS: usize = 256;

// What a round leaves: the place whose clients are the first in the next one, and how many postings were done.
#[derive(Clone, Copy)]
struct Answered {
    next: usize,
    postings: usize,
}

// Takes the clients in that wait for it, where there is room for them.
fn take_in<D: Clients>(
    alloc: Global,
    listener: &mut D,
    came: &mut u64,
    connections: u64,
    here: &mut Vec<Client<D::Reader, D::Writer>>,
) -> Result<(), ListenFault>
    requires { came.old ≤ connections }
    ensures { TakesIn connections (record { calls = D.calls listener.old; came = came.old; here = here.old.items })
        (record { calls = D.calls listener.new; came = came.new; here = here.new.items }) result }
{
    'openings: while *came < connections && here.len() < MOST_CLIENTS {
        match listener.open(*came) {
            Ok(Some((reader, writer))) => {
                let client = Client::new(alloc, *came, reader, writer);
                *came += 1;
                if let Err(refused) = here.push(client) {
                    close(listener, refused.value, Parting::Memory);
                }
            }
            Ok(None) => return Ok(()),
            Err(_) => return Err(ListenFault::Network),
        }
    }
    Ok(())
}

// Closes the connection of a client, for this cause, unless it is over.
fn close<D: Clients>(listener: &mut D, client: Client<D::Reader, D::Writer>, cause: Parting)
    ensures { Closes (D.calls listener.old) (D.calls listener.new) client cause }
{
    let number = client.number();
    let (reader, writer, _) = client.part(cause);
    listener.close(number, reader, writer);
}

// Writes what is left of its answers, and then reads, where its stream may be ready.
fn go_on_with<R: Source + Drop, W: Sink + Drop>(
    client: &mut Client<R, W>,
    readiness: Option<&Readiness>,
)
    ensures { GoesOn (known_ends R.remaining R.calls R.beside W.contents W.calls) client.old client.new }
{
    match readiness {
        Some(Readiness::Waits | Readiness::GivenUp) => {}
        _ => {
            client.write();
            client.read();
        }
    }
}

// Goes on with each client.
fn go_on<R: Source + Drop, W: Sink + Drop>(here: &mut [Client<R, W>], readiness: &[Readiness])
    ensures { AllZip (GoesOn (known_ends R.remaining R.calls R.beside W.contents W.calls)) here.old here.new }
{
    for (place, client) in here.iter_mut().enumerate() {
        go_on_with(client, readiness.get(place));
    }
}

// Closes the connections of those that are given up.
fn give_up<D: Clients>(
    listener: &mut D,
    here: &mut Vec<Client<D::Reader, D::Writer>>,
    readiness: &[Readiness],
)
    ensures { (came : ℕ) → HaveMoved ⊥ (given_up (numbers here.old.items) readiness.now)
        (record { calls = D.calls listener.old; came = came; here = here.old.items })
        (record { calls = D.calls listener.new; came = came; here = here.new.items }) }
{
    let mut place = 0;
    for found in readiness {
        if place >= here.len() {
            return;
        }
        match found {
            Readiness::GivenUp => {
                let client = here.remove(place);
                close(listener, client, Parting::GivenUp);
            }
            _ => place += 1,
        }
    }
}

// Answers what stands at the front of what was read from the client at a place, and puts its record into the
// batch, where there is room.
fn gather_at<R: Source + Drop, W: Sink + Drop, C: Followed>(
    alloc: Global,
    routes: &Routes,
    figures: &Figures,
    here: &mut Vec<Client<R, W>>,
    place: usize,
    batch: &mut Batch,
    bank: &mut C,
) -> Result<(), Fault>
    requires within { place < length here.old.items }
    requires others { AllDiffer (numbers here.old.items) }
    requires gives { IsBatchOf here.old.items batch.old }
    requires elsewhere { AllByRecursion (IsElsewhere place) batch.old.senders.items }
    ensures gathers { Gathers C.seen C.reason (known_ends R.remaining R.calls R.beside W.contents W.calls)
        figures.now bank.old bank.new here.old.items here.new.items batch.new result }
    ensures adds { MayAdd batch.old batch.new place }
    ensures looks { OnOk result (LooksAt here.old.items here.new.items place batch.new) }
    ensures spares { C.spares bank.old bank.new }
{
    if here[place].is_idle() {
        return Ok(());
    }
    match here[place].next_record(alloc, routes, figures, bank)? {
        Some(found) => {
            batch.add(place, &found);
            Ok(())
        }
        None => Ok(()),
    }
}

// So it does at some places, one after another.
fn gather<R: Source + Drop, W: Sink + Drop, C: Followed>(
    alloc: Global,
    routes: &Routes,
    figures: &Figures,
    here: &mut Vec<Client<R, W>>,
    from: usize,
    to: usize,
    batch: &mut Batch,
    bank: &mut C,
) -> Result<(), Fault>
    requires order { from ≤ to }
    requires within { to ≤ length here.old.items }
    requires others { AllDiffer (numbers here.old.items) }
    requires gives { IsBatchOf here.old.items batch.old }
    requires beyond { AllByRecursion (IsFrom to) batch.old.senders.items }
    ensures gathers { Gathers C.seen C.reason (known_ends R.remaining R.calls R.beside W.contents W.calls)
        figures.now bank.old bank.new here.old.items here.new.items batch.new result }
    ensures places { OnOk result (AllByRecursion (IsFrom from) batch.new.senders.items) }
    ensures looks { OnOk result (LooksOver here.old.items here.new.items from to batch.old batch.new) }
    ensures spares { C.spares bank.old bank.new }
{
    for place in from..to {
        gather_at(alloc, routes, figures, here, place, batch, bank)?;
    }
    Ok(())
}

// Answers messages of each client: their records together, those of the clients from a place on first. Clients have been
// served for so many seconds. The batch is made once for all rounds, since to make one takes as long as to write 8 KB.
fn answer<R: Source + Drop, W: Sink + Drop, K: Clock, C: Followed>(
    alloc: Global,
    routes: &Routes,
    here: &mut Vec<Client<R, W>>,
    first: usize,
    batch: &mut Batch,
    tally: &mut Tally,
    seconds: u64,
    clock: &mut K,
    bank: &mut C,
) -> Result<Answered, Fault>
    requires others { AllDiffer (numbers here.old.items) }
    ensures answers { AnswersRound C.seen C.reason (known_ends R.remaining R.calls R.beside W.contents W.calls)
        (K.readings clock.old) (K.readings clock.new) bank.old bank.new here.old.items here.new.items tally.old
        tally.new seconds result }
    ensures spares { C.spares bank.old bank.new }
{
    batch.clear();
    let count = here.len();
    let figures = Figures {
        tally: *tally,
        connections: count as u64,
        seconds,
    };
    let first = first.min(count);
    gather(alloc, routes, &figures, here, first, count, batch, bank)?;
    gather(alloc, routes, &figures, here, 0, first, batch, bank)?;
    batch.submit(here, tally, clock, bank)?;
    Ok(Answered {
        next: batch.next(),
        postings: batch.count(),
    })
}

// Closes the connections of those for whom nothing more is done.
fn part<D: Clients>(listener: &mut D, here: &mut Vec<Client<D::Reader, D::Writer>>)
    ensures leave { (came : ℕ) → HaveMoved ⊥ [] (record { calls = D.calls listener.old; came = came; here = here.old.items })
        (record { calls = D.calls listener.new; came = came; here = here.new.items }) }
    ensures rest { AllByRecursion (IsLeftOf here.old.items) here.new.items }
{
    let mut place = 0;
    'clients: while place < here.len() {
        if here[place].is_over() {
            let client = here.remove(place);
            close(listener, client, Parting::Stopped);
        } else {
            place += 1;
        }
    }
}

// Closes the connections of all.
fn part_from_all<D: Clients>(listener: &mut D, here: &mut Vec<Client<D::Reader, D::Writer>>)
    ensures leave { (came : ℕ) → HaveMoved (here.old.items ≢ []) []
        (record { calls = D.calls listener.old; came = came; here = here.old.items })
        (record { calls = D.calls listener.new; came = came; here = here.new.items }) }
    ensures none { here.new.items ≡ [] }
{
    'clients: while let Some(client) = here.pop() {
        close(listener, client, Parting::Stopped);
    }
}

// Writes answers as far as the clients take them.
fn write<R: Source + Drop, W: Sink + Drop>(here: &mut [Client<R, W>])
    ensures { AllZip (Writes (known_ends R.remaining R.calls R.beside W.contents W.calls)) here.old here.new }
{
    for client in here.iter_mut() {
        client.write();
    }
}

// Serves clients, round by round.
fn serve_rounds<D: Clients, K: Clock, C: Followed>(
    alloc: Global,
    listener: &mut D,
    connections: u64,
    routes: &Routes,
    here: &mut Vec<Client<D::Reader, D::Writer>>,
    readiness: &mut Vec<Readiness>,
    batch: &mut Batch,
    clock: &mut K,
    bank: &mut C,
) -> Result<(), ListenFault>
    requires { here.old.items ≡ [] }
    ensures serves { ServesRounds C.seen C.reason
        (known_ends D.Reader.remaining D.Reader.calls D.Reader.beside D.Writer.contents D.Writer.calls)
        (D.calls listener.old) (D.calls listener.new) (K.readings clock.old) (K.readings clock.new) bank.old bank.new
        connections here.new.items result }
    ensures spares { C.spares bank.old bank.new }
{
    let mut tally = Tally::new();
    let mut came = 0;
    let mut first = 0;
    'rounds: for _ in 0..u64::MAX {
        if came == connections && here.is_empty() {
            return Ok(());
        }
        listener.wait(here, came < connections, readiness);
        go_on(here, readiness);
        give_up(listener, here, readiness);
        let taken_in = take_in(alloc, listener, &mut came, connections, here);
        let seconds = listener.seconds();
        let answered = answer(
            alloc, routes, here, first, batch, &mut tally, seconds, clock, bank,
        );
        write(here);
        part(listener, here);
        match answered {
            Ok(it) => {
                first = it.next;
                listener.posted(it.postings);
            }
            Err(fault) => return Err(ListenFault::Bank(fault)),
        }
        if let Err(fault) = taken_in {
            return Err(fault);
        }
    }
    Err(ListenFault::Network)
}

/// Serves so many clients, up to `MOST_CLIENTS` of them at once. In each round the streams that are ready are
/// read and written once, without waiting; of each client a record that is whole then and one message before it
/// are answered, or two others, and the records, up to `RECORDS_PER_BATCH`, are submitted together.
///
/// A client that fails, is given up or lacks memory is no fault: the others are served on.
///
/// # Errors
///
/// - [`ListenFault::Network`]: an opening failed, and those who were here had their answers as far as they took them; or
///   2^64 - 1 rounds were made.
/// - [`ListenFault::Bank`]: the bank refused a call for another cause than memory, and this is that call's
///   fault; or, with `Memory`, memory was refused before any client was taken in.
pub fn serve_together<D: Clients, K: Clock, C: Followed>(
    alloc: Global,
    listener: &mut D,
    connections: u64,
    clock: &mut K,
    bank: &mut C,
) -> Result<(), ListenFault>
    ensures serves { ServesTogether C.seen C.reason
        (known_ends D.Reader.remaining D.Reader.calls D.Reader.beside D.Writer.contents D.Writer.calls)
        (D.calls listener.old) (D.calls listener.new) (K.readings clock.old) (K.readings clock.new) bank.old bank.new
        connections result }
    ensures spares { C.spares bank.old bank.new }
{
    let Some(routes) = Routes::new(alloc) else {
        return Err(ListenFault::Bank(Fault::Memory));
    };
    let mut here = Vec::new(alloc);
    let mut readiness = Vec::new(alloc);
    let mut batch = Batch::new();
    let served = serve_rounds(
        alloc,
        listener,
        connections,
        &routes,
        &mut here,
        &mut readiness,
        &mut batch,
        clock,
        bank,
    );
    part_from_all(listener, &mut here);
    listener.ended();
    served
}
