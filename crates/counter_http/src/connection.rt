//! A connection, from its first byte to its last answer.
ghost use Rattle.std.specs.Prelude.{◌≡◌, ◌≤◌, ◌-◌, IfErr, length, take, drop};
ghost use Rattle.posting_core.specs.Stream.{IsOfCall};
ghost use Rattle.counter_http.specs.Ends.{ServeFaultIsOfItsEnd};
ghost use Rattle.counter_http.specs.Outputs.{OutputsAnswers, SurvivesServing};
ghost use Rattle.counter_http.specs.Prompt.{IsPrompt};
ghost use Rattle.counter_http.specs.believed.Serving.{ServesConnection};
ghost use Rattle.counter_http.specs.Turns.{IfRefused};

use crate::answers::{answer_message, refuse};
use crate::fault::ServeFault;
use crate::limits::BUFFER;
use crate::next::{Next, next_message};
use crate::routes::Routes;
use posting_core::transfer::{fill_buffer_beside, move_to_front};
use posting_core::{Clock, Followed, Sink, Source};
use std::alloc::Global;
use std::io::ErrorKind;

/// How many answers were written.
pub type Served = u128;

// The loop of `serve_connection`.
fn serve<R: Source, W: Sink, K: Clock, C: Followed>(
    alloc: Global,
    reader: &mut R,
    writer: &mut W,
    clock: &mut K,
    bank: &mut C,
    routes: &Routes,
    buffer: &mut [u8],
) -> Result<Served, ServeFault>
    requires { length buffer.old ≡ BUFFER }
    ensures served { ServesConnection C.seen (R.remaining reader.old) (R.remaining reader.new)
        (R.calls reader.old) (R.calls reader.new) (W.contents writer.old) (W.contents writer.new)
        (K.readings clock.old) (K.readings clock.new) bank.old bank.new result }
    ensures why { IfErr result (λ fault. IfRefused fault (IsOfCall C.seen C.reason bank.old bank.new)) }
    ensures ends { ServeFaultIsOfItsEnd result (R.calls reader.old) (R.calls reader.new)
        (W.calls writer.old) (W.calls writer.new) }
    ensures prompt { IsPrompt (R.remaining reader.old) (R.remaining reader.new) (R.calls reader.old)
        (R.calls reader.new) (R.beside reader.old) (R.beside reader.new) (W.contents writer.old)
        (W.calls writer.old) (K.readings clock.old) (K.readings clock.new) (C.seen bank.old)
        (C.seen bank.new) }
    ensures spares { C.spares bank.old bank.new }
{
    let mut filled = 0;
    let mut served = 0;
    let mut shows_body = true;
    'reads: for _ in 0..u64::MAX {
        match fill_buffer_beside(reader, buffer, filled, writer) {
            Ok(0) if filled == 0 => return Ok(served),
            Ok(0) => {
                refuse(writer, shows_body)?;
                return Ok(served + 1);
            }
            Ok(n) => filled += n,
            Err(e) if e.kind() == ErrorKind::Interrupted => {}
            Err(_) => return Err(ServeFault::Read),
        }
        let mut used = 0;
        'messages: loop {
            match next_message(&buffer[used..filled]) {
                Next::Message(message) => {
                    answer_message(alloc, &message, routes, writer, clock, bank)?;
                    served += 1;
                    used += message.length;
                    if message.closes {
                        return Ok(served);
                    }
                }
                Next::Unfinished(shows) => {
                    shows_body = shows;
                    break 'messages;
                }
                Next::Refused(shows) => {
                    refuse(writer, shows)?;
                    return Ok(served + 1);
                }
            }
        }
        move_to_front(buffer, used, filled);
        filled -= used;
    }
    Err(ServeFault::Read)
}

/// Serves a connection to the end of the walk over its messages, and returns how many answers were written.
/// As soon as whole messages were read they are answered, in their order and before anything more is read; a
/// record is submitted under one reading of the clock. An answer of at most 512 bytes is one write, and each
/// is flushed. An interrupted read or write is made again. `Read` comes only where the last read failed, or
/// where 2^64 - 1 reads were made; `Write` only where the last write or flush failed, where a write took no
/// byte, or where one was interrupted 2^64 - 1 times in a row. The buffer and the routes are made before
/// anything is read; after that only the bank and the body of a `GET` take memory.
pub fn serve_connection<R: Source, W: Sink, K: Clock, C: Followed>(
    alloc: Global,
    reader: &mut R,
    writer: &mut W,
    clock: &mut K,
    bank: &mut C,
) -> Result<Served, ServeFault>
    ensures served { ServesConnection C.seen (R.remaining reader.old) (R.remaining reader.new)
        (R.calls reader.old) (R.calls reader.new) (W.contents writer.old) (W.contents writer.new)
        (K.readings clock.old) (K.readings clock.new) bank.old bank.new result }
    ensures output { OutputsAnswers (R.remaining reader.old) (R.remaining reader.new)
        (R.calls reader.old) (R.calls reader.new) (W.contents writer.old) (W.contents writer.new)
        (K.readings clock.old) (K.readings clock.new) (C.seen bank.old) (C.seen bank.new) result }
    ensures survives { SurvivesServing (R.remaining reader.old) (R.remaining reader.new)
        (W.contents writer.old)
        (W.contents writer.new)
        (C.seen bank.old) (C.seen bank.new) }
    ensures ends { ServeFaultIsOfItsEnd result (R.calls reader.old) (R.calls reader.new)
        (W.calls writer.old) (W.calls writer.new) }
    ensures prompt { IsPrompt (R.remaining reader.old) (R.remaining reader.new) (R.calls reader.old)
        (R.calls reader.new) (R.beside reader.old) (R.beside reader.new) (W.contents writer.old)
        (W.calls writer.old) (K.readings clock.old) (K.readings clock.new) (C.seen bank.old)
        (C.seen bank.new) }
    ensures why { IfErr result (λ fault. IfRefused fault (IsOfCall C.seen C.reason bank.old bank.new)) }
    ensures honest { (C.seen bank.new).honest → (C.seen bank.old).honest }
    ensures spares { C.spares bank.old bank.new }
{
    let Some(routes) = Routes::new(alloc) else {
        return Err(ServeFault::Memory);
    };
    let Ok(mut buffer) = vec![in alloc; 0u8; BUFFER] else {
        return Err(ServeFault::Memory);
    };
    serve(alloc, reader, writer, clock, bank, &routes, &mut buffer)
}
