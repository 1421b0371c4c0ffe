//! The first program of `counter_http`: its page shows the function. A test runs it.
use counter_http::{ServeFault, serve_connection};
use message_records::REQUEST_BYTES;
use posting_core::{Clock, Followed};
use std::alloc::Global;

pub fn first_message<C: Followed, K: Clock>(
    alloc: Global,
    bank: &mut C,
    clock: &mut K,
    record: &[u8; REQUEST_BYTES],
) -> Result<Vec<u8>, ServeFault> {
    let mut message = [b' '; 144];
    message[..44].copy_from_slice(b"POST /post HTTP/1.1\r\nContent-Length: 100\r\n\r\n");
    message[44..].copy_from_slice(record);
    let mut answers = Vec::new(alloc);
    serve_connection(alloc, &mut message.as_slice(), &mut answers, clock, bank)?;
    Ok(answers)
}
