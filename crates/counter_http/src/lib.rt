//! The counter over HTTP: messages that are read from a connection are answered one after another, in their
//! order, by any counter. `POST /post` with the 100 bytes of a record submits it (TPC-B 1.2), and the 200
//! bytes of its reply come back. `GET /account/1` answers the line `account 1 balance 500`,
//! `GET /teller/1` so that of a teller, and `GET /branches` a line for each open branch, with its number, its count
//! of accounts and its balance. Another bank follows by `GET /log/0`, entries of the log after so many, and
//! `GET /plan`, the branches as a plan. Of who serves many, `GET /metrics` says how it goes. The
//! function `first_message` of `http_tests`, which a test runs, posts a record, and gives what is answered:
//!
//! ```rust
//! use counter_http::{ServeFault, serve_connection};
//! use message_records::REQUEST_BYTES;
//! use posting_core::{Clock, Followed};
//! use std::alloc::Global;
//!
//! pub fn first_message<C: Followed, K: Clock>(
//!     alloc: Global,
//!     bank: &mut C,
//!     clock: &mut K,
//!     record: &[u8; REQUEST_BYTES],
//! ) -> Result<Vec<u8>, ServeFault> {
//!     let mut message = [b' '; 144];
//!     message[..44].copy_from_slice(b"POST /post HTTP/1.1\r\nContent-Length: 100\r\n\r\n");
//!     message[44..].copy_from_slice(record);
//!     let mut answers = Vec::new(alloc);
//!     serve_connection(alloc, &mut message.as_slice(), &mut answers, clock, bank)?;
//!     Ok(answers)
//! }
//! ```
//!
//! A posting that the bank refuses, as it does 100 bytes that are no request, is a 200 too: its reply has the
//! outcome. A body of another length is answered by a 400, another path or an account that isn't open by a
//! 404, and another method by a 405; the connection goes on. Bytes that are no message with a head of up to
//! 8,192 bytes ([`MAX_HEAD`]) in 32 fields ([`MAX_FIELDS`]) and a body of up to 4,096 ([`MAX_BODY`]) are
//! answered by a 400, and the connection ends.
//!
//! Any `Read` is a `Source` and any `Write` a `Sink` (`posting_core`), such as a `TcpStream`.
//!
//! [`ServeFault`] says why a connection ended before its input did: a read or a write failed, memory was
//! refused, or the bank refused a call, which is answered by a 503.
//!
//! Read next: [`serve_connection`]; `specs/believed/Messages`, what a message is, and `specs/believed/Paths`, where each leads;
//! [`serve_together`], which serves clients at once; [`TcpClients`], those of a listener.
#![tactic(auto)]

mod answers;
mod batch;
mod client;
mod clients;
mod closing;
mod connection;
mod fault;
mod fields;
mod figures;
mod fixed;
mod holders;
mod laws;
mod limits;
mod lines;
mod listen_fault;
mod metrics;
mod next;
mod parting;
pub mod patience;
mod places;
mod routes;
mod serve_watch;
mod stream_ends;
mod tasks;
mod tcp_clients;
mod telling;
mod together;

pub use client::Client;
pub use clients::{Clients, Readiness};
pub use connection::{Served, serve_connection};
pub use fault::ServeFault;
pub use laws::answers_have_no_moment;
pub use limits::{MAX_BODY, MAX_FIELDS, MAX_HEAD};
pub use listen_fault::ListenFault;
pub use serve_watch::{ServeWatch, Unwatched};
pub use tcp_clients::TcpClients;
pub use together::{MOST_CLIENTS, serve_together};
