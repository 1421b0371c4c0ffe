//! The bytes of messages and answers.
use std::alloc::{Alloc, Global};
use std::process::Abort;

/// Two equal messages, each with the same record: five hundred cents to account 1 by teller 1 under the
/// number 1.
pub const FIRST_TWICE: &[u8] = b"POST /post HTTP/1.1\r\nContent-Length: 100\r\n\r\n\
    DC01000000000001000000010000010000000001+0000000500                                                 \
    POST /post HTTP/1.1\r\nContent-Length: 100\r\n\r\n\
    DC01000000000001000000010000010000000001+0000000500                                                 ";

/// One of them, and one with another record: seven hundred cents from account 100001 by the same teller under
/// the number 2.
pub const FIRST_AND_REMOTE: &[u8] = b"POST /post HTTP/1.1\r\nContent-Length: 100\r\n\r\n\
    DC01000000000001000000010000010000000001+0000000500                                                 \
    POST /post HTTP/1.1\r\nContent-Length: 100\r\n\r\n\
    DC01000000100001000000010000010000000002-0000000700                                                 ";

/// The answer to the first record.
pub const FIRST_ANSWER: &[u8] =
    b"HTTP/1.1 200 OK\r\nContent-Type: application/octet-stream\r\nContent-Length: 200\r\n\r\n\
    DR0100000000000001000000010000010000000001+0000000500+000000000500POSTED                                                                                                                                ";

/// The answer to the second.
pub const REMOTE_ANSWER: &[u8] =
    b"HTTP/1.1 200 OK\r\nContent-Type: application/octet-stream\r\nContent-Length: 200\r\n\r\n\
    DR0100000000100001000000010000010000000002-0000000700-000000000700POSTED                                                                                                                                ";

/// The answer to what is no message.
pub const BAD: &[u8] =
    b"HTTP/1.1 400 Bad Request\r\nContent-Type: text/plain\r\nContent-Length: 16\r\n\
    Connection: close\r\n\r\n400 Bad Request\n";

/// The same where only its head is asked for.
pub const BAD_HEAD: &[u8] =
    b"HTTP/1.1 400 Bad Request\r\nContent-Type: text/plain\r\nContent-Length: 16\r\n\
    Connection: close\r\n\r\n";

/// The answer to a path or an account that there is none of.
pub const NOT_FOUND: &[u8] =
    b"HTTP/1.1 404 Not Found\r\nContent-Type: text/plain\r\nContent-Length: 14\r\n\r\n404 Not Found\n";

/// The answer to a method that a path for reading doesn't take.
pub const NOT_ALLOWED: &[u8] =
    b"HTTP/1.1 405 Method Not Allowed\r\nContent-Type: text/plain\r\nContent-Length: 23\r\n\
    Allow: GET, HEAD\r\n\r\n405 Method Not Allowed\n";

/// What a bank that failed answers.
pub const UNAVAILABLE: &[u8] =
    b"HTTP/1.1 503 Service Unavailable\r\nContent-Type: text/plain\r\nContent-Length: 24\r\n\
    Connection: close\r\n\r\n503 Service Unavailable\n";

/// Two messages of another teller: three hundred cents to account 2, and four hundred from account 100002.
pub const OTHER_TWO: &[u8] = b"POST /post HTTP/1.1\r\nContent-Length: 100\r\n\r\n\
    DC01000000000002000000110000020000000001+0000000300                                                 \
    POST /post HTTP/1.1\r\nContent-Length: 100\r\n\r\n\
    DC01000000100002000000110000020000000002-0000000400                                                 ";

/// The answers to them.
pub const OTHER_ANSWER: &[u8] =
    b"HTTP/1.1 200 OK\r\nContent-Type: application/octet-stream\r\nContent-Length: 200\r\n\r\n\
    DR0100000000000002000000110000020000000001+0000000300+000000000300POSTED                                                                                                                                ";

pub const OTHER_LAST_ANSWER: &[u8] =
    b"HTTP/1.1 200 OK\r\nContent-Type: application/octet-stream\r\nContent-Length: 200\r\n\r\n\
    DR0100000000100002000000110000020000000002-0000000400-000000000400POSTED                                                                                                                                ";

/// The first record and the remote one, and between them a message that asks for account 1.
pub const READS_BETWEEN: &[u8] = b"POST /post HTTP/1.1\r\nContent-Length: 100\r\n\r\n\
    DC01000000000001000000010000010000000001+0000000500                                                 \
    GET /account/1 HTTP/1.1\r\n\r\n\
    POST /post HTTP/1.1\r\nContent-Length: 100\r\n\r\n\
    DC01000000100001000000010000010000000002-0000000700                                                 ";

/// A message that asks for account 1.
pub const BALANCE: &[u8] = b"GET /account/1 HTTP/1.1\r\n\r\n";

/// The balance of account 1 after the first record.
pub const BALANCE_ANSWER: &[u8] =
    b"HTTP/1.1 200 OK\r\nContent-Type: text/plain\r\nContent-Length: 22\r\n\r\naccount 1 balance 500\n";

/// A record of an account that isn't open, a message that asks for no bank, and the other teller's first record.
pub const IS_REFUSED: &[u8] = b"POST /post HTTP/1.1\r\nContent-Length: 100\r\n\r\n\
    DC01000000000004000000020000010000000001+0000000100                                                 \
    GET /health HTTP/1.1\r\n\r\n\
    POST /post HTTP/1.1\r\nContent-Length: 100\r\n\r\n\
    DC01000000000002000000110000020000000001+0000000300                                                 ";

pub const NO_ACCOUNT_ANSWER: &[u8] =
    b"HTTP/1.1 200 OK\r\nContent-Type: application/octet-stream\r\nContent-Length: 200\r\n\r\n\
    DR0113000000000004000000020000010000000001+0000000100+000000000000NO ACCOUNT                                                                                                                            ";

pub const HEALTH_ANSWER: &[u8] =
    b"HTTP/1.1 200 OK\r\nContent-Type: text/plain\r\nContent-Length: 3\r\n\r\nok\n";

/// The first record, a message after which the connection ends, and a record that isn't read.
pub const CLOSES: &[u8] = b"POST /post HTTP/1.1\r\nContent-Length: 100\r\n\r\n\
    DC01000000000001000000010000010000000001+0000000500                                                 \
    GET /health HTTP/1.0\r\n\r\n\
    POST /post HTTP/1.1\r\nContent-Length: 100\r\n\r\n\
    DC01000000000001000000020000010000000009+0000000100                                                 ";

pub const LAST_HEALTH_ANSWER: &[u8] =
    b"HTTP/1.1 200 OK\r\nContent-Type: text/plain\r\nContent-Length: 3\r\n\
    Connection: close\r\n\r\nok\n";

/// A record, and a message that asks for the figures.
pub const POSTS_AND_WATCHES: &[u8] = b"POST /post HTTP/1.1\r\nContent-Length: 100\r\n\r\n\
    DC01000000000001000000010000010000000001+0000000500                                                 \
    GET /metrics HTTP/1.1\r\n\r\n";

/// The figures after it and a record that was refused, which were taken together, while two are connected.
pub const FIGURES_ANSWER: &[u8] =
    b"HTTP/1.1 200 OK\r\nContent-Type: text/plain; version=0.0.4\r\nContent-Length: 1112\r\n\r\n\
    # HELP bank_postings_total Records replied to with outcome 00; one that is sent again counts again.\n\
    # TYPE bank_postings_total counter\n\
    bank_postings_total 1\n\
    # HELP bank_refusals_total Records replied to with another outcome; one that is sent again counts again.\n\
    # TYPE bank_refusals_total counter\n\
    bank_refusals_total{outcome=\"11\"} 0\n\
    bank_refusals_total{outcome=\"12\"} 0\n\
    bank_refusals_total{outcome=\"13\"} 1\n\
    bank_refusals_total{outcome=\"14\"} 0\n\
    bank_refusals_total{outcome=\"15\"} 0\n\
    bank_refusals_total{outcome=\"16\"} 0\n\
    bank_refusals_total{outcome=\"17\"} 0\n\
    bank_refusals_total{outcome=\"18\"} 0\n\
    bank_refusals_total{outcome=\"19\"} 0\n\
    bank_refusals_total{outcome=\"90\"} 0\n\
    # HELP bank_records_total Records replied to.\n\
    # TYPE bank_records_total counter\n\
    bank_records_total 2\n\
    # HELP bank_commits_total Transactions by which those records were taken.\n\
    # TYPE bank_commits_total counter\n\
    bank_commits_total 1\n\
    # HELP bank_connections Clients that are connected.\n\
    # TYPE bank_connections gauge\n\
    bank_connections 2\n\
    # HELP bank_uptime_seconds Seconds since the counter began to serve.\n\
    # TYPE bank_uptime_seconds gauge\n\
    bank_uptime_seconds 0\n";

/// A message that asks for a path.
pub fn get(rt: &(impl Abort + Alloc<A = Global>), path: &[u8]) -> Vec<u8> {
    joined(rt, &[b"GET ", path, b" HTTP/1.1\r\n\r\n"])
}

/// The texts, one after another.
pub fn joined(rt: &(impl Abort + Alloc<A = Global>), texts: &[&[u8]]) -> Vec<u8> {
    let mut all = Vec::new(rt.alloc());
    for text in texts {
        all.extend_from_slice(text).expect(rt, "memory");
    }
    all
}
