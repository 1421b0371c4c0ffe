//! What is no message, heads at the limits, and the greatest message, each the whole input, to the byte of their answers.
use crate::connection::is_answered;
use crate::texts::{BAD, BAD_HEAD, FIRST_TWICE, joined};
use std::alloc::AllocError;

// An input and its answer, after which the connection ends.
const CASES: &[(&[u8], &[u8])] = &[
    (b"\0", BAD),
    (b"GET /branches HTTP/1.1\r\n", BAD),
    (b"GET /\xff HTTP/1.1\r\n\r\n", BAD),
    (b"POST /post HTTP/1.1\r\nContent-Length:\r\n\r\n", BAD),
    (
        b"POST /post HTTP/1.1\r\nContent-Length: 0\r\ncontent-length: 0\r\n\r\n",
        BAD,
    ),
    (
        b"POST /post HTTP/1.1\r\nTransfer-Encoding: chunked\r\n\r\n0\r\n\r\n",
        BAD,
    ),
    (b"POST /post HTTP/1.1\r\nContent-Length: 4\r\n\r\nbod", BAD),
    (
        b"HEAD /branches HTTP/1.1\r\nContent-Length: 4\r\n\r\nbod",
        BAD_HEAD,
    ),
    (
        b"HEAD /branches HTTP/1.1\r\nContent-Length: many\r\n\r\nGET / HTTP/1.1\r\n\r\n",
        BAD_HEAD,
    ),
];

#[test]
fn what_is_no_message(rt: HostRuntime) {
    for &(input, answer) in CASES {
        is_answered(&rt, input, answer);
    }
}

// What stands between the request's line and the end of its head.
const FIELDS: &[&[u8]] = &[
    b"Content-Length: 4097\r\n",
    b"Content-Length: +100\r\n",
    b"Content-Length: 100\r\nContent-Length: 100\r\n",
    b"Transfer-Encoding: chunked\r\n",
];

// A whole record is after each of these heads. It isn't posted.
#[test]
fn fields_that_are_refused(rt: HostRuntime) {
    for fields in FIELDS {
        let parts = [
            b"POST /post HTTP/1.1\r\n",
            *fields,
            b"\r\n",
            &FIRST_TWICE[44..144],
        ];
        is_answered(&rt, &joined(&rt, &parts), BAD);
    }
}

// The answer with the two branches, neither of which was posted to.
const BRANCHES: &[u8] = b"HTTP/1.1 200 OK\r\nContent-Type: text/plain\r\nContent-Length: 60\r\n\r\n\
    \x20    1       3              0\n     2       2              0\n";

// A head that asks for the branches, of so many fields, of which the last fills it up to so many bytes.
fn write_head(head: &mut Vec<u8>, fields: usize, bytes: usize) -> Result<(), AllocError> {
    head.extend_from_slice(b"GET /branches HTTP/1.1\r\n")?;
    for _ in 1..fields {
        head.extend_from_slice(b"Accept: */*\r\n")?;
    }
    head.extend_from_slice(b"Host: ")?;
    head.resize(bytes.saturating_sub(4), b'h')?;
    head.extend_from_slice(b"\r\n\r\n")
}

#[test]
fn heads_at_the_limits(rt: HostRuntime) {
    let mut head = Vec::new(rt.alloc());
    for (fields, bytes, answer) in [
        (32, 8192, BRANCHES),
        (32, 8193, BAD),
        (33, 8192, BAD),
        (33, 600, BAD),
    ] {
        head.clear();
        assert!(rt; write_head(&mut head, fields, bytes).is_ok() && head.len() == bytes);
        is_answered(&rt, &head, answer);
    }
}

// A head of 8192 bytes and a body of 4096.
fn write_message(message: &mut Vec<u8>) -> Result<(), AllocError> {
    message.extend_from_slice(b"HEAD / HTTP/1.1\r\nContent-Length: 4096\r\nc:")?;
    message.resize(8188, b'd')?;
    message.extend_from_slice(b"\r\n\r\n")?;
    message.resize(12288, b'e')
}

#[test]
fn the_greatest_message(rt: HostRuntime) {
    let mut message = Vec::new(rt.alloc());
    assert!(rt; write_message(&mut message).is_ok() && message.len() == 12288);
    let found: &[u8] =
        b"HTTP/1.1 404 Not Found\r\nContent-Type: text/plain\r\nContent-Length: 14\r\n\r\n";
    is_answered(&rt, &message, found);
}
