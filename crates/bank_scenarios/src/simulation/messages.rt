//! The bytes that a stream or a connection is given, and what has to be answered to them.
use super::history::{Given, Part};
use std::alloc::{AllocError, Global};

/// Bytes that are given, and those that have to be answered.
#[derive(Drop)]
pub struct Script {
    pub input: Vec<u8>,
    pub output: Vec<u8>,
    /// How long the output is after each record's answer.
    ends: Vec<usize>,
}

const POST: &[u8] = b"POST /post HTTP/1.1\r\nContent-Length: 100\r\n\r\n";

const POSTED: &[u8] =
    b"HTTP/1.1 200 OK\r\nContent-Type: application/octet-stream\r\nContent-Length: 200\r\n\r\n";

// A message whose body is too short to be a record.
const SHORT: &[u8] = b"POST /post HTTP/1.1\r\nContent-Length: 9\r\n\r\nDC0100000";

const BAD: &[u8] =
    b"HTTP/1.1 400 Bad Request\r\nContent-Type: text/plain\r\nContent-Length: 16\r\n\r\n\
    400 Bad Request\n";

const NOT_FOUND: &[u8] =
    b"HTTP/1.1 404 Not Found\r\nContent-Type: text/plain\r\nContent-Length: 14\r\n\r\n\
    404 Not Found\n";

impl Script {
    pub fn new(alloc: Global) -> Self {
        Script {
            input: Vec::new(alloc),
            output: Vec::new(alloc),
            ends: Vec::new(alloc),
        }
    }

    fn add(&mut self, inputs: [&[u8]; 2], outputs: [&[u8]; 2]) -> Result<(), AllocError> {
        for input in inputs {
            self.input.extend_from_slice(input)?;
        }
        for output in outputs {
            self.output.extend_from_slice(output)?;
        }
        Ok(())
    }

    fn add_record(&mut self, part: &Part, head: &[u8], answer: &[u8]) -> Result<(), AllocError> {
        if let Given::Record(record) = &part.given {
            self.add([head, record], [answer, &part.reply])?;
        }
        self.ends.push(self.output.len())?;
        Ok(())
    }

    /// Adds records of a stream.
    pub fn add_records(&mut self, parts: &[Part]) -> Result<(), AllocError> {
        for part in parts {
            self.add_record(part, b"", b"")?;
        }
        Ok(())
    }

    /// Adds a message that posts a record.
    pub fn add_post(&mut self, part: &Part) -> Result<(), AllocError> {
        self.add_record(part, POST, POSTED)
    }

    /// Adds a message whose body is no record.
    pub fn add_short(&mut self) -> Result<(), AllocError> {
        self.add([SHORT, b""], [BAD, b""])
    }

    /// Adds a message that asks for an account, which has this balance if it is open.
    pub fn add_get(
        &mut self,
        alloc: Global,
        account: u64,
        balance: Option<i64>,
    ) -> Result<(), AllocError> {
        let asked = format!(in alloc; "GET /account/{account} HTTP/1.1\r\n\r\n")?;
        let Some(balance) = balance else {
            return self.add([asked.as_bytes(), b""], [NOT_FOUND, b""]);
        };
        let line = format!(in alloc; "account {account} balance {balance}\n")?;
        let length = line.len();
        let head = format!(in alloc;
            "HTTP/1.1 200 OK\r\nContent-Type: text/plain\r\nContent-Length: {length}\r\n\r\n"
        )?;
        self.add([asked.as_bytes(), b""], [head.as_bytes(), line.as_bytes()])
    }

    /// How many records are answered by these bytes, none where they are no prefix of the output.
    pub fn answered_by(&self, output: &[u8]) -> Option<usize> {
        if !self.output.starts_with(output) {
            return None;
        }
        Some(
            self.ends
                .iter()
                .take_while(|end| **end <= output.len())
                .count(),
        )
    }
}
