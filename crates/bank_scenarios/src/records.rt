//! The records of a script.
use message_records::{
    Account, Branch, Cents, Number, REFERENCE_BYTES, REPLY_BYTES, REQUEST_BYTES, Reference, Reply,
    Request, Teller, decode_reply, encode_request,
};
use std::alloc::{AllocError, Global};

/// A record, and how the reply to it is printed.
#[derive(Clone, Copy)]
pub struct Record {
    pub bytes: [u8; REQUEST_BYTES],
    /// Whether it is written as a request's numbers, so that the reply is printed by its outcome and balance.
    is_request: bool,
}

// The text, and spaces after it; none where it is too long.
fn padded<const SIZE: usize>(text: &str) -> Option<[u8; SIZE]> {
    if text.len() > SIZE {
        return None;
    }
    let mut bytes = [b' '; SIZE];
    for (place, byte) in bytes.iter_mut().zip(text.as_bytes()) {
        *place = *byte;
    }
    Some(bytes)
}

/// The record of a request.
pub fn bytes_of(
    account: u64,
    teller: u64,
    branch: u64,
    number: u64,
    delta: i64,
    reference: Option<Reference>,
) -> Option<[u8; REQUEST_BYTES]> {
    let account = Account::new(account)?;
    let teller = Teller::new(teller)?;
    let branch = Branch::new(branch)?;
    let number = Number::new(number)?;
    let delta = Cents::new(delta)?;
    let request = Request::new(account, teller, branch, number, delta, reference)?;
    Some(encode_request(&request))
}

// The reference of a text, with spaces after it.
fn reference_of(text: &str) -> Option<Reference> {
    let bytes: [u8; REFERENCE_BYTES] = padded(text)?;
    Reference::new(&bytes)
}

// The record of a request's five numbers, and of a reference after the word `for`.
fn bytes_of_numbers(text: &str) -> Option<[u8; REQUEST_BYTES]> {
    let (numbers, reference) = match text.split_once(" for ") {
        Some((numbers, reference)) => (numbers, Some(reference_of(reference)?)),
        None => (text, None),
    };
    let mut words = numbers.split(' ');
    let mut numbers = [0; 4];
    for number in &mut numbers {
        *number = words.next()?.parse::<u64>().ok()?;
    }
    let [account, teller, branch, number] = numbers;
    let delta = words.next()?.parse::<i64>().ok()?;
    bytes_of(account, teller, branch, number, delta, reference)
}

impl Record {
    /// The record that a text writes: its bytes, with spaces after them, or the five numbers of a request and
    /// its reference.
    pub fn of(text: &str) -> Option<Self> {
        let is_request = !text.starts_with("DC");
        let bytes = if is_request {
            bytes_of_numbers(text)?
        } else {
            padded(text)?
        };
        Some(Record { bytes, is_request })
    }

    /// The text of the reply to it.
    pub fn answer_text(
        &self,
        alloc: Global,
        reply: &[u8; REPLY_BYTES],
    ) -> Result<String, AllocError> {
        if !self.is_request {
            let text = String::from_utf8_lossy(alloc, reply)?;
            return text.trim_end_matches(' ').to_string(alloc);
        }
        match decode_reply(reply) {
            Ok(reply) => in_words(alloc, &reply),
            Err(bad) => format!(in alloc; "no reply: {bad:?}"),
        }
    }
}

// The outcome, and the balance where there is one.
fn in_words(alloc: Global, reply: &Reply) -> Result<String, AllocError> {
    let outcome = reply.outcome();
    match reply.balance() {
        Some(balance) => format!(in alloc; "{outcome} {balance}"),
        None => format!(in alloc; "{outcome}"),
    }
}
