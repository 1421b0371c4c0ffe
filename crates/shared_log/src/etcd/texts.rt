//! What etcd is asked: a transaction that compares where a log ends.
ghost use Rattle.std.specs.Prelude.{◌≡◌, ◌<◌, ◌+◌, ◌++◌, ◌^◌, IfOk, OnOk, length};
ghost use Rattle.shared_log.specs.etcd.Texts.{end_key, in_base64, log_key, place_text, put_text, puts_text, request_text};
ghost use Rattle.shared_log.specs.etcd.Texts.{compare_text, range_text, transaction_text};

use base64::engine::general_purpose::STANDARD;
use itoa::Buffer;
use posting_core::ENTRY_BYTES;
use std::alloc::{AllocError, Global};

// A place as 20 digits.
fn place_digits(alloc: Global, place: u64) -> Result<Vec<u8>, AllocError>
    ensures { IfOk result (λ digits. digits.items ≡ place_text place) }
{
    let mut buffer = Buffer::new();
    let digits = buffer.format(place).as_bytes();
    let zeros = *b"00000000000000000000";
    let mut padded = Vec::from_slice(alloc, &zeros[digits.len()..])?;
    padded.extend_from_slice(digits)?;
    Ok(padded)
}

// The key of where a log ends.
fn end_key(alloc: Global, name: &[u8]) -> Result<Vec<u8>, AllocError>
    ensures { IfOk result (λ key. key.items ≡ end_key name.now) }
{
    let mut key = Vec::from_slice(alloc, b"bank/")?;
    key.extend_from_slice(name)?;
    key.extend_from_slice(b"/end")?;
    Ok(key)
}

// The key of the entries at a place.
fn log_key(alloc: Global, name: &[u8], place: u64) -> Result<Vec<u8>, AllocError>
    ensures { IfOk result (λ key. key.items ≡ log_key name.now place) }
{
    let digits = place_digits(alloc, place)?;
    let mut key = Vec::from_slice(alloc, b"bank/")?;
    key.extend_from_slice(name)?;
    key.extend_from_slice(b"/log/")?;
    key.extend_from_slice(digits.as_slice())?;
    Ok(key)
}

// Adds bytes in base64.
fn add_base64(alloc: Global, text: &mut Vec<u8>, bytes: &[u8]) -> Result<(), AllocError>
    ensures { OnOk result (text.new.items ≡ text.old.items ++ in_base64 bytes.now) }
{
    let encoded = STANDARD.encode(alloc, bytes)?;
    text.extend_from_slice(encoded.as_bytes())
}

// Adds that a value is compared with what is under a key.
fn add_compare(
    alloc: Global,
    text: &mut Vec<u8>,
    key: &[u8],
    value: &[u8],
) -> Result<(), AllocError>
    ensures { OnOk result (text.new.items ≡ text.old.items ++ compare_text key.now value.now) }
{
    text.extend_from_slice(b"{\"compare\":[{\"key\":\"")?;
    add_base64(alloc, text, key)?;
    text.extend_from_slice(b"\",\"target\":\"VALUE\",\"result\":\"EQUAL\",\"value\":\"")?;
    add_base64(alloc, text, value)?;
    text.extend_from_slice(b"\"}],\"success\":[")?;
    Ok(())
}

// Adds that a value is put under a key.
#[tactic(auto, unfolding(crate::specs::etcd::Texts::put_text))]
fn add_put(alloc: Global, text: &mut Vec<u8>, key: &[u8], value: &[u8]) -> Result<(), AllocError>
    ensures { OnOk result (text.new.items ≡ text.old.items ++ put_text key.now value.now) }
{
    text.extend_from_slice(b"{\"requestPut\":{\"key\":\"")?;
    add_base64(alloc, text, key)?;
    text.extend_from_slice(b"\",\"value\":\"")?;
    add_base64(alloc, text, value)?;
    text.extend_from_slice(b"\"}}")
}

// Adds that it is told what is under a key.
#[tactic(auto, unfolding(crate::specs::etcd::Texts::range_text))]
fn add_range(alloc: Global, text: &mut Vec<u8>, key: &[u8]) -> Result<(), AllocError>
    ensures { OnOk result (text.new.items ≡ text.old.items ++ range_text key.now) }
{
    text.extend_from_slice(b"],\"failure\":[{\"requestRange\":{\"key\":\"")?;
    add_base64(alloc, text, key)?;
    text.extend_from_slice(b"\"}}]}")
}

// Adds what is put: the entries, and the end behind them.
fn add_puts(
    alloc: Global,
    text: &mut Vec<u8>,
    name: &[u8],
    place: u64,
    entries: &[[u8; ENTRY_BYTES]],
) -> Result<(), AllocError>
    requires { place + length entries.now < 2 ^ 64 }
    ensures { OnOk result (text.new.items ≡ text.old.items ++ puts_text name.now place entries.now) }
{
    if entries.is_empty() {
        return Ok(());
    }
    let key = log_key(alloc, name, place)?;
    add_put(alloc, text, key.as_slice(), entries.as_flattened())?;
    text.extend_from_slice(b",")?;
    let key = end_key(alloc, name)?;
    let end = place_digits(alloc, place + entries.len() as u64)?;
    add_put(alloc, text, key.as_slice(), end.as_slice())
}

// A transaction that puts entries at a place, where the log ends there.
fn transaction(
    alloc: Global,
    name: &[u8],
    place: u64,
    entries: &[[u8; ENTRY_BYTES]],
) -> Result<Vec<u8>, AllocError>
    requires { place + length entries.now < 2 ^ 64 }
    ensures { IfOk result (λ text. text.items ≡ transaction_text name.now place entries.now) }
{
    let end = end_key(alloc, name)?;
    let digits = place_digits(alloc, place)?;
    let key = log_key(alloc, name, place)?;
    let mut text = Vec::new(alloc);
    add_compare(alloc, &mut text, end.as_slice(), digits.as_slice())?;
    add_puts(alloc, &mut text, name, place, entries)?;
    add_range(alloc, &mut text, key.as_slice())?;
    Ok(text)
}

/// A transaction as a request of HTTP.
pub(crate) fn request(
    alloc: Global,
    name: &[u8],
    place: u64,
    entries: &[[u8; ENTRY_BYTES]],
) -> Result<Vec<u8>, AllocError>
    requires { place + length entries.now < 2 ^ 64 }
    ensures { IfOk result (λ bytes. bytes.items ≡ request_text name.now place entries.now) }
{
    let body = transaction(alloc, name, place, entries)?;
    let mut buffer = Buffer::new();
    let mut text = Vec::from_slice(
        alloc,
        b"POST /v3/kv/txn HTTP/1.1\r\nHost: etcd\r\nContent-Type: application/json\r\nContent-Length: ",
    )?;
    text.extend_from_slice(buffer.format(body.len()).as_bytes())?;
    text.extend_from_slice(b"\r\n\r\n")?;
    text.extend_from_slice(body.as_slice())?;
    Ok(text)
}
