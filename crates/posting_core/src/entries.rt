//! Entries of the log, as they are written and read.
ghost use Rattle.std.specs.Prelude.{◌≡◌, ◌≤◌, ◌<◌, ◌+◌, ◌++◌, ℕ, MatchOption, length, slice_index, take};
ghost use Rattle.message_records.specs.believed.Outcomes.{has_balance};
ghost use Rattle.posting_core.specs.Entries.{EntriesAreAdded, IsEntry, IsNoEntry, answered, is_kept, moment_from};
ghost use Rattle.posting_core.specs.believed.LogEntries.{entry_of};

use message_records::{
    Moment, Outcome, REPLY_BYTES, REQUEST_BYTES, Reply, Request, decode_reply, decode_request,
    encode_reply, encode_request,
};

/// The length of an entry: a record, a reply, and a moment in eight bytes.
pub const ENTRY_BYTES: usize = REQUEST_BYTES + REPLY_BYTES + 8;

// Puts a text into the bytes of an entry, after those that stand there.
fn put(entry: &mut [u8; ENTRY_BYTES], start: usize, text: &[u8])
    requires { start + length text.now ≤ ENTRY_BYTES }
    ensures { take (start + length text.now) entry.new ≡ take start entry.old ++ text.now }
{
    let end = start + text.len();
    let bytes = &mut entry[..];
    bytes[start..end].copy_from_slice(text);
}

/// The bytes of the entry of a request that is kept: its record, its reply, and the moment of its posting in seconds,
/// the highest byte first, which is zero where it wasn't posted.
#[must_use]
pub fn encode_entry(request: &Request, reply: &Reply, moment: u64) -> [u8; ENTRY_BYTES]
    ensures { result ≡ entry_of (record { request = request.now; reply = reply.now; moment = moment }) }
{
    let record = encode_request(request);
    let answer = encode_reply(reply);
    let seconds = moment.to_be_bytes();
    let mut entry = [0; ENTRY_BYTES];
    put(&mut entry, 0, record.as_slice());
    put(&mut entry, REQUEST_BYTES, answer.as_slice());
    put(&mut entry, REQUEST_BYTES + REPLY_BYTES, seconds.as_slice());
    entry
}

/// A request that a bank keeps, the reply that it got, and the moment of its posting, which is zero where it wasn't
/// posted.
#[derive(Clone, Copy, Debug, PartialEq, Eq)]
pub struct Entry {
    pub request: Request,
    pub reply: Reply,
    pub moment: Moment,
}

// The record, the reply and the moment of an entry.
#[derive(Clone, Copy)]
struct Parts {
    record: [u8; REQUEST_BYTES],
    reply: [u8; REPLY_BYTES],
    seconds: [u8; 8],
}

// The parts that bytes have in the places of an entry's.
fn parts_of(bytes: &[u8; ENTRY_BYTES]) -> Parts
    ensures joined { result.record ++ (result.reply ++ result.seconds) ≡ bytes.now }
    ensures record_length { length result.record ≡ REQUEST_BYTES }
    ensures reply_length { length result.reply ≡ REPLY_BYTES }
    ensures seconds_length { length result.seconds ≡ 8 }
    ensures seconds { (i : ℕ) → slice_index result.seconds i < 256 }
{
    let mut record = [0; REQUEST_BYTES];
    record.copy_from_slice(&bytes[..REQUEST_BYTES]);
    let mut reply = [0; REPLY_BYTES];
    reply.copy_from_slice(&bytes[REQUEST_BYTES..REQUEST_BYTES + REPLY_BYTES]);
    let mut seconds = [0; 8];
    seconds.copy_from_slice(&bytes[REQUEST_BYTES + REPLY_BYTES..]);
    Parts {
        record,
        reply,
        seconds,
    }
}

// Whether a request with this outcome is kept.
fn is_kept(outcome: Outcome) -> bool
    ensures { result ≡ is_kept outcome }
{
    match outcome {
        Outcome::Posted => true,
        Outcome::WrongBranch => true,
        Outcome::NoAccount => true,
        Outcome::BelowFloor => true,
        Outcome::OverLimit => true,
        Outcome::NoTeller => false,
        Outcome::ReusedNumber => false,
        Outcome::Closed => false,
        Outcome::Sealed => false,
        Outcome::Full => false,
        Outcome::Malformed => false,
    }
}

// Whether a request with this outcome is posted.
fn is_posted(outcome: Outcome) -> bool
    ensures { result ≡ has_balance outcome }
{
    match outcome {
        Outcome::Posted => true,
        _ => false,
    }
}

// The moment of a request with this outcome; none where it isn't posted and has one, or it is out of its range.
fn moment_from(outcome: Outcome, seconds: u64) -> Option<Moment>
    ensures { result ≡ moment_from outcome seconds }
{
    if is_posted(outcome) || seconds == 0 {
        Moment::new(seconds)
    } else {
        None
    }
}

/// The entry that the bytes are; none where no log has such an entry.
#[must_use]
pub fn decode_entry(bytes: &[u8; ENTRY_BYTES]) -> Option<Entry>
    ensures { MatchOption result (IsNoEntry bytes.now)
        (λ entry. IsEntry (answered entry) × (entry_of (answered entry) ≡ bytes.now)) }
{
    let parts = parts_of(bytes);
    let request = match decode_request(&parts.record) {
        Ok(request) => request,
        Err(_) => return None,
    };
    let reply = match decode_reply(&parts.reply) {
        Ok(reply) => reply,
        Err(_) => return None,
    };
    let outcome = reply.outcome();
    if !is_kept(outcome) {
        return None;
    }
    let moment = moment_from(outcome, u64::from_be_bytes(parts.seconds))?;
    Some(Entry {
        request,
        reply,
        moment,
    })
}

/// A log that is followed by the posts of entries, each of which gets the reply of its entry, has its entries and then
/// those of them that are new, byte for byte. An entry is new where no request of its teller has its number yet. It does
/// nothing: the law is what it ensures.
pub fn entries_are_added()
    ensures { EntriesAreAdded }
{}
