//! The digest of requests, one after another.
ghost use Rattle.std.specs.Prelude.{◌≡◌, map, replicate};
ghost use Rattle.walked_rows.specs.KeptRows.{kept_item};
ghost use Rattle.bank_replays.specs.Digests.{GoesOnBy, chained};

use crate::fault::ReplayFault;
use crate::visitors::Visitor;
use message_records::{Reply, Request, encode_reply, encode_request};
use posting_rules::{Fault, Rule};
use sha2::{Digest as Hasher, Sha256};
use walked_rows::{KeptRequest, moment_of, reply_of, request_of};

/// The row is that of no request.
pub(crate) const NO_REQUEST: ReplayFault = ReplayFault::Bank(Fault::Damaged(Rule::Request));

/// How many requests a bank keeps, or the first of them, and the digest of these: whoever wrote both down can
/// ask later whether these are the first requests of a file still.
///
/// The digest of no request is 32 zeros, and that of one request more SHA-256 of the digest before it, the
/// request's record, its reply, and the moment of its posting in eight bytes, the high one first: zeros where it
/// wasn't posted.
#[derive(Clone, Copy, Debug, PartialEq, Eq)]
pub struct Digest {
    pub requests: u64,
    pub sha256: [u8; 32],
}

impl Digest {
    /// The digest of no request.
    pub(crate) fn none() -> Digest
        ensures requests { result.requests ≡ 0 }
        ensures sha256 { result.sha256 ≡ replicate 32 0 }
    {
        Digest {
            requests: 0,
            sha256: [0; 32],
        }
    }
}

// The digest after one request more.
fn chained(before: &[u8; 32], request: &Request, reply: &Reply, moment: u64) -> [u8; 32]
    ensures { result ≡ chained before.now
        (record { request = request.now; reply = reply.now; moment = moment }) }
{
    let mut hasher = Sha256::new();
    hasher.update(before.as_slice());
    let record = encode_request(request);
    hasher.update(record.as_slice());
    let answer = encode_reply(reply);
    hasher.update(answer.as_slice());
    let seconds = moment.to_be_bytes();
    hasher.update(seconds.as_slice());
    hasher.finalize()
}

/// Requests are digested, one after the other.
pub(crate) struct Chaining;

impl Visitor<KeptRequest, Digest> for Chaining {
    ghost use Rattle.bank_replays.specs.Digests.{EndsDigest};
    ghost use Rattle.bank_replays.specs.Holding.{answered_held};
    ghost use Rattle.bank_replays.specs.Prefixes.{digest_ends, none_after};
    ghost use Rattle.bank_replays.specs.Refusing.{RefusesAnswered};

    ghost Visited = { λ visitor first last rows. GoesOnBy first last (map kept_item rows) };

    ghost Part = { λ visitor first last rows next fault. EndsDigest first rows fault };

    ghost Refuses = { λ visitor. RefusesAnswered };

    ghost none_yet = { λ visitor digest. none_after digest };

    ghost in_part = { λ visitor first last rows fault many visited. digest_ends first rows fault many };

    ghost held = { λ visitor. answered_held };

    fn visit(&self, row: KeptRequest, digest: &mut Digest) -> Result<(), ReplayFault> {
        let Some(request) = request_of(&row) else {
            return Err(NO_REQUEST);
        };
        let Some(reply) = reply_of(&row, request) else {
            return Err(NO_REQUEST);
        };
        let Some(requests) = digest.requests.checked_add(1) else {
            // There would be no room for so many rows.
            return Err(ReplayFault::Bank(Fault::Memory));
        };
        digest.sha256 = chained(&digest.sha256, &request, &reply, moment_of(&row.posting));
        digest.requests = requests;
        Ok(())
    }
}
