//! What an answer says of a transaction.
ghost use Rattle.std.specs.Prelude.{◌≡◌, IfSome, option_map};
ghost use Rattle.shared_log.specs.etcd.Answers.{Says, SaysBy, value_text};
ghost use Rattle.serde_json.specs.View.{view};

use base64::engine::general_purpose::STANDARD;
use serde_json::Value;
use std::alloc::Global;

/// What an answer says of a transaction.
#[derive(Drop)]
pub(crate) enum Said {
    /// The log ended at the place, and what was to be put there is there.
    Done,
    /// This value stands at the place.
    Holds(Vec<u8>),
    /// Neither.
    Nothing,
}

// The value at the place, in base64.
fn value_text<'j>(json: &'j Value) -> Option<&'j str>
    ensures { option_map (λ text. text.now) result ≡ value_text (view json.now) }
{
    json.pointer("/responses/0/response_range/kvs/0/value")
        .and_then(Value::as_str)
}

// What a JSON value says.
fn said_by(alloc: Global, json: &Value) -> Option<Said>
    ensures { IfSome result (λ said. SaysBy (view json.now) said) }
{
    if json.get("succeeded").and_then(Value::as_bool) == Some(true) {
        return Some(Said::Done);
    }
    let Some(text) = value_text(json) else {
        return Some(Said::Nothing);
    };
    match STANDARD.decode(alloc, text.as_bytes()) {
        Ok(value) => Some(Said::Holds(value)),
        Err(_) => None,
    }
}

/// What the body of an answer says; none where it isn't JSON, or memory was refused.
pub(crate) fn meaning_of(alloc: Global, body: &[u8]) -> Option<Said>
    ensures { IfSome result (λ said. Says body.now said) }
{
    let Ok(text) = str::from_utf8(body) else {
        return None;
    };
    match Value::from_str(alloc, text) {
        Ok(json) => said_by(alloc, &json),
        Err(_) => None,
    }
}
