//! The entries of a log that answers gave or acknowledged so far, from its first on: only their count takes memory.
ghost use Rattle.std.specs.Prelude.{◌≡◌, ◌+◌, ◌<◌, ◌^◌, ℕ, List, [], ◌++◌, length};
ghost use base.Fml.{ftrue};
ghost use Rattle.shared_log.specs.etcd.Told.{entries_code};

use posting_core::ENTRY_BYTES;
use std::marker::Model;

// The entries themselves. They exist only in proofs, and nothing but what is added says which they are.
#[derive(Drop)]
struct Told {
    ghost entries: { List (List ℕ) } by { entries_code },
}

impl Model for Told {
    ghost also_owns = { λ _. ftrue };
}

// Entries that come behind those.
#[derive(Clone, Copy, Drop)]
struct More<'a> {
    entries: &'a [[u8; ENTRY_BYTES]],
}

impl Told {
    // None so far.
    fn nothing() -> Told
        ensures { result.entries ≡ [] }
    {
        Told {}
    }

    // And these behind them.
    fn then(&self, _more: &More<'_>) -> Told
        ensures { result.entries ≡ self.now.entries ++ _more.now.entries.now }
    {
        Told {}
    }
}

/// How many these are.
#[derive(Drop)]
pub(crate) struct Held {
    count: u64,
    told: Told,
    ghost counted: { count ≡ length told.entries },
}

impl Held {
    /// None so far.
    pub(crate) fn nothing() -> Held
        ensures { result.told.entries ≡ [] }
    {
        Held {
            count: 0,
            told: Told::nothing(),
        }
    }

    /// How many these are.
    pub(crate) fn count(&self) -> u64
        ensures { result ≡ length self.now.told.entries }
    {
        self.count
    }

    /// And these behind them.
    pub(crate) fn add(&mut self, more: &[[u8; ENTRY_BYTES]])
        requires { length self.old.told.entries + length more.now < 2 ^ 64 }
        ensures { self.new.told.entries ≡ self.old.told.entries ++ more.now }
    {
        let told = self.told.then(&More { entries: more });
        self.count += more.len() as u64;
        self.told = told;
    }
}
