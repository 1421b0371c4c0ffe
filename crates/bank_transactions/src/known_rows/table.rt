//! A table in which each key has one place.
ghost use Rattle.std.specs.Prelude.{◌≡◌, ◌+◌, ◌≤◌, length};
ghost use Rattle.bank_transactions.specs.Stamps.{AreUntil};

use super::entry::{Entry, empty_all};
use std::alloc::{AllocError, Global};

// The places, as many as a power of two. Those of another stamp than the table's are forgotten.
#[derive(Drop)]
struct Table<V> {
    entries: Vec<Option<Entry<V>>>,
    // The bits of a key that are the number of its place.
    mask: u64,
    stamp: u64,
    ghost whole: { mask + 1 ≡ length entries.items },
    ghost until: { AreUntil stamp entries.items },
}

/// Values that are known under keys: under each the last one that was put there, as long as it has its place. The
/// place of a key is its low bits, and a value takes that place from whatever was there, also under another key. So
/// a table never grows, and a look-up asks one place.
#[derive(Drop)]
pub struct Known<V> {
    table: Option<Table<V>>,
}

impl<V: Copy> Table<V> {
    ghost use Rattle.std.specs.Prelude.{◌<◌};
    ghost use Rattle.bank_transactions.specs.Known.{place_among};

    // The place of a key.
    #[inline]
    fn place(&self, key: u64) -> usize
        ensures value { result ≡ place_among (length self.now.entries.items) key }
        ensures within { result < length self.now.entries.items }
    {
        (key & self.mask) as usize
    }
}

#[tactic(auto, unfolding(crate::specs::Known::known_under, crate::specs::Known::places))]
impl<V: Copy> Known<V> {
    ghost use Rattle.std.specs.Prelude.{◌<◌, ◌^◌, ◌≢◌, ◌⊎◌, ℕ, IfOk, None};
    ghost use Rattle.bank_transactions.specs.Known.{Knows, KnowsNothing, known_under, place, places};

    /// A table of no places, in which nothing is ever known. It takes no memory.
    #[must_use]
    pub fn none() -> Self
        ensures nothing { KnowsNothing result }
        ensures room { places result ≡ 0 }
    {
        Known { table: None }
    }

    /// A table of 2 to the power of `bits` places, in which nothing is known yet.
    pub fn with_places(alloc: Global, bits: u32) -> Result<Self, AllocError>
        requires { bits < 64 }
        ensures nothing { IfOk result KnowsNothing }
        ensures room { IfOk result (λ known. places known ≡ 2 ^ bits) }
    {
        let count = 1_usize << bits;
        let mut entries = Vec::new(alloc);
        entries.resize(count, None)?;
        let table = Table {
            entries,
            mask: count as u64 - 1,
            stamp: 0,
        };
        Ok(Known { table: Some(table) })
    }

    /// What is known under a key.
    #[inline]
    #[must_use]
    pub fn get(&self, key: u64) -> Option<V>
        ensures { result ≡ known_under self.now key }
    {
        let Some(table) = &self.table else {
            return None;
        };
        match &table.entries[table.place(key)] {
            Some(entry) if entry.key == key && entry.stamp == table.stamp => Some(entry.value),
            _ => None,
        }
    }

    /// Puts a value under a key, in place of what its place held. A table of no places stays as it is.
    #[inline]
    pub fn put(&mut self, key: u64, value: V)
        ensures true_after { (k : ℕ) (v : V) → Knows self.new k v
            → ((k ≡ key) × (v ≡ value)) ⊎ ((k ≢ key) × Knows self.old k v) }
        ensures known { 0 < places self.old → Knows self.new key value }
        ensures others { (k : ℕ) → place self.old k ≢ place self.old key
            → known_under self.new k ≡ known_under self.old k }
        ensures room { places self.new ≡ places self.old }
    {
        if let Some(table) = &mut self.table {
            let place = table.place(key);
            let stamp = table.stamp;
            table.entries[place] = Some(Entry { key, stamp, value });
        }
    }

    /// Forgets all. The places stay.
    pub fn forget(&mut self)
        ensures nothing { KnowsNothing self.new }
        ensures room { places self.new ≡ places self.old }
    {
        if let Some(table) = &mut self.table {
            if table.stamp < u64::MAX {
                table.stamp += 1;
            } else {
                empty_all(&mut table.entries);
            }
        }
    }

    /// Forgets what is known under a key.
    pub fn forget_key(&mut self, key: u64)
        ensures under_key { known_under self.new key ≡ None }
        ensures others { (k : ℕ) → k ≢ key → known_under self.new k ≡ known_under self.old k }
        ensures room { places self.new ≡ places self.old }
    {
        if let Some(table) = &mut self.table {
            let place = table.place(key);
            if let Some(entry) = &table.entries[place]
                && entry.key == key
            {
                table.entries[place] = None;
            }
        }
    }
}
