//! What a place holds.
ghost use Rattle.std.specs.Prelude.{◌≡◌, ℕ, None, slice_index_or};

/// A value, under its key, and when it was put there.
#[derive(Clone, Copy)]
pub(crate) struct Entry<V> {
    pub(crate) key: u64,
    pub(crate) stamp: u64,
    pub(crate) value: V,
}

/// Empties places.
pub(crate) fn empty_all<V: Copy>(entries: &mut [Option<V>])
    ensures { (i : ℕ) → slice_index_or entries.new i None ≡ None }
{
    for entry in entries.iter_mut() {
        *entry = None;
    }
}
