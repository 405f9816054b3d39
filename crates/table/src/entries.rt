//! The entries of one index.

ghost use Rattle.std.specs.Prelude.{◌≡◌, ℕ, ◌<◌, Bool, cond, not, ◌&&◌, IfOk, Some, None};
ghost use Rattle.table.specs.Held.{entry_of};
ghost use Rattle.table.specs.Update.{is_for, taken_by_other, keys_for};

use super::table::Table;
use keyset::{KEYS, Key};
use std::alloc::{AllocError, Global};

/// The entries of one index: at most one value for each key.
pub type Entries = Table<u32>;

impl Entries {
    /// Whether the key of that number has an entry for that value.
    fn is_for(&self, number: u16, value: u32) -> bool
        ensures { result ≡ is_for (entry_of self.now number) value }
    {
        self.cells.get(usize::from(number)) == Some(&Some(value))
    }

    /// Whether another key has an entry for that value.
    pub fn taken_by_other(&self, value: u32, key: Key) -> bool
        ensures { result ≡ taken_by_other 4096 (entry_of self.now) value key.number }
    {
        (0..KEYS).any(|k| k != key.number() && self.is_for(k, value))
    }

    /// The keys that have an entry for that value, rising.
    pub fn keys_for(&self, heap: Global, value: u32) -> Result<Vec<u16>, AllocError>
        ensures { IfOk result (λ v. v.items ≡ keys_for 4096 (entry_of self.now) value) }
    {
        self.keys_where(heap, |entry| entry == Some(value))
    }
}
