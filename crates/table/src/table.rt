//! At most one thing for each key.

ghost use Rattle.std.specs.Prelude.{◌≡◌, ℕ, ◌<◌, ◌≤◌, Bool, cond, length, IfOk, Some, None};

use keyset::Key;
use std::alloc::{AllocError, Global};

/// What each key has, if it has something.
#[derive(Drop)]
pub struct Table<T> {
    pub(super) cells: Vec<Option<T>>,
    ghost one_for_each_key: { length cells.items ≡ 4096 },
}

impl<T: Copy> Table<T> {
    ghost use Rattle.keyset.specs.Sets.{keys_below};
    ghost use Rattle.table.specs.Held.{cell_of};
    ghost use Rattle.table.specs.Update.{update};

    /// No key has anything.
    pub fn new(heap: Global) -> Result<Self, AllocError>
        ensures { IfOk result (λ t. (j : ℕ) → cell_of t j ≡ None) }
    {
        let cells = vec![in heap; None; 4096]?;
        Ok(Table { cells })
    }

    /// What a key has.
    pub fn get(&self, key: Key) -> Option<T>
        ensures { result ≡ cell_of self.now key.number }
    {
        let at = usize::from(key.number());
        self.cells[at]
    }

    /// Gives a key something, in place of what it had.
    pub fn put(&mut self, key: Key, value: T)
        ensures { (j : ℕ) → cell_of self.new j ≡ update key.number (Some value) (cell_of self.old) j }
    {
        self.cells[usize::from(key.number())] = Some(value);
    }

    /// Takes away what a key has, if it has something.
    pub fn take(&mut self, key: Key)
        ensures { (j : ℕ) → cell_of self.new j ≡ update key.number None (cell_of self.old) j }
    {
        self.cells[usize::from(key.number())] = None;
    }

    /// The keys for which a test passes what they have, rising.
    pub(super) fn keys_where<F: Fn(Option<T>) -> bool>(
        &self,
        heap: Global,
        test: F,
    ) -> Result<Vec<u16>, AllocError>
        requires { F.IsAlwaysCallable test }
        ensures { IfOk result (λ v. (f : ℕ → Bool) → ((k : ℕ) (b : Bool) → F.post test (cell_of self.now k) b → b ≡ f k) → v.items ≡ keys_below f 4096) }
    {
        let mut found = Vec::new(heap);
        for (k, cell) in self.cells.iter().enumerate() {
            if test(*cell) {
                found.push(k as u16)?;
            }
        }
        Ok(found)
    }
}
