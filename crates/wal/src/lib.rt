//! A log that is only ever appended to. A stop keeps all that was synced, and some first part of the rest.

#![tactic(auto)]

ghost use Rattle.std.specs.Prelude.{◌≡◌, ◌+◌, ◌≤◌, List, [], take, drop, vec_len};
ghost use Rattle.wal.specs.declared.Fault.TheVariants.{NoMemory, Disk};
ghost use Rattle.wal.specs.Log.{Appended, Synced};

use std::alloc::{AllocError, Global};
use std::io;

#[cfg(test)]
mod tests;

/// Why a log could not be written. What is in it is then not known, and it must not be used again.
#[derive(Clone, Copy)]
pub enum Fault {
    /// There was no memory.
    NoMemory,
    /// The system refused a write or a sync.
    Disk(io::Error),
    /// An earlier write or sync failed.
    Broken,
}

impl From<AllocError> for Fault {
    ghost from_gives = { λ _ fault. fault ≡ NoMemory };

    fn from(_error: AllocError) -> Fault {
        Fault::NoMemory
    }
}

impl From<io::Error> for Fault {
    ghost from_gives = { λ error fault. fault ≡ Disk error };

    fn from(error: io::Error) -> Fault {
        Fault::Disk(error)
    }
}

/// A journal: a log of items of one type.
pub trait Journal<T> {
    // what a stop keeps
    ghost durable: { Self → List T };

    // what was appended since the last sync: a stop keeps some first part of it
    ghost pending: { Self → List T };

    /// Writes items behind those that are there.
    fn append(&mut self, items: &[T]) -> Result<(), Fault>
        ensures { Appended result items.now (durable self.old) (pending self.old) (durable self.new) (pending self.new) };

    /// Makes all that was written durable.
    fn sync(&mut self) -> Result<(), Fault>
        ensures { Synced result (durable self.old) (pending self.old) (durable self.new) (pending self.new) };
}

/// A log in memory.
#[derive(Drop)]
pub struct Memory<T> {
    // One Vec and a length: a sync that moved items into a second Vec could find no memory.
    items: Vec<T>,
    synced: usize,
    ghost within: { synced ≤ vec_len items },
}

impl<T: Copy> Memory<T> {
    /// An empty log.
    pub fn new(heap: Global) -> Self
        ensures { result.items.items ≡ [] }
    {
        Memory {
            items: Vec::new(heap),
            synced: 0,
        }
    }

    /// A stop keeps what was synced, and the first `keep` items of the rest.
    pub fn stop(&mut self, keep: usize)
        ensures synced { self.new.synced ≡ self.old.synced }
        ensures items { self.new.items.items ≡ take (self.old.synced + keep) self.old.items.items }
    {
        let rest = self.items.len() - self.synced;
        if keep < rest {
            self.items.truncate(self.synced + keep);
        }
    }

    /// All that is written.
    pub fn items(&self) -> &[T]
        ensures { result.now ≡ self.now.items.items }
    {
        self.items.as_slice()
    }
}

impl<T: Copy> Journal<T> for Memory<T> {
    ghost durable = { λ m. take m.synced m.items.items };

    ghost pending = { λ m. drop m.synced m.items.items };

    fn append(&mut self, items: &[T]) -> Result<(), Fault> {
        self.items.extend_from_slice(items)?;
        Ok(())
    }

    fn sync(&mut self) -> Result<(), Fault> {
        self.synced = self.items.len();
        Ok(())
    }
}
