//! The store's book of leases.

ghost use Rattle.std.specs.Prelude.{◌≡◌, [], MatchResult};
ghost use Rattle.std.specs.Option.{option_map};
ghost use Rattle.stage.specs.Stages.{rank, ranks};
ghost use Rattle.lease.specs.Leases.{holds, all_at, noted};
ghost use Rattle.lease.specs.Books.{lease_of, book_of, newest_of};

use super::lease::Lease;
use stage::{INDEXES, Slot, Stage};
use std::alloc::{AllocError, Global};

/// The leases that the store has noted since it came up, the newest first.
#[derive(Drop)]
pub struct Book {
    pub(super) leases: Vec<Lease>,
}

impl Book {
    /// No lease is noted.
    pub fn new(heap: Global) -> Book
        ensures { result.leases.items ≡ [] }
    {
        Book {
            leases: Vec::new(heap),
        }
    }

    /// Notes a lease: it takes the place of one of the same office and stages, and leases that are over are dropped.
    /// Without memory the book is as it was.
    pub fn note(&mut self, heap: Global, long: u64, lease: Lease) -> Result<(), AllocError>
        ensures { MatchResult result (λ _. book_of self.new.leases.items ≡ noted long (lease_of lease) (book_of self.old.leases.items)) (λ _. self.new ≡ self.old) }
    {
        let others = self
            .leases
            .iter()
            .filter(|old| old.stays_beside(long, &lease));
        let mut leases = Vec::new(heap);
        leases.push(lease)?;
        leases.extend(others)?;
        self.leases = leases;
        Ok(())
    }

    /// Whether an office has a running lease of these stages.
    pub fn holds(&self, long: u64, reading: u64, office: u8, stages: &[Stage; INDEXES]) -> bool
        ensures { result ≡ holds long reading office (ranks stages.now) (book_of self.now.leases.items) }
    {
        self.leases.iter().any(|lease| lease.runs(long, reading) && lease.is_of(office, stages))
    }

    /// Whether every running lease is of that stage of an index.
    pub fn all_at(&self, long: u64, reading: u64, index: Slot, stage: Stage) -> bool
        ensures { result ≡ all_at long reading index.number (rank stage) (book_of self.now.leases.items) }
    {
        self.leases
            .iter()
            .all(|lease| lease.is_at(long, reading, index, stage))
    }

    /// The stages of the newest lease that is noted for an office.
    pub fn newest(&self, office: u8) -> Option<[Stage; INDEXES]>
        ensures { option_map ranks result ≡ newest_of office (book_of self.now.leases.items) }
    {
        let lease = self.leases.iter().find(|lease| lease.office == office)?;
        Some(lease.stages)
    }
}
