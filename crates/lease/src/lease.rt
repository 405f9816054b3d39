//! A lease.

ghost use Rattle.std.specs.Prelude.{◌≡◌};
ghost use Rattle.stage.specs.Stages.{rank, ranks};
ghost use Rattle.lease.specs.Leases.{runs, is_of, is_at, stays};
ghost use Rattle.lease.specs.Books.{lease_of};

use stage::{INDEXES, Slot, Stage};

/// The stages of all indexes that an office was told, and the store's clock when that was noted.
#[derive(Clone, Copy, Debug, PartialEq, Eq)]
pub struct Lease {
    pub office: u8,
    pub stages: [Stage; INDEXES],
    pub since: u64,
}

// How long leases run and the reading stay two parameters: a caller has the one for good, the other with each call.
impl Lease {
    /// Whether the lease runs at a reading of the store's clock.
    pub(super) fn runs(&self, long: u64, reading: u64) -> bool
        ensures { result ≡ runs long reading (lease_of self.now) }
    {
        reading < self.since || reading - self.since < long
    }

    /// Whether the lease is of that office and these stages.
    pub(super) fn is_of(&self, office: u8, stages: &[Stage; INDEXES]) -> bool
        ensures { result ≡ is_of office (ranks stages.now) (lease_of self.now) }
    {
        self.office == office && self.stages == *stages
    }

    /// Whether the lease is over, or of that stage of an index.
    pub(super) fn is_at(&self, long: u64, reading: u64, index: Slot, stage: Stage) -> bool
        ensures { result ≡ is_at long reading index.number (rank stage) (lease_of self.now) }
    {
        !self.runs(long, reading) || self.stages[usize::from(index.number())] == stage
    }

    /// Whether the lease stays in the book beside a new one.
    pub(super) fn stays_beside(&self, long: u64, new: &Lease) -> bool
        ensures { result ≡ stays long (lease_of new.now) (lease_of self.now) }
    {
        self.runs(long, new.since) && !self.is_of(new.office, &new.stages)
    }
}
