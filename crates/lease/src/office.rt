//! An office's own side: the leases that it was told, by its own clock.

ghost use Rattle.std.specs.Prelude.{◌≡◌, MatchResult};
ghost use Rattle.lease.specs.Desks.{desk_of, fresh, asks, acts_on, told, until, newest_acted};

use stage::{INDEXES, Stage};
use std::alloc::{AllocError, Global};

/// A lease that an office was told: the epoch, the stages of all indexes, and what its own clock showed when it asked.
#[derive(Clone, Copy, Debug, PartialEq, Eq)]
pub struct Grant {
    pub epoch: u64,
    pub stages: [Stage; INDEXES],
    pub asked: u64,
}

/// An office's leases by its own clock, the newest first, and what its clock showed when it last asked for one that
/// has not come.
#[derive(Drop)]
pub struct Desk {
    short: u64,
    asked: Option<u64>,
    pub(super) grants: Vec<Grant>,
}

impl Grant {
    /// Whether the office acts on the grant at a reading of its own clock.
    fn is_acted_on(&self, short: u64, own: u64) -> bool
        ensures { result ≡ acts_on short own self.now }
    {
        own.saturating_sub(self.asked) <= short
    }
}

impl Desk {
    /// Nothing is asked for or granted; the office is to act on a lease for so long by its own clock.
    pub fn new(heap: Global, short: u64) -> Desk
        ensures { desk_of result ≡ fresh short }
    {
        Desk {
            short,
            asked: None,
            grants: Vec::new(heap),
        }
    }

    /// Notes what the office's own clock shows as it asks for a lease.
    pub fn ask(&mut self, own: u64)
        ensures { desk_of self.new ≡ asks own (desk_of self.old) }
    {
        self.asked = Some(own);
    }

    /// Notes the store's answer to the last asking, and tells until which reading of its own clock the office acts on
    /// it; nothing where it has not asked. Without memory the desk is as it was.
    pub fn granted(
        &mut self,
        heap: Global,
        epoch: u64,
        stages: [Stage; INDEXES],
    ) -> Result<Option<u64>, AllocError>
        ensures { MatchResult result (λ end. (end ≡ until self.old.short self.old.asked) × (desk_of self.new ≡ told self.old.asked epoch stages (desk_of self.old))) (λ _. self.new ≡ self.old) }
    {
        let Some(asked) = self.asked else {
            return Ok(None);
        };
        let new = Grant {
            epoch,
            stages,
            asked,
        };
        let others = self
            .grants
            .iter()
            .filter(|old| old.is_acted_on(self.short, asked));
        let mut grants = Vec::new(heap);
        grants.push(new)?;
        grants.extend(others)?;
        self.grants = grants;
        self.asked = None;
        Ok(Some(asked.saturating_add(self.short)))
    }

    /// The newest grant, if the office acts on it at that reading of its own clock.
    pub fn may(&self, own: u64) -> Option<Grant>
        ensures { result ≡ newest_acted self.now.short own self.now.grants.items }
    {
        self.grants
            .first()
            .copied()
            .filter(|grant| grant.is_acted_on(self.short, own))
    }
}
