//! The store.

ghost use Rattle.service.specs.Held.{store_of};
ghost use Rattle.service.specs.Reached.{Reached};

use super::owner::State;

/// The store while it is up. Its register and its leases are those of some possible list of events: calls, time that
/// passes, syncs, stops and comings-up, from an empty register on.
#[derive(Drop)]
pub struct Store {
    pub(super) state: State,
    pub(super) clock: u64,
    pub(super) announced: bool,
    ghost reached: { ∥ Reached state.times.long state.times.short state.times.rate (store_of state) clock ∥₁ },
}
