//! What is proved of every run.

ghost use Rattle.std.specs.Prelude.{ℕ};
ghost use Rattle.lease.specs.Clocks.{Times};
ghost use Rattle.service.specs.Calls.{Limits};
ghost use Rattle.service.specs.Promise.{Keeps, Stays, StopsBetween};
ghost use Rattle.service.specs.Examples.{CanRun};

/// The theorem over every list of calls, clock readings, syncs and stops, from an empty register on.
pub fn keeps() -> u8
    ensures { (m : Limits) (p : Times) (clocks : ℕ → ℕ → ℕ) → Keeps m p clocks }
{
    0
}

/// What is synced stays, and a stop leaves what was written after some earlier event.
pub fn stays() -> u8
    ensures synced { (m : Limits) (p : Times) → Stays m p }
    ensures stopped { (m : Limits) (p : Times) → StopsBetween m p }
{
    0
}

/// A run that can come about: a unique index is brought to public, written under, a group is cut by a stop, and the
/// store is up again.
pub fn example_can_run() -> u8
    ensures { CanRun }
{
    0
}
