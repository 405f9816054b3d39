//! How long leases run, and how long offices act on them.

ghost use Rattle.std.specs.Prelude.{◌≡◌, ◌+◌, ◌-◌, ◌*◌, MatchOption};
ghost use Rattle.lease.specs.Clocks.{Fits};

/// For how long a lease runs by the store's clock and an office acts on it by its own, in milliseconds, and by how
/// many millionths a clock may be off. They fit: no office acts on a lease that has run out.
#[derive(Clone, Copy, Debug, PartialEq, Eq)]
pub struct Times {
    long: u64,
    short: u64,
    rate: u32,
    ghost fits: { Fits long short rate },
}

/// The office's side of the comparison: for how long it acts on a lease, by a slow clock.
fn acting(short: u64, rate: u32) -> u128
    ensures { result ≡ (short + 1) * (1000000 + rate) + 2000000 }
{
    (u128::from(short) + 1) * (1_000_000 + u128::from(rate)) + 2_000_000
}

/// The store's side of the comparison: for how long a lease runs, by a fast clock.
fn running(long: u64, rate: u32) -> u128
    ensures { result ≡ (long - 1) * (1000000 - rate) }
{
    u128::from(long.saturating_sub(1)) * u128::from(1_000_000u32.saturating_sub(rate))
}

impl Times {
    /// These times, if they fit.
    pub fn new(long: u64, short: u64, rate: u32) -> Option<Times>
        ensures { MatchOption result (Fits long short rate → ⊥) (λ t. (t.long ≡ long) × (t.short ≡ short) × (t.rate ≡ rate)) }
    {
        // `then` would need a clause on its closure, for the fact that they fit.
        if acting(short, rate) <= running(long, rate) {
            Some(Times { long, short, rate })
        } else {
            None
        }
    }

    /// How long a lease runs by the store's clock.
    pub fn long(self) -> u64
        ensures { result ≡ self.long }
    {
        self.long
    }

    /// How long an office acts on a lease by its own clock.
    pub fn short(self) -> u64
        ensures { result ≡ self.short }
    {
        self.short
    }

    /// By how many millionths a clock may be off.
    pub fn rate(self) -> u32
        ensures { result ≡ self.rate }
    {
        self.rate
    }
}
