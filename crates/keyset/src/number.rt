//! Numbers of things that are counted from 0.

ghost use Rattle.std.specs.Prelude.{◌≡◌, ℕ, ◌<◌, ◌≤◌, ⊤, MatchOption};

use std::alloc::AllocError;
use std::marker::PhantomData;

/// The number of one thing of a kind, of which there are `N`: from 0 to `N - 1`.
pub struct Number<Kind, const N: u16> {
    number: u16,
    kind: PhantomData<Kind>,
    ghost small: { number < N },
}

// By hand, since `Clone` is not derived over a fact of the type where it has parameters.
impl<Kind, const N: u16> Clone for Number<Kind, N> {
    ghost is_clone = { λ n m. m ≡ n };

    ghost is_infallible = { λ _. ⊤ };

    fn clone(&self) -> Result<Self, AllocError> {
        Ok(*self)
    }
}

impl<Kind, const N: u16> Copy for Number<Kind, N> {}

impl<Kind, const N: u16> Number<Kind, N> {
    // `new` and `number`, as of any number with a bound: callers go on by `?` on an `Option`.
    /// The thing of that number, if there is one.
    pub fn new(number: u16) -> Option<Self>
        ensures { MatchOption result (N ≤ number) (λ k. k.number ≡ number) }
    {
        // An `if`, since `then` would need a clause on its closure, for the fact that the number is small.
        if number < N {
            Some(Number {
                number,
                kind: PhantomData,
            })
        } else {
            None
        }
    }

    /// The number.
    pub fn number(self) -> u16
        ensures { result ≡ self.number }
    {
        self.number
    }
}
