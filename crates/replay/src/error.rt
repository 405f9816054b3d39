//! Why a window was not read.

ghost use Rattle.std.specs.Prelude.{◌≡◌};
ghost use Rattle.replay.specs.declared.error.NotRead.TheVariants.{NoMemory, Refused};

use change::Refusal;
use std::alloc::AllocError;
use std::error::Error;
use std::fmt;

/// Why a window of a journal was not read.
#[derive(Clone, Copy, Debug, PartialEq, Eq)]
pub enum NotRead {
    /// There was no memory for it.
    NoMemory,
    /// Something in it cannot be read or be done.
    Refused(Refusal),
}

impl fmt::Display for NotRead {
    fn fmt<W: fmt::Write>(&self, f: &mut fmt::Formatter<W>) -> fmt::Result {
        match self {
            NotRead::NoMemory => write!(f, "out of memory"),
            NotRead::Refused(why) => write!(f, "refused by {}", u8::from(*why)),
        }
    }
}

impl Error for NotRead {}

impl From<AllocError> for NotRead {
    ghost from_gives = { λ _ e. e ≡ NoMemory };

    fn from(_short: AllocError) -> Self {
        Self::NoMemory
    }
}

impl From<Refusal> for NotRead {
    ghost from_gives = { λ r e. e ≡ Refused r };

    fn from(refusal: Refusal) -> Self {
        Self::Refused(refusal)
    }
}
