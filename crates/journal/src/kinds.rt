//! The kinds of records.

ghost use Rattle.std.specs.Prelude.{◌≡◌, ◌≤◌, ◌⊎◌, MatchResult};
ghost use Rattle.journal.specs.declared.error.Unread.TheVariants.{Bad};
ghost use Rattle.journal.specs.Kinds.{first_byte};

use super::error::Unread;

/// The kind of a record, which its first byte tells.
#[derive(Clone, Copy, Debug, PartialEq, Eq)]
pub(super) enum Kind {
    Put = 1,
    Removed,
    Made,
    WentUp,
    Turned,
    WentDown,
    Filled,
    Cleared,
    CameUp,
}

impl TryFrom<u8> for Kind {
    type Error = Unread;

    ghost try_from_gives = { λ n r. MatchResult r (λ k. first_byte k ≡ n) (λ e. (e ≡ Bad) × ((n ≡ 0) ⊎ (10 ≤ n))) };

    fn try_from(byte: u8) -> Result<Self, Unread> {
        match byte {
            1 => Ok(Kind::Put),
            2 => Ok(Kind::Removed),
            3 => Ok(Kind::Made),
            4 => Ok(Kind::WentUp),
            5 => Ok(Kind::Turned),
            6 => Ok(Kind::WentDown),
            7 => Ok(Kind::Filled),
            8 => Ok(Kind::Cleared),
            9 => Ok(Kind::CameUp),
            _ => Err(Unread::Bad),
        }
    }
}
