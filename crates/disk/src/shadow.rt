//! A list of bytes that no code holds, and that takes no memory: it follows, in the proofs, what a file is given.

ghost use Rattle.std.specs.Prelude.{◌≡◌, ℕ, List, ◌++◌};
ghost use Rattle.std.specs.Borrow.{ftrue};

use std::marker::Model;

/// Bytes that are only spoken of.
#[derive(Drop)]
pub(super) struct Shadow {
    ghost bytes: { List ℕ },
}

impl Model for Shadow {
    ghost also_owns = { λ _. ftrue };
}

impl Shadow {
    /// The bytes of a slice.
    pub(super) fn of(bytes: &[u8]) -> Shadow
        ensures { result.bytes ≡ bytes.now }
    {
        Shadow {}
    }

    /// The bytes of one, and behind them those of another.
    pub(super) fn joined(front: &Shadow, back: &Shadow) -> Shadow
        ensures { result.bytes ≡ front.now.bytes ++ back.now.bytes }
    {
        Shadow {}
    }
}
