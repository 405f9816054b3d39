//! What is proved of a change over any steps.

ghost use Rattle.change.specs.Promises.{OneChange, FillTurns};
ghost use Rattle.change.specs.Examples.{CanBePublic, CanBeGone};
ghost use Rattle.change.specs.Batches.{FilledInParts, ClearedInParts, FilledBySteps, ClearedBySteps};

/// The theorem of one change, of every state that steps lead to.
pub fn one_change_keeps() -> u8
    ensures keeps { OneChange }
    ensures turns { FillTurns }
{
    0
}

/// Steps to public and back to gone that can be taken.
pub fn examples_can_be() -> u8
    ensures public { CanBePublic }
    ensures gone { CanBeGone }
{
    0
}

/// Backfill and cleanup of many keys at once.
pub fn batches_are_steps() -> u8
    ensures filled { FilledInParts }
    ensures cleared { ClearedInParts }
    ensures fills { FilledBySteps }
    ensures clears { ClearedBySteps }
{
    0
}
