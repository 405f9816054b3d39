//! What is proved of records done one after the other.

ghost use Rattle.register.specs.Registers.{ReplayedInParts, RowsReplayed};

/// Records done one after the other.
pub fn replays_in_order() -> u8
    ensures parts { ReplayedInParts }
    ensures rows { RowsReplayed }
{
    0
}
