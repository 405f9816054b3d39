//! What is proved of the bytes of records.

ghost use Rattle.journal.specs.Laws.{NoTwo, ReadBack, CutAnywhere, CutBehind, UnknownRefused};

/// No two records have the same bytes, and what is written is read back.
pub fn reads_what_was_written() -> u8
    ensures two { NoTwo }
    ensures back { ReadBack }
{
    0
}

/// A cut leaves whole records and a part of one, which is told from bytes that no store writes.
pub fn cut_leaves_records() -> u8
    ensures anywhere { CutAnywhere }
    ensures behind { CutBehind }
    ensures unknown { UnknownRefused }
{
    0
}
