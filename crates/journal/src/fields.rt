//! Keys, rows and stages among the bytes of a record.

ghost use Rattle.std.specs.Prelude.{◌≡◌, ℕ, ◌<◌, true, List, [], ◌∷◌};
ghost use Rattle.std.specs.Option.{option_map};
ghost use Rattle.stage.specs.Stages.{rank, ranks};
ghost use Rattle.register.specs.Registers.{are_stages};
ghost use Rattle.journal.specs.Bytes.{two, fours, pairs, Columns, stage_bytes};
ghost use Rattle.journal.specs.Reads.{ReadOf, IsWritten};

use keyset::Key;
use stage::{INDEXES, Stage};
use std::array;
use table::Row;

/// The key of these bytes, if there is one of that number.
pub(super) fn key(bytes: [u8; 2]) -> Option<Key>
    ensures { ReadOf two (λ k. k < 4096) bytes (option_map (λ k. k.number) result) }
{
    Key::new(u16::from_be_bytes(bytes))
}

/// The row of these bytes.
pub(super) fn row(bytes: &[u8; 32]) -> Row
    ensures columns { bytes.now ≡ fours result.columns }
    ensures fit { Columns result.columns }
{
    let (numbers, _) = bytes.as_chunks::<4>();
    Row {
        columns: array::from_fn(|i| u32::from_be_bytes(numbers[i])),
    }
}

/// The stage of a number, if such a stage is written: an absent one is not.
fn written(number: u8) -> Option<Stage>
    ensures { ReadOf (λ s. s ∷ []) IsWritten (number ∷ []) (option_map rank result) }
{
    match Stage::try_from(number) {
        Ok(Stage::Absent) | Err(_) => None,
        Ok(stage) => Some(stage),
    }
}

/// The stages of all indexes, of pairs of an index and its stage that rise by index. What has no pair is absent.
fn paired(bytes: &[u8]) -> Option<[Stage; INDEXES]>
    ensures { ReadOf (pairs 0) (λ ss. are_stages 8 ss ≡ true) bytes.now (option_map ranks result) }
{
    let mut stages = [Stage::Absent; INDEXES];
    let mut rest = bytes;
    for (index, stage) in stages.iter_mut().enumerate() {
        if let [first, number, more @ ..] = rest
            && usize::from(*first) == index
        {
            *stage = written(*number)?;
            rest = more;
        }
    }
    rest.is_empty().then_some(stages)
}

/// The stages of all indexes, behind the count of those that are there.
pub(super) fn stages(bytes: &[u8]) -> Option<[Stage; INDEXES]>
    ensures { ReadOf stage_bytes (λ ss. are_stages 8 ss ≡ true) bytes.now (option_map ranks result) }
{
    let (count, pairs) = bytes.split_first()?;
    if pairs.len() != 2 * usize::from(*count) {
        return None;
    }
    paired(pairs)
}
