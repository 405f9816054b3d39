//! Rows, entries and heads together.

ghost use Rattle.std.specs.Prelude.{◌≡◌, length};

use super::place::Place;
use stage::INDEXES;
use table::Rows;

/// The rows, the place of each index, and how often the store has come up.
#[derive(Drop)]
pub struct Register {
    pub(super) rows: Rows,
    pub(super) places: [Place; INDEXES],
    pub(super) epoch: u64,
    ghost places_long: { length places ≡ 8 },
}
