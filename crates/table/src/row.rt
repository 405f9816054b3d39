//! A row, and the number of a column.

ghost use Rattle.std.specs.Prelude.{◌≡◌, slice_index};

use keyset::Number;

/// How many columns a row has.
pub const COLUMNS: usize = 8;

/// What each column of a row holds.
#[derive(Clone, Copy)]
pub struct Row {
    pub columns: [u32; COLUMNS],
}

/// What a column is the number of.
#[derive(Clone, Copy)]
pub struct OfColumn;

/// The number of a column, from 0 to 7.
pub type Column = Number<OfColumn, 8>;

impl Row {
    /// What the row has in a column.
    pub fn value(&self, column: Column) -> u32
        ensures { result ≡ slice_index self.now.columns column.number }
    {
        self.columns[usize::from(column.number())]
    }
}
