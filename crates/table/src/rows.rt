//! The rows of all keys.

ghost use Rattle.std.specs.Prelude.{◌≡◌, ℕ, ◌<◌, Bool, cond, IfOk, Some, None};
ghost use Rattle.table.specs.Held.{row_of};
ghost use Rattle.table.specs.Columns.{value_in};
ghost use Rattle.table.specs.Update.{is_for, keys_for};

use super::row::{Column, Row};
use super::table::Table;
use std::alloc::{AllocError, Global};

/// The rows of all keys.
pub type Rows = Table<Row>;

impl Rows {
    /// The keys whose row has that value in a column, rising.
    pub fn keys_with(
        &self,
        heap: Global,
        column: Column,
        value: u32,
    ) -> Result<Vec<u16>, AllocError>
        ensures { IfOk result (λ v. v.items ≡ keys_for 4096 (λ k. value_in column.number (row_of self.now k)) value) }
    {
        self.keys_where(
            heap,
            |row| row.is_some_and(|row| row.value(column) == value),
        )
    }
}
