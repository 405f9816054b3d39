//! What an office does to an index when it writes a row, by the stage of the index that the office knows.

#![tactic(auto)]

ghost use Rattle.std.specs.Prelude.{◌≡◌, ℕ, ◌<◌, ◌≤◌, Bool, true, false, cond, not, ◌&&◌, Some, None, MatchResult, ◌==◌, nat_le};
ghost use Rattle.table.specs.Held.{entry_of};
ghost use Rattle.table.specs.Columns.{value_in};
ghost use Rattle.table.specs.Update.{update};
ghost use Rattle.stage.specs.Stages.{rank, written, taken_out, entry_after, refused_by};

use keyset::Key;
use table::{Column, Entries, Row};

mod kinds;
mod slot;

pub use kinds::{INDEXES, NoStage, Stage, Write};
pub use slot::{OfIndex, Slot};

impl TryFrom<u8> for Stage {
    type Error = NoStage;

    ghost try_from_gives = { λ n r. MatchResult r (λ s. rank s ≡ n) (λ _. 4 ≤ n) };

    fn try_from(number: u8) -> Result<Self, NoStage> {
        match number {
            0 => Ok(Stage::Absent),
            1 => Ok(Stage::DeleteOnly),
            2 => Ok(Stage::WriteOnly),
            3 => Ok(Stage::Public),
            _ => Err(NoStage(number)),
        }
    }
}

impl From<Stage> for u8 {
    ghost from_gives = { λ s n. n ≡ rank s };

    fn from(stage: Stage) -> u8 {
        stage as u8
    }
}

impl Stage {
    /// Whether rows are looked up by an index in this stage.
    pub fn looks_up(self) -> bool
        ensures { result ≡ (rank self == 3) }
    {
        self == Stage::Public
    }

    /// Whether whoever is in this stage puts entries in.
    fn puts_in(self) -> bool
        ensures { result ≡ nat_le 2 (rank self) }
    {
        self >= Stage::WriteOnly
    }
}

/// Takes out the entry of the row that a key had, if it had one.
fn take_out(entries: &mut Entries, column: Column, key: Key, old: Option<Row>)
    ensures { (j : ℕ) → entry_of entries.new j ≡ update key.number (taken_out (value_in column.number old) (entry_of entries.old key.number)) (entry_of entries.old) j }
{
    if old.is_some_and(|row| entries.get(key) == Some(row.value(column))) {
        entries.take(key);
    }
}

// Entries, column and key stay parameters: the entries are lent, and the others are of one write to one index.
/// What an office that knows an index in a stage does to the index as it writes a key's row.
pub fn follow(
    entries: &mut Entries,
    stage: Stage,
    column: Column,
    key: Key,
    old: Option<Row>,
    write: Write,
)
    ensures { (j : ℕ) → entry_of entries.new j ≡ update key.number (entry_after (rank stage) (value_in column.number old) (value_in column.number (written write)) (entry_of entries.old key.number)) (entry_of entries.old) j }
{
    match (stage, write) {
        (Stage::Absent, _) => {}
        (Stage::DeleteOnly, _) => take_out(entries, column, key, old),
        (Stage::WriteOnly | Stage::Public, Write::Take) => take_out(entries, column, key, old),
        (Stage::WriteOnly | Stage::Public, Write::Put(row)) => {
            take_out(entries, column, key, old);
            entries.put(key, row.value(column));
        }
    }
}

/// Whether an index refuses what an office that knows it in a stage writes to a key: it is unique, and another key
/// has an entry for the value.
pub fn refuses(
    entries: &Entries,
    unique: bool,
    stage: Stage,
    column: Column,
    key: Key,
    write: Write,
) -> bool
    ensures { result ≡ refused_by 4096 unique (rank stage) (entry_of entries.now) key.number (value_in column.number (written write)) }
{
    match write {
        Write::Put(row) => unique
            && stage.puts_in()
            && entries.taken_by_other(row.value(column), key),
        Write::Take => false,
    }
}

#[cfg(test)]
mod tests;
