//! Whether a register is one that a store may come up with.

ghost use Rattle.std.specs.Prelude.{◌≡◌, ℕ, ◌<◌};
ghost use Rattle.table.specs.Held.{row_of, entry_of};
ghost use Rattle.table.specs.Columns.{value_in};
ghost use Rattle.change.specs.Heads.{head_of, slot_of};
ghost use Rattle.register.specs.Whole.{Whole, Tells, empty_to, full_to};
ghost use Rattle.register.specs.Right.{EntryRight, KeyRight, IndexRight};
ghost use Rattle.register.specs.Held.{register_of};

use super::owner::Register;
use super::place::Place;
use change::{Index, Way};
use keyset::{KEYS, Key};
use stage::Stage;
use table::Rows;

impl Register {
    /// Whether nothing is wrong in the register: rows and indexes are in range, no entry is without its row, none is
    /// twice in a unique index, and the entries are those that the head of their index says.
    pub fn is_whole(&self) -> bool
        ensures { Tells result (Whole 4096 8 (register_of self.now)) }
    {
        self.places.iter().all(|place| place.is_right(&self.rows))
    }
}

/// Below which key no entry may be there.
fn empty_to(head: Index) -> u16
    ensures { result ≡ empty_to 4096 (head_of head) }
{
    match head.way {
        Way::Up(Stage::Absent) | Way::Up(Stage::DeleteOnly) | Way::Down(Stage::Absent) => KEYS,
        Way::Down(Stage::DeleteOnly) => head.done,
        _ => 0,
    }
}

/// Below which key every row has its entry.
fn full_to(head: Index) -> u16
    ensures { result ≡ full_to 4096 (head_of head) }
{
    match head.way {
        Way::Up(Stage::WriteOnly) => head.done,
        Way::Up(Stage::Public) | Way::Down(Stage::Public) => KEYS,
        _ => 0,
    }
}

/// Whether a key's entry is its row's own, and is there or not as the index's head says.
fn entry_is_right(head: Index, key: Key, entry: Option<u32>, cell: Option<u32>) -> bool
    ensures { Tells result (EntryRight key.number entry cell (empty_to 4096 (head_of head)) (full_to 4096 (head_of head))) }
{
    match (entry, cell) {
        (Some(value), Some(own)) => value == own && empty_to(head) <= key.number(),
        (Some(_), None) => false,
        (None, Some(_)) => full_to(head) <= key.number(),
        (None, None) => true,
    }
}

impl Place {
    /// Whether a key's entry is right.
    fn key_is_right(&self, rows: &Rows, key: Key) -> bool
        ensures { Tells result (KeyRight 4096 (slot_of self.now.head) (row_of rows.now key.number) (entry_of self.now.entries) key.number) }
    {
        let entry = self.entries.get(key);
        let Some(head) = self.head else {
            return entry.is_none();
        };
        let cell = rows.get(key).map(|row| row.value(head.column));
        entry_is_right(head, key, entry, cell)
            && !(head.unique && entry.is_some_and(|value| self.entries.taken_by_other(value, key)))
    }

    /// Whether all entries of the index are right.
    fn is_right(&self, rows: &Rows) -> bool
        ensures { Tells result (IndexRight 4096 (slot_of self.now.head) (row_of rows.now) (entry_of self.now.entries)) }
    {
        self.head.is_none_or(|head| head.done <= KEYS)
            && (0..KEYS).all(|number| {
                Key::new(number).is_none_or(|key| self.key_is_right(rows, key))
            })
    }
}
