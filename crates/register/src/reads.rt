//! What can be asked of the register.

ghost use Rattle.std.specs.Prelude.{◌≡◌, true, false, IfOk};
ghost use Rattle.table.specs.Update.{keys_for};
ghost use Rattle.table.specs.Columns.{value_in};
ghost use Rattle.stage.specs.Stages.{rank, ranks};
ghost use Rattle.change.specs.Index.{refuses as refused_in};
ghost use Rattle.change.specs.Heads.{head_of, slot_of};
ghost use Rattle.keyset.specs.Sets.{any_below};
ghost use Rattle.table.specs.Held.{entry_of};
ghost use Rattle.register.specs.Registers.{stages_now, refused_by};
ghost use Rattle.register.specs.Held.{register_of};

use super::owner::Register;
use super::place::Place;
use change::Index;
use keyset::Key;
use stage::{INDEXES, Slot, Stage};
use std::alloc::{AllocError, Global};
use table::{Column, Row};

impl Register {
    /// The place of an index.
    fn place(&self, index: Slot) -> &Place
        ensures head { slot_of result.now.head ≡ (register_of self.now).head index.number }
        ensures entries { entry_of result.now.entries ≡ (register_of self.now).entry index.number }
    {
        &self.places[index.number() as usize]
    }

    /// The row of a key.
    pub fn row(&self, key: Key) -> Option<Row>
        ensures { result ≡ (register_of self.now).row key.number }
    {
        self.rows.get(key)
    }

    /// The head of an index, if it is there.
    pub fn head(&self, index: Slot) -> Option<Index>
        ensures { slot_of result ≡ (register_of self.now).head index.number }
    {
        self.place(index).head
    }

    /// The entry of a key in an index: its value, if there is one.
    pub fn entry(&self, index: Slot, key: Key) -> Option<u32>
        ensures { result ≡ (register_of self.now).entry index.number key.number }
    {
        self.place(index).entries.get(key)
    }

    /// How often the store has come up.
    pub fn epoch(&self) -> u64
        ensures { result ≡ (register_of self.now).epoch }
    {
        self.epoch
    }

    /// The keys that have an entry for a value, rising.
    pub fn keys_by_index(
        &self,
        heap: Global,
        index: Slot,
        value: u32,
    ) -> Result<Vec<u16>, AllocError>
        ensures { IfOk result (λ v. v.items ≡ keys_for 4096 ((register_of self.now).entry index.number) value) }
    {
        self.place(index).entries.keys_for(heap, value)
    }

    /// The keys whose row has a value in a column, rising.
    pub fn keys_by_rows(
        &self,
        heap: Global,
        column: Column,
        value: u32,
    ) -> Result<Vec<u16>, AllocError>
        ensures { IfOk result (λ v. v.items ≡ keys_for 4096 (λ k. value_in column.number ((register_of self.now).row k)) value) }
    {
        self.rows.keys_with(heap, column, value)
    }

    /// Whether another key has an entry for the value of a key's row, in a unique index with that head.
    pub fn is_taken(&self, index: Slot, head: Index, key: Key) -> bool
        ensures { result ≡ refused_in 4096 (head_of head) 2 key.number (value_in head.column.number ((register_of self.now).row key.number)) ((register_of self.now).entry index.number) }
    {
        self.place(index).is_taken(head, &self.rows, key)
    }

    /// The stages of all indexes.
    pub fn stages(&self) -> [Stage; INDEXES]
        ensures { ranks result ≡ stages_now 8 (register_of self.now) }
    {
        self.places.each_ref().map(Place::stage)
    }

    /// Whether some index refuses a key's row to whoever knows these stages.
    pub fn refuses(&self, stages: &[Stage; INDEXES], key: Key, row: Row) -> bool
        ensures { result ≡ any_below (refused_by 4096 (register_of self.now) (ranks stages.now) key.number row) 8 }
    {
        self.places
            .iter()
            .zip(stages)
            .any(|(place, stage)| place.refuses(*stage, key, row))
    }
}
