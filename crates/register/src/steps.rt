//! What each record does to the register.

ghost use Rattle.std.specs.Prelude.{◌≡◌, true, List, map, IfOk};
ghost use Rattle.stage.specs.Stages.{ranks, written};
ghost use Rattle.register.specs.Registers.{bare, wrote, applied, put, removed, came_up};
ghost use Rattle.register.specs.Held.{register_of, record_of, can_do, Applied, Replayed};

use super::kinds::Record;
use super::owner::Register;
use super::place::Place;
use change::Refusal;
use keyset::Key;
use stage::{INDEXES, Stage, Write};
use std::alloc::{AllocError, Global};
use std::array;
use table::{Row, Rows};

impl Register {
    /// No rows, no indexes, never come up.
    pub fn new(heap: Global) -> Result<Register, AllocError>
        ensures { IfOk result (λ t. register_of t ≡ bare) }
    {
        Ok(Register {
            rows: Rows::new(heap)?,
            places: array::try_from_fn(|_| Place::new(heap))?,
            epoch: 0,
        })
    }

    /// Writes a key's row, and what follows from it to the indexes, as whoever knows these stages does.
    pub(super) fn write(&mut self, key: Key, write: Write, stages: &[Stage; INDEXES])
        ensures { register_of self.new ≡ wrote key.number (written write) (ranks stages.now) (register_of self.old) }
    {
        let old = self.rows.get(key);
        // By index, since nothing is known of what is written through a `zip`.
        for (i, place) in self.places.iter_mut().enumerate() {
            place.follow(stages[i], key, old, write);
        }
        match write {
            Write::Put(row) => self.rows.put(key, row),
            Write::Take => self.rows.take(key),
        }
    }

    /// Puts a row.
    fn put(&mut self, key: Key, row: Row, stages: &[Stage; INDEXES])
        ensures { (can_do (put key.number row (ranks stages.now)) (register_of self.old) ≡ true) × (register_of self.new ≡ applied (put key.number row (ranks stages.now)) (register_of self.old)) }
    {
        self.write(key, Write::Put(row), stages);
    }

    /// Takes a row away.
    fn remove(&mut self, key: Key, stages: &[Stage; INDEXES]) -> Result<(), Refusal>
        ensures { Applied result (removed key.number (ranks stages.now)) (register_of self.old) (register_of self.new) }
    {
        if self.rows.get(key).is_none() {
            return Err(Refusal::NoRow);
        }
        self.write(key, Write::Take, stages);
        Ok(())
    }

    /// The store comes up once more.
    fn come_up(&mut self) -> Result<(), Refusal>
        ensures { Applied result came_up (register_of self.old) (register_of self.new) }
    {
        self.epoch = self.epoch.checked_add(1).ok_or(Refusal::OutOfRange)?;
        Ok(())
    }

    /// Does a record to the register: as a call is answered, and again as the store comes up. A record that cannot be
    /// done is refused, and changes nothing.
    pub fn apply(&mut self, what: Record) -> Result<(), Refusal>
        ensures { Applied result (record_of what) (register_of self.old) (register_of self.new) }
    {
        match what {
            Record::Put(key, row, stages) => {
                self.put(key, row, &stages);
                Ok(())
            }
            Record::Removed(key, stages) => self.remove(key, &stages),
            Record::Made(index, column, unique) => {
                self.places[index.number() as usize].make(column, unique)
            }
            Record::WentUp(index) => self.places[index.number() as usize].raise(),
            Record::Turned(index) => self.places[index.number() as usize].turn(),
            Record::WentDown(index) => self.places[index.number() as usize].lower(),
            Record::Filled(index, key) => {
                self.places[index.number() as usize].fill(&self.rows, key)
            }
            Record::Cleared(index, key) => self.places[index.number() as usize].clear(key),
            Record::CameUp => self.come_up(),
        }
    }

    /// Does records again, in order. One that cannot be done refuses them all as out of range.
    pub fn replay(&mut self, records: &[Record]) -> Result<(), Refusal>
        ensures { Replayed result (map record_of records.now) (register_of self.old) (register_of self.new) }
    {
        for what in records {
            self.apply(*what).map_err(|_| Refusal::OutOfRange)?;
        }
        Ok(())
    }
}
