//! The place of one index: its head and its entries.

ghost use Rattle.std.specs.Prelude.{◌≡◌, ℕ, true, false, not, ◌&&◌, IfOk, Some, None, ◌==◌};
ghost use Rattle.table.specs.Held.{row_of, entry_of};
ghost use Rattle.table.specs.Columns.{value_in};
ghost use Rattle.table.specs.Update.{update};
ghost use Rattle.stage.specs.Stages.{rank, written, entry_after};
ghost use Rattle.change.specs.Protocol.{there, up as upward, stage_of, done_of, raised, turned_down, lowered, onward, why_not_make, why_not_up, why_not_turn, why_not_down, why_not_fill, why_not_clear};
ghost use Rattle.change.specs.Index.{refuses as refused_in, must_turn, backfilled, cleaned_up};
ghost use Rattle.change.specs.OneChange.{is_none};
ghost use Rattle.change.specs.Heads.{head_of, slot_of, about_of};
ghost use Rattle.register.specs.Registers.{cell_of};
ghost use Rattle.register.specs.Held.{OneStep, HeadStep, HeadFrom};

use change::{Index, Refusal};
use keyset::Key;
use stage::{Stage, Write};
use std::alloc::{AllocError, Global};
use table::{Column, Entries, Row, Rows};

/// What the register has of one index: its head, if the index is there, and its entries.
#[derive(Drop)]
pub(super) struct Place {
    pub(super) head: Option<Index>,
    pub(super) entries: Entries,
}

impl Place {
    /// The place of an index that is not there.
    pub(super) fn new(heap: Global) -> Result<Place, AllocError>
        ensures { IfOk result (λ p. (p.head ≡ None) × ((j : ℕ) → entry_of p.entries j ≡ None)) }
    {
        Ok(Place {
            head: None,
            entries: Entries::new(heap)?,
        })
    }

    /// The stage of the index, absent where it is not there.
    pub(super) fn stage(&self) -> Stage
        ensures { rank result ≡ stage_of (slot_of self.now.head) }
    {
        self.head.map_or(Stage::Absent, |head| head.stage())
    }

    /// Whether an index with that head refuses a key's row to whoever knows it in a stage.
    fn refuses_under(&self, head: Index, stage: Stage, key: Key, row: Row) -> bool
        ensures { result ≡ refused_in 4096 (head_of head) (rank stage) key.number (value_in head.column.number (Some row)) (entry_of self.now.entries) }
    {
        stage::refuses(
            &self.entries,
            head.unique,
            stage,
            head.column,
            key,
            Write::Put(row),
        )
    }

    /// Whether the index refuses a key's row to whoever knows it in a stage.
    pub(super) fn refuses(&self, stage: Stage, key: Key, row: Row) -> bool
        ensures { result ≡ refused_in 4096 (slot_of self.now.head) (rank stage) key.number (cell_of (slot_of self.now.head) (Some row)) (entry_of self.now.entries) }
    {
        self.head
            .is_some_and(|head| self.refuses_under(head, stage, key, row))
    }

    /// Whether another key has an entry for the value of a key's row, if the index is unique and has that head.
    pub(super) fn is_taken(&self, head: Index, rows: &Rows, key: Key) -> bool
        ensures { result ≡ refused_in 4096 (head_of head) 2 key.number (value_in head.column.number (row_of rows.now key.number)) (entry_of self.now.entries) }
    {
        rows.get(key)
            .is_some_and(|row| self.refuses_under(head, Stage::WriteOnly, key, row))
    }

    /// What a writer who knows the index in a stage does to it, if it is there.
    pub(super) fn follow(&mut self, stage: Stage, key: Key, old: Option<Row>, write: Write)
        ensures head { self.new.head ≡ self.old.head }
        ensures entries { (j : ℕ) → entry_of self.new.entries j ≡ update key.number (entry_after (rank stage) (cell_of (slot_of self.old.head) old) (cell_of (slot_of self.old.head) (written write)) (entry_of self.old.entries key.number)) (entry_of self.old.entries) j }
    {
        if let Some(head) = self.head {
            stage::follow(&mut self.entries, stage, head.column, key, old, write);
        }
    }

    /// Makes the index.
    pub(super) fn make(&mut self, column: Column, unique: bool) -> Result<(), Refusal>
        ensures { HeadStep result why_not_make (λ _. there (about_of column unique) upward 0 0) self.old self.new }
    {
        if self.head.is_some() {
            return Err(Refusal::IndexThere);
        }
        self.head = Some(Index::new(column, unique));
        Ok(())
    }

    /// Does a step to the head, if the index is there.
    fn step<F: FnOnce(Index) -> Result<Option<Index>, Refusal>>(
        &mut self,
        step: F,
    ) -> Result<(), Refusal>
        requires { F.IsAlwaysCallable step }
        ensures head { HeadFrom (F.post step) result self.old.head self.new.head }
        ensures entries { self.new.entries ≡ self.old.entries }
    {
        let head = self.head.ok_or(Refusal::NoIndex)?;
        self.head = step(head)?;
        Ok(())
    }

    /// The change goes up.
    pub(super) fn raise(&mut self) -> Result<(), Refusal>
        ensures { HeadStep result (why_not_up 4096 true) raised self.old self.new }
    {
        self.step(|head| change::up(head, true).map(Some))
    }

    /// The change turns.
    pub(super) fn turn(&mut self) -> Result<(), Refusal>
        ensures { HeadStep result (why_not_turn true) turned_down self.old self.new }
    {
        self.step(|head| change::turn(head, true).map(Some))
    }

    /// The change goes down.
    pub(super) fn lower(&mut self) -> Result<(), Refusal>
        ensures { HeadStep result (why_not_down 4096 true) lowered self.old self.new }
    {
        self.step(|head| change::down(head, true))
    }

    // Not one function with `clear` over a step: backfill looks at the rows and at the other keys first.
    /// Backfill goes over a key, if the key is the next: puts in the entry of its row.
    pub(super) fn fill(&mut self, rows: &Rows, key: Key) -> Result<(), Refusal>
        ensures { let h = slot_of self.old.head in let cells = λ (k : ℕ). cell_of h (row_of rows.now k) in let es = entry_of self.old.entries in OneStep result (is_none (why_not_fill 4096 true h) && key.number == done_of h && not (must_turn 4096 cells es h)) (onward h) (backfilled key.number cells es) self.old self.new }
    {
        let head = self.head.ok_or(Refusal::NoIndex)?;
        if head.done != key.number() {
            return Err(Refusal::NotNow);
        }
        if self.is_taken(head, rows, key) {
            return Err(Refusal::NotUnique);
        }
        self.head = Some(change::fill(head, true, rows, &mut self.entries, 1)?);
        Ok(())
    }

    /// Cleanup goes over a key, if the key is the next: takes out its entry.
    pub(super) fn clear(&mut self, key: Key) -> Result<(), Refusal>
        ensures { let h = slot_of self.old.head in OneStep result (is_none (why_not_clear 4096 true h) && key.number == done_of h) (onward h) (cleaned_up key.number (entry_of self.old.entries)) self.old self.new }
    {
        let head = self.head.ok_or(Refusal::NoIndex)?;
        if head.done != key.number() {
            return Err(Refusal::NotNow);
        }
        self.head = Some(change::clear(head, true, &mut self.entries, 1)?);
        Ok(())
    }
}
