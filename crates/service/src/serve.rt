//! The calls of the store.

ghost use Rattle.std.specs.Prelude.{◌≡◌, ℕ, max, true, false, List, [], IfOk, MatchOption, MatchResult};
ghost use Rattle.table.specs.Update.{keys_for};
ghost use Rattle.register.specs.Registers.{bare, applied, came_up, rows_of};
ghost use Rattle.service.specs.Calls.{Claim as Claimed, look, found};
ghost use Rattle.service.specs.Held.{store_of, call_of, answer_of, Called};
ghost use Rattle.service.specs.Reached.{HasPromises};

use super::kinds::{Answer, Call};
use super::owner::State;
use super::pending::Pending;
use super::store::Store;
use lease::{Book, Times};
use register::{Record, Register};
use std::alloc::{AllocError, Global};
use std::mem;

impl Store {
    /// The store comes up on an empty register, for the first time.
    pub fn new(heap: Global, times: Times) -> Result<Store, AllocError>
        ensures { IfOk result (λ s. (store_of s.state ≡ record { register = applied came_up bare; leases = [] }) × (s.clock ≡ 0) × (s.state.times ≡ times) × (s.announced ≡ false)) }
    {
        let mut register = Register::new(heap)?;
        register.apply(Record::CameUp).unwrap();
        let state = State {
            register,
            book: Book::new(heap),
            times,
        };
        Ok(Store {
            state,
            clock: 0,
            announced: false,
        })
    }

    /// The record of this coming-up, to be committed before anything else is; there is one.
    pub fn coming_up(&mut self) -> Option<Pending>
        ensures store { (self.new.state ≡ self.old.state) × (self.new.clock ≡ self.old.clock) }
        ensures once { self.new.announced ≡ true }
        ensures wrote { MatchOption result (self.old.announced ≡ true) (λ p. (self.old.announced ≡ false) × (p.what ≡ Some Record.CameUp)) }
    {
        if mem::replace(&mut self.announced, true) {
            return None;
        }
        Some(Pending {
            answer: Answer::Done,
            what: Some(Record::CameUp),
        })
    }

    /// The last reading of the clock. At it the store has everything that is promised of every run, whatever clocks the
    /// offices have.
    pub fn clock(&self) -> u64
        ensures reading { result ≡ self.now.clock }
        ensures promises { HasPromises self.now.state.times.long self.now.state.times.short self.now.state.times.rate (store_of self.now.state) self.now.clock }
    {
        self.clock
    }

    /// A call comes at a reading of the clock; one below an earlier one counts as the earlier one. The call is decided
    /// and done, and its answer waits in the [`Pending`] until its record is in the journal. What a look by an index
    /// finds is what a look through all rows finds.
    pub fn call(&mut self, heap: Global, reading: u64, call: Call) -> Result<Pending, AllocError>
        ensures clock { self.new.clock ≡ max self.old.clock reading }
        ensures times { (self.new.state.times ≡ self.old.state.times) × (self.new.announced ≡ self.old.announced) }
        ensures called { MatchResult result (λ p. Called self.old.state.times.long (store_of self.old.state) (store_of self.new.state) (max self.old.clock reading) call p.answer p.what) (λ _. store_of self.new.state ≡ store_of self.old.state) }
        ensures promises { HasPromises self.new.state.times.long self.new.state.times.short self.new.state.times.rate (store_of self.new.state) self.new.clock }
        ensures looks { IfOk result (λ p. (o : ℕ) (c : Claimed) (i v : ℕ) (ks : List ℕ) → call_of call ≡ look o c i v → answer_of p.answer ≡ found ks → ks ≡ keys_for 4096 (rows_of i (store_of self.old.state).register) v) }
    {
        self.clock = self.clock.max(reading);
        self.state.call(heap, self.clock, call)
    }
}
