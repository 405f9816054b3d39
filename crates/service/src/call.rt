//! A call: decided, done, and answered.

ghost use Rattle.std.specs.Prelude.{◌≡◌, MatchResult};
ghost use Rattle.register.specs.Held.{register_of};
ghost use Rattle.lease.specs.Leases.{noted};
ghost use Rattle.lease.specs.Books.{book_of};
ghost use Rattle.service.specs.Calls.{lease_for, leases_after};
ghost use Rattle.service.specs.Held.{limits, store_of, call_of, record_in, Carried, Called};

use super::decide::OFFICES;
use super::grant::Failure;
use super::kinds::{Answer, Call};
use super::owner::State;
use super::pending::Pending;
use lease::Lease;
use register::Record;
use std::alloc::{AllocError, Global};

// Memory, the reading and the call stay parameters: they are of one call, and go through it as they came.
impl State {
    /// Notes the lease that an office is told.
    fn note(&mut self, heap: Global, reading: u64, office: u8) -> Result<(), AllocError>
        ensures register { self.new.register ≡ self.old.register }
        ensures times { self.new.times ≡ self.old.times }
        ensures book { MatchResult result (λ _. book_of self.new.book.leases.items ≡ noted self.old.times.long (lease_for (limits self.old.times.long) (store_of self.old) reading office) (book_of self.old.book.leases.items)) (λ _. self.new.book ≡ self.old.book) }
    {
        let lease = Lease {
            office,
            stages: self.register.stages(),
            since: reading,
        };
        self.book.note(heap, self.times.long(), lease)
    }

    /// Notes the lease of a call that asks for one.
    fn lend(&mut self, heap: Global, reading: u64, call: &Call) -> Result<(), AllocError>
        ensures register { self.new.register ≡ self.old.register }
        ensures times { self.new.times ≡ self.old.times }
        ensures book { MatchResult result (λ _. book_of self.new.book.leases.items ≡ leases_after (limits self.old.times.long) (store_of self.old) reading (call_of call.now)) (λ _. self.new.book ≡ self.old.book) }
    {
        match *call {
            Call::Loan(office) if office < OFFICES => self.note(heap, reading, office),
            _ => Ok(()),
        }
    }

    /// Does a call's record, if it has one. The record of a call that is granted can always be done.
    fn carry_out(&mut self, what: Option<Record>)
        ensures book { self.new.book ≡ self.old.book }
        ensures times { self.new.times ≡ self.old.times }
        ensures register { Carried (record_in what) (register_of self.old.register) (register_of self.new.register) }
    {
        if let Some(record) = what {
            let _ = self.register.apply(record);
        }
    }

    /// A call comes at a reading of the clock: it is decided and done.
    pub(super) fn call(
        &mut self,
        heap: Global,
        reading: u64,
        call: Call,
    ) -> Result<Pending, AllocError>
        ensures times { self.new.times ≡ self.old.times }
        ensures called { MatchResult result (λ p. Called self.old.times.long (store_of self.old) (store_of self.new) reading call p.answer p.what) (λ _. store_of self.new ≡ store_of self.old) }
    {
        match self.granted(heap, reading, &call) {
            Ok((answer, what)) => {
                self.lend(heap, reading, &call)?;
                self.carry_out(what);
                Ok(Pending { answer, what })
            }
            Err(Failure::Refused(refusal)) => Ok(Pending {
                answer: Answer::Refused(refusal),
                what: None,
            }),
            Err(Failure::NoMemory(error)) => Err(error),
        }
    }
}
