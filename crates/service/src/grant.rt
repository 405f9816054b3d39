//! What a call is answered, and the record that is written for it.

ghost use Rattle.std.specs.Prelude.{◌≡◌, MatchResult};
ghost use Rattle.register.specs.Registers.{stages_now};
ghost use Rattle.register.specs.Held.{register_of};
ghost use Rattle.service.specs.declared.grant.Failure.TheVariants.{Refused, NoMemory};
ghost use Rattle.service.specs.Held.{store_of, claim_of};
ghost use Rattle.service.specs.Decided.{Granted, NotGranted};

use super::decide::{check_office, ensure};
use super::kinds::{Answer, Call, Claim};
use super::owner::State;
use change::Refusal;
use keyset::Key;
use register::Record;
use std::alloc::{AllocError, Global};

/// Why a call is not granted.
#[derive(Clone, Copy, Debug)]
pub(super) enum Failure {
    Refused(Refusal),
    NoMemory(AllocError),
}

impl From<Refusal> for Failure {
    ghost from_gives = { λ e r. r ≡ Refused e };

    fn from(refusal: Refusal) -> Failure {
        Failure::Refused(refusal)
    }
}

impl From<AllocError> for Failure {
    ghost from_gives = { λ e r. r ≡ NoMemory e };

    fn from(error: AllocError) -> Failure {
        Failure::NoMemory(error)
    }
}

impl State {
    /// The lease that an office is told.
    fn claim(&self) -> Claim
        ensures { claim_of result ≡ record { epoch = (register_of self.now.register).epoch; stages = stages_now 8 (register_of self.now.register) } }
    {
        Claim {
            epoch: self.register.epoch(),
            stages: self.register.stages(),
        }
    }

    /// What is answered to a call that is granted, and the record that is written for it.
    #[tactic(auto, using(stage::proofs::Ranks::rank_at))]
    pub(super) fn granted(
        &self,
        heap: Global,
        reading: u64,
        call: &Call,
    ) -> Result<(Answer, Option<Record>), Failure>
        ensures { MatchResult result (λ p. Granted self.now.times.long (store_of self.now) reading call.now p.0 p.1) (λ e. NotGranted self.now.times.long (store_of self.now) reading call.now e) }
    {
        match *call {
            Call::Write(office, claim, key, row) => {
                self.check_lease(reading, office, &claim)?;
                let taken = self.register.refuses(&claim.stages, key, row);
                ensure(!taken, Refusal::NotUnique)?;
                Ok((Answer::Done, Some(Record::Put(key, row, claim.stages))))
            }
            Call::TakeAway(office, claim, key) => {
                self.check_lease(reading, office, &claim)?;
                ensure(self.register.row(key).is_some(), Refusal::NoRow)?;
                Ok((Answer::Done, Some(Record::Removed(key, claim.stages))))
            }
            Call::Read(office, key) => {
                check_office(office)?;
                let row = self.register.row(key).ok_or(Refusal::NoRow)?;
                Ok((Answer::Row(row), None))
            }
            Call::Look(office, claim, index, value) => {
                self.check_lease(reading, office, &claim)?;
                let stage = claim.stages[usize::from(index.number())];
                ensure(stage.looks_up(), Refusal::NotPublic)?;
                let keys = self.register.keys_by_index(heap, index, value)?;
                Ok((Answer::Keys(keys), None))
            }
            Call::Loan(office) => {
                check_office(office)?;
                Ok((Answer::Lent(self.claim()), None))
            }
            Call::Make(index, column, unique) => {
                ensure(self.register.head(index).is_none(), Refusal::IndexThere)?;
                Ok((Answer::Done, Some(Record::Made(index, column, unique))))
            }
            Call::Raise(index) => {
                self.check_step(reading, index, Refusal::NoIndex, change::up)?;
                Ok((Answer::Done, Some(Record::WentUp(index))))
            }
            Call::Turn(index) => {
                self.check_step(reading, index, Refusal::NoIndex, change::turn)?;
                Ok((Answer::Done, Some(Record::Turned(index))))
            }
            Call::Lower(index) => {
                self.check_step(reading, index, Refusal::NoIndex, change::down)?;
                Ok((Answer::Done, Some(Record::WentDown(index))))
            }
            Call::Fill(index) => {
                let head = self.check_step(reading, index, Refusal::NotNow, |head, alone| {
                    change::why_not_fill(head, alone).map_or(Ok(()), Err)
                })?;
                let key = Key::new(head.done).ok_or(Refusal::AllDone)?;
                if self.register.is_taken(index, head, key) {
                    Ok((Answer::Turned, Some(Record::Turned(index))))
                } else {
                    Ok((Answer::Done, Some(Record::Filled(index, key))))
                }
            }
            Call::Clear(index) => {
                let head = self.check_step(reading, index, Refusal::NotNow, |head, alone| {
                    change::why_not_clear(head, alone).map_or(Ok(()), Err)
                })?;
                let key = Key::new(head.done).ok_or(Refusal::AllDone)?;
                Ok((Answer::Done, Some(Record::Cleared(index, key))))
            }
            Call::ByAllRows(index, value) => {
                let head = self.register.head(index).ok_or(Refusal::NoIndex)?;
                let keys = self.register.keys_by_rows(heap, head.column, value)?;
                Ok((Answer::Keys(keys), None))
            }
        }
    }
}
