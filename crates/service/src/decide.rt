//! The checks that a call must pass; each refuses by its number.

ghost use Rattle.std.specs.Prelude.{◌≡◌, ◌||◌, ℕ, Bool, if◌then◌else◌, Option, IfOk, nat_lt};
ghost use Rattle.std.specs.Result.{result_err};
ghost use Rattle.change.specs.Protocol.{Head, gone};
ghost use Rattle.change.specs.Index.{About};
ghost use Rattle.change.specs.Heads.{number_of, numbered, head_of};
ghost use Rattle.register.specs.Held.{register_of};
ghost use Rattle.service.specs.Calls.{no_office, no_claim, no_lease, alone, unless_quiet};
ghost use Rattle.service.specs.Held.{limits, store_of, claim_of};
ghost use Rattle.service.specs.Decided.{RefusesBy};

use super::kinds::Claim;
use super::owner::State;
use change::{Index, Refusal};
use stage::Slot;

/// How many offices there are.
pub(super) const OFFICES: u8 = 64;

/// Refuses where something does not hold.
pub(super) fn ensure(holds: bool, refusal: Refusal) -> Result<(), Refusal>
    ensures { result ≡ (if holds then Ok tt else Err refusal) }
{
    if holds { Ok(()) } else { Err(refusal) }
}

/// Refuses an office that there is none of.
pub(super) fn check_office(office: u8) -> Result<(), Refusal>
    ensures { result ≡ (if nat_lt office 64 then Ok tt else Err Refusal.OutOfRange) }
{
    ensure(office < OFFICES, Refusal::OutOfRange)
}

// The reading stays a parameter: it is of one call, and the state is of all of them.
impl State {
    /// Refuses an office that there is none of, and one that has no running lease of this epoch and these stages.
    #[tactic(auto, using(register::proofs::Parts::are_stages_lem))]
    pub(super) fn check_lease(&self, reading: u64, office: u8, claim: &Claim) -> Result<(), Refusal>
        ensures { numbered (result_err result) ≡ (if no_office (limits self.now.times.long) office || no_claim (limits self.now.times.long) (claim_of claim.now) then Some 1 else (if no_lease (limits self.now.times.long) (store_of self.now) reading office (claim_of claim.now) then Some 2 else None)) }
    {
        check_office(office)?;
        ensure(
            claim.epoch == self.register.epoch()
                && self
                    .book
                    .holds(self.times.long(), reading, office, &claim.stages),
            Refusal::NoLease,
        )
    }

    /// The head of an index whose change may take a step. It is refused where there is no such index, by the step
    /// itself, and by a store that is quiet after a stop.
    pub(super) fn check_step<T: Drop, F: FnOnce(Index, bool) -> Result<T, Refusal>>(
        &self,
        reading: u64,
        index: Slot,
        absent: Refusal,
        step: F,
    ) -> Result<Index, Refusal>
        ghost why: { Bool → Head About → Option ℕ }
        requires callable { F.IsAlwaysCallable step }
        requires step_refuses { RefusesBy (F.post step) why }
        requires absent_refused { (b : Bool) → why b gone ≡ Some (number_of absent) }
        ensures head { IfOk result (λ head. head_of head ≡ (register_of self.now.register).head index.number) }
        ensures refused { numbered (result_err result) ≡ unless_quiet (limits self.now.times.long) (store_of self.now) reading (why (alone (limits self.now.times.long) (store_of self.now) reading index.number) ((register_of self.now.register).head index.number)) }
    {
        let head = self.register.head(index).ok_or(absent)?;
        let alone = self
            .book
            .all_at(self.times.long(), reading, index, head.stage());
        step(head, alone)?;
        ensure(reading >= self.times.long(), Refusal::Quiet)?;
        Ok(head)
    }
}
