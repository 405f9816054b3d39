//! A change of an index, going up, turning, going down: its head goes into each step by value and is handed back.

#![tactic(auto)]

ghost use Rattle.std.specs.Prelude.{◌≡◌, ℕ, ◌+◌, ◌<◌, ◌≤◌, Bool, true, false, cond, if◌then◌else◌, Some, None, Ok, Err};
ghost use Rattle.stage.specs.Stages.{rank};
ghost use Rattle.change.specs.Protocol.{there, up as upward, stage_of, raised, turned_down, lowered, onward, why_not_up, why_not_turn, why_not_down};
ghost use Rattle.change.specs.Heads.{head_of, head_by, slot_of, about_of, number_of, Stepped};

use keyset::KEYS;
use stage::Stage;
use table::Column;

mod batch;
mod kinds;
mod theorems;

pub use batch::{clear, fill, why_not_clear, why_not_fill};
pub use kinds::{Index, Refusal, Way};
pub use theorems::{batches_are_steps, examples_can_be, one_change_keeps};

impl From<Refusal> for u8 {
    ghost from_gives = { λ r n. n ≡ number_of r };

    fn from(refusal: Refusal) -> u8 {
        match refusal {
            Refusal::OutOfRange => 1,
            Refusal::NoLease => 2,
            Refusal::NotPublic => 3,
            Refusal::NotUnique => 4,
            Refusal::OtherStage | Refusal::NotFilled | Refusal::NotCleared => 5,
            Refusal::OtherWay | Refusal::LastStage | Refusal::NoIndex | Refusal::IndexThere => 6,
            Refusal::NotNow | Refusal::AllDone => 7,
            Refusal::Quiet => 8,
            Refusal::NoRow => 9,
        }
    }
}

impl Index {
    /// The head of an index that is made: absent, going up.
    pub fn new(column: Column, unique: bool) -> Index
        ensures { head_of result ≡ there (about_of column unique) upward 0 0 }
    {
        Index {
            column,
            unique,
            way: Way::Up(Stage::Absent),
            done: 0,
        }
    }

    /// The stage that the change has come to.
    pub fn stage(&self) -> Stage
        ensures { rank result ≡ stage_of (head_of self.now) }
    {
        match self.way {
            Way::Up(stage) | Way::Down(stage) => stage,
        }
    }

    /// The same index, its change come to another stage or way.
    fn at(self, way: Way) -> Index
        ensures { head_of result ≡ head_by (about_of self.column self.unique) 0 way }
    {
        Index {
            way,
            done: 0,
            ..self
        }
    }

    /// The same index, with one more key done.
    fn onward(self) -> Index
        requires { self.done < 4096 }
        ensures { head_of result ≡ onward (head_of self) }
    {
        Index {
            done: self.done + 1,
            ..self
        }
    }
}

// `alone` stays beside the head: it is told of one moment, and the head is handed in and back.
/// Refuses what may be done only while every running lease is of the change's stage.
fn check_alone(alone: bool) -> Result<(), Refusal>
    ensures { result ≡ (if alone then Ok tt else Err Refusal.OtherStage) }
{
    if alone {
        Ok(())
    } else {
        Err(Refusal::OtherStage)
    }
}

/// The change goes up a stage; `alone` says that every running lease is of its stage.
pub fn up(head: Index, alone: bool) -> Result<Index, Refusal>
    ensures { Stepped head_of result (why_not_up 4096 alone (head_of head)) (raised (head_of head)) }
{
    check_alone(alone)?;
    match head.way {
        Way::Up(Stage::Absent) => Ok(head.at(Way::Up(Stage::DeleteOnly))),
        Way::Up(Stage::DeleteOnly) => Ok(head.at(Way::Up(Stage::WriteOnly))),
        Way::Up(Stage::WriteOnly) if head.done == KEYS => Ok(head.at(Way::Up(Stage::Public))),
        Way::Up(Stage::WriteOnly) => Err(Refusal::NotFilled),
        Way::Up(Stage::Public) => Err(Refusal::LastStage),
        Way::Down(_) => Err(Refusal::OtherWay),
    }
}

/// The change turns, and goes down from now on.
pub fn turn(head: Index, alone: bool) -> Result<Index, Refusal>
    ensures { Stepped head_of result (why_not_turn alone (head_of head)) (turned_down (head_of head)) }
{
    check_alone(alone)?;
    match head.way {
        Way::Up(stage) => Ok(head.at(Way::Down(stage))),
        Way::Down(_) => Err(Refusal::OtherWay),
    }
}

/// The change goes down a stage; from the first one the index is gone.
pub fn down(head: Index, alone: bool) -> Result<Option<Index>, Refusal>
    ensures { Stepped slot_of result (why_not_down 4096 alone (head_of head)) (lowered (head_of head)) }
{
    check_alone(alone)?;
    match head.way {
        Way::Down(Stage::Public) => Ok(Some(head.at(Way::Down(Stage::WriteOnly)))),
        Way::Down(Stage::WriteOnly) => Ok(Some(head.at(Way::Down(Stage::DeleteOnly)))),
        Way::Down(Stage::DeleteOnly) if head.done == KEYS => {
            Ok(Some(head.at(Way::Down(Stage::Absent))))
        }
        Way::Down(Stage::DeleteOnly) => Err(Refusal::NotCleared),
        Way::Down(Stage::Absent) => Ok(None),
        Way::Up(_) => Err(Refusal::OtherWay),
    }
}

#[cfg(test)]
mod tests;
