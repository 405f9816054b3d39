//! What answers look like.

ghost use Rattle.std.specs.Prelude.{◌≡◌, Some};
ghost use Rattle.stage.specs.Stages.{ranks};
ghost use Rattle.answers.specs.Texts.{spaced_texts, stage_list, claim_text, reason, answer_text};

use change::Refusal;
use service::Answer;
use stage::Stage;
use std::fmt::{self, Display};

/// Values with a space before each.
#[derive(Drop)]
pub(super) struct Spaced<'a, T>(pub(super) &'a [T]);

impl<T: Display> Display for Spaced<'_, T> {
    ghost output = { λ s. spaced_texts T.output s.0.now };

    fn fmt<W: fmt::Write>(&self, f: &mut fmt::Formatter<W>) -> fmt::Result {
        for value in self.0 {
            write!(f, " {value}")?;
        }
        Ok(())
    }
}

/// The stages of indexes, in order, but for those that are not there.
#[derive(Drop)]
struct StageList<'a>(&'a [Stage]);

impl Display for StageList<'_> {
    ghost output = { λ s. Some (stage_list 0 (ranks s.0.now)) };

    fn fmt<W: fmt::Write>(&self, f: &mut fmt::Formatter<W>) -> fmt::Result {
        for (index, stage) in self.0.iter().enumerate() {
            if *stage != Stage::Absent {
                write!(f, " {index}={}", u8::from(*stage))?;
            }
        }
        Ok(())
    }
}

/// What calls act on: an epoch and a stage list.
#[derive(Drop)]
pub(super) struct ClaimText<'a>(pub(super) u64, pub(super) &'a [Stage]);

impl Display for ClaimText<'_> {
    ghost output = { λ c. Some (claim_text c.0 (ranks c.1.now)) };

    fn fmt<W: fmt::Write>(&self, f: &mut fmt::Formatter<W>) -> fmt::Result {
        write!(f, " {}{}", self.0, StageList(self.1))
    }
}

/// Why a call is refused, and what to do.
// A match to text, and no `impl Display`: the type `Refusal` is of the crate `change`.
fn reason(refusal: Refusal) -> &'static str
    ensures { result.now ≡ reason refusal }
{
    match refusal {
        Refusal::OutOfRange => "the line cannot be read, or a number in it is out of range",
        Refusal::NoLease =>
            "no running loan of this office, this coming-up and these stages: ask for a loan",
        Refusal::NotPublic =>
            "the index is not in stage 3 in the loan: look by rows, or ask for a loan once it is",
        Refusal::NotUnique => "another key has that value in a unique index",
        Refusal::OtherStage => "an office has a loan of another stage: try again once it is over",
        Refusal::NotFilled => "not all keys are filled: fill first",
        Refusal::NotCleared => "not all keys are cleared: clear first",
        Refusal::OtherWay => "the change goes the other way",
        Refusal::LastStage => "the change has no further stage",
        Refusal::NoIndex => "there is no such index: make it first",
        Refusal::IndexThere => "the index is there already",
        Refusal::NotNow => "the change is not in the stage and way for that",
        Refusal::AllDone => "all keys are done: go on to the next stage",
        Refusal::Quiet => "the store came up too short a time ago: try again later",
        Refusal::NoRow => "there is no such row",
    }
}

/// An answer, without the end of its line.
#[derive(Drop)]
pub(super) struct AnswerText<'a>(pub(super) &'a Answer);

impl Display for AnswerText<'_> {
    ghost output = { λ a. Some (answer_text a.0.now) };

    #[tactic(auto, using(crate::proofs::Texts::spaced_decimals))]
    fn fmt<W: fmt::Write>(&self, f: &mut fmt::Formatter<W>) -> fmt::Result {
        match self.0 {
            Answer::Done => write!(f, "ok"),
            Answer::Turned => write!(f, "turned"),
            Answer::Row(row) => write!(f, "row{}", Spaced(&row.columns)),
            Answer::Keys(keys) => write!(f, "keys{}", Spaced(keys)),
            Answer::Lent(claim) => write!(f, "loan{}", ClaimText(claim.epoch, &claim.stages)),
            Answer::Refused(why) => write!(f, "refused {} {}", u8::from(*why), reason(*why)),
        }
    }
}
