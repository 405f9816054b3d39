//! Stage lists.

ghost use Rattle.std.specs.Prelude.{◌≡◌, ◌<◌, None, Some, MatchOption, IfSome};
ghost use Rattle.std.specs.Option.{option_map};
ghost use Rattle.stage.specs.Stages.{rank, ranks};
ghost use Rattle.words.specs.Numbers.{number_in};
ghost use Rattle.lines.specs.Stages.{before_equals, behind_equals, not_zero, pair_in, stages_in};

use stage::{INDEXES, Stage};
use words::{Words, number};

/// The stage other than 0 that a text writes.
fn stage_in(text: &[u8]) -> Option<Stage>
    ensures { option_map rank result ≡ not_zero (number_in 3 text.now) }
{
    match number(text, 3)? {
        0 => None,
        n => Stage::try_from(n as u8).ok(),
    }
}

/// What stands before the first `=` of a word and what behind it, if it has one.
fn split_at_equals(word: &[u8]) -> Option<(&[u8], &[u8])>
    ensures { MatchOption result (behind_equals word.now ≡ None) (λ p. (before_equals word.now ≡ p.0.now) × (behind_equals word.now ≡ Some p.1.now)) }
{
    let at = word.iter().position(|byte| *byte == b'=')?;
    Some((&word[..at], &word[at + 1..]))
}

/// The index and the stage that a word gives: `I=S`.
fn pair(word: &[u8]) -> Option<(usize, Stage)>
    ensures value { option_map (λ p. (p.0, rank p.1)) result ≡ pair_in word.now }
    ensures bound { IfSome result (λ p. p.0 < 8) }
{
    let (index, stage) = split_at_equals(word)?;
    Some((number(index, 7)? as usize, stage_in(stage)?))
}

/// The stages of all indexes that the rest of a line gives.
#[tactic(auto, using(crate::proofs::Pairs::stages))]
pub fn stages_in(line: &mut Words) -> Option<[Stage; INDEXES]>
    ensures { option_map ranks result ≡ stages_in line.old }
{
    let mut stages = [Stage::Absent; INDEXES];
    let mut lowest = 0;
    for word in line {
        let (index, stage) = pair(word)?;
        if index < lowest {
            return None;
        }
        stages[index] = stage;
        lowest = index + 1;
    }
    Some(stages)
}
