//! Answers and their parts, appended to the bytes of an output.

ghost use Rattle.std.specs.Prelude.{◌≡◌, ℕ, List, [], ◌∷◌, ◌++◌, decimal, OnOk, IfSome};
ghost use Rattle.stage.specs.Stages.{ranks};
ghost use Rattle.answers.specs.Texts.{spaced, claim_text, answer_text};

use super::text::{AnswerText, ClaimText, Spaced};
use service::Answer;
use stage::Stage;
use std::alloc::AllocError;
use std::fmt::{self, Display, Write};

/// The bytes of an output, as a destination for text.
// `write!` to the `Vec` itself goes by `io::Write`, whose loop for each piece of text costs more.
#[derive(Drop)]
struct Appender<'a>(&'a mut Vec<u8>);

impl Write for Appender<'_> {
    // the loan is the same, and the text stands behind what was there
    ghost write_str_gives = { λ s bs t. (t.0.ghost_name ≡ s.0.ghost_name) × (t.0.now.items ≡ s.0.now.items ++ bs) };

    fn write_str(&mut self, text: &str) -> fmt::Result {
        Ok(self.0.extend_from_slice(text.as_bytes())?)
    }
}

/// Appends the text of a value.
fn put<D: Display + Drop>(out: &mut Vec<u8>, value: D) -> Result<(), AllocError>
    ensures { OnOk result (IfSome (D.output value) (λ text. out.new.items ≡ out.old.items ++ text)) }
{
    // Writing to a `Vec` fails only where memory runs out.
    write!(Appender(out), "{value}").map_err(|_| AllocError)
}

/// Appends a number in decimal digits.
pub fn put_number(out: &mut Vec<u8>, n: u64) -> Result<(), AllocError>
    ensures { OnOk result (out.new.items ≡ out.old.items ++ decimal n) }
{
    put(out, n)
}

/// Appends a space and a number.
pub fn put_word(out: &mut Vec<u8>, n: u64) -> Result<(), AllocError>
    ensures { OnOk result (out.new.items ≡ out.old.items ++ (32 ∷ decimal n)) }
{
    put(out, format_args!(" {n}"))
}

/// Appends the columns of a row.
#[tactic(auto, using(crate::proofs::Texts::spaced_decimals))]
pub fn put_columns(out: &mut Vec<u8>, columns: &[u32]) -> Result<(), AllocError>
    ensures { OnOk result (out.new.items ≡ out.old.items ++ spaced columns.now) }
{
    put(out, Spaced(columns))
}

/// Appends text.
pub fn put_text(out: &mut Vec<u8>, text: &[u8]) -> Result<(), AllocError>
    ensures { OnOk result (out.new.items ≡ out.old.items ++ text.now) }
{
    out.extend_from_slice(text)
}

/// Appends what calls act on: an epoch and a stage list.
pub fn put_claim(out: &mut Vec<u8>, epoch: u64, stages: &[Stage]) -> Result<(), AllocError>
    ensures { OnOk result (out.new.items ≡ out.old.items ++ claim_text epoch (ranks stages.now)) }
{
    put(out, ClaimText(epoch, stages))
}

/// Appends an answer and the end of its line.
pub fn print(out: &mut Vec<u8>, answer: &Answer) -> Result<(), AllocError>
    ensures { OnOk result (out.new.items ≡ out.old.items ++ (answer_text answer.now ++ (10 ∷ []))) }
{
    put(out, format_args!("{}\n", AnswerText(answer)))
}
