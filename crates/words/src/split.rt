//! The words of a text.

ghost use Rattle.std.specs.Prelude.{◌≡◌, ℕ, List, [], ◌∷◌, MatchOption};
ghost use Rattle.words.specs.Words.{words};

const SPACE: u8 = b' ';

/// The first word of a text, and the text behind it.
pub fn split_word(text: &[u8]) -> Option<(&[u8], &[u8])>
    ensures { MatchOption result (words text.now ≡ []) (λ p. words text.now ≡ p.0.now ∷ words p.1.now) }
{
    let start = text.iter().position(|byte| *byte != SPACE)?;
    let rest = &text[start..];
    let end = rest
        .iter()
        .position(|byte| *byte == SPACE)
        .unwrap_or(rest.len());
    Some(rest.split_at(end))
}
