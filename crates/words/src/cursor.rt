//! A text that is read word by word.

ghost use Rattle.std.specs.Prelude.{◌≡◌, ◌≤◌, not, drop, is_some, IfSome};
ghost use Rattle.std.specs.Iterator.{YieldsFirstRef, item_count};
ghost use Rattle.words.specs.Words.{words, first_of};
ghost use Rattle.words.specs.Numbers.{first_number};

use super::numbers::number;
use super::split::split_word;
use std::marker::Model;

/// The words of a text that are not read yet.
#[derive(Drop)]
pub struct Words<'a> {
    rest: &'a [u8],
}

impl<'a> Model for Words<'a> {
    ghost use Rattle.std.specs.Prelude.{ℕ, List};
    ghost use Rattle.words.specs.Words.{words};

    ghost Value = { List (List ℕ) };

    ghost view = { λ w. words w.rest.now };
}

impl<'a> Words<'a> {
    /// The words of a text, none of them read.
    pub fn new(text: &'a [u8]) -> Words<'a>
        ensures { result ≡ words text.now }
    {
        Words { rest: text }
    }

    /// Whether no word is left.
    pub fn is_read(&self) -> bool
        ensures { result ≡ not (is_some (first_of self.now)) }
    {
        split_word(self.rest).is_none()
    }

    /// The next word, if it is a number up to `most`.
    pub fn number(&mut self, most: u64) -> Option<u64>
        ensures value { result ≡ first_number most self.old }
        ensures left { self.new ≡ drop 1 self.old }
        ensures bound { IfSome result (λ n. n ≤ most) }
    {
        number(self.next()?, most)
    }
}

impl<'a> Iterator for Words<'a> {
    type Item = &'a [u8];

    ghost next_gives = { YieldsFirstRef (λ left. left) };

    ghost remaining = { item_count (λ left. left) };

    /// The next word.
    fn next(&mut self) -> Option<&'a [u8]> {
        let (word, behind) = split_word(self.rest)?;
        self.rest = behind;
        Some(word)
    }
}
