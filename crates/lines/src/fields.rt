//! The numbers that a line has: keys, indexes, columns and values.

ghost use Rattle.std.specs.Prelude.{◌≡◌, drop};
ghost use Rattle.std.specs.Option.{option_map};
ghost use Rattle.words.specs.Numbers.{first_number};
ghost use Rattle.lines.specs.Fields.{first_below};

use keyset::Number;
use words::Words;

/// The next word, if it is the number of one of `N` things.
pub fn number_in<Kind, const N: u16>(line: &mut Words) -> Option<Number<Kind, N>>
    ensures value { option_map (λ k. k.number) result ≡ first_below N line.old }
    ensures left { line.new ≡ drop 1 line.old }
{
    Number::new(line.number(u64::from(u16::MAX))? as u16)
}

/// The next word, if it is a column's value.
pub fn value_in(line: &mut Words) -> Option<u32>
    ensures value { result ≡ first_number 4294967295 line.old }
    ensures left { line.new ≡ drop 1 line.old }
{
    line.number(u64::from(u32::MAX)).map(|value| value as u32)
}
