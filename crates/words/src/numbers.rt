//! Numbers in decimal digits, read.

ghost use Rattle.std.specs.Prelude.{◌≡◌, ℕ, ◌+◌, ◌-◌, ◌*◌, ◌≤◌, ◌&&◌, IfSome, if◌then◌else◌, Some, None, nat_le};
ghost use Rattle.words.specs.Numbers.{is_digit, number_in};

/// The number with one more digit behind it, if the byte is one and the number is not above `most`.
fn with_digit(n: u64, byte: u8, most: u64) -> Option<u64>
    ensures { result ≡ (if is_digit byte && nat_le (n * 10 + (byte - 48)) most then Some (n * 10 + (byte - 48)) else None) }
{
    let digit = char::from(byte).to_digit(10)?;
    let more = n.checked_mul(10)?.checked_add(u64::from(digit))?;
    (more <= most).then_some(more)
}

/// The number that a word writes, if it is one up to `most`.
pub fn number(word: &[u8], most: u64) -> Option<u64>
    ensures value { result ≡ number_in most word.now }
    ensures bound { IfSome result (λ n. n ≤ most) }
{
    if word.is_empty() {
        return None;
    }
    // The library's `parse` would take a plus sign in front.
    word.iter()
        .try_fold(0, |n, byte| with_digit(n, *byte, most))
}
