//! Sets of keys, as bits of lent words: key k is bit k % 32 of word k / 32.
//!
//! A set of all keys takes [`WORDS`] words. Every function takes words of any length: a key that has no
//! place in them is not in the set, and cannot be put in.

#![tactic(auto)]

ghost use Rattle.std.specs.Prelude.{◌≡◌, ℕ, ◌+◌, ◌*◌, ◌/◌, ◌%◌, ◌^◌, ◌<◌, ◌≤◌, Bool, true, false, not, ◌&&◌, length, IfOk, if◌then◌else◌, nat_eq};
ghost use Rattle.keyset.specs.Sets.{has, places, any_below, keys_below};

use std::alloc::{AllocError, Global};

mod key;
mod number;

pub use key::{KEYS, Key, OfRow};
pub use number::Number;

/// How many words a set of all keys takes.
pub const WORDS: usize = 128;

/// Whether a key is in the set.
pub fn contains(words: &[u32], key: Key) -> bool
    ensures { result ≡ has words.now key.number }
{
    holds(words, key.number())
}

/// Whether a number is in the set: of no key if it is past the last.
pub fn holds(words: &[u32], number: u16) -> bool
    ensures { result ≡ has words.now number }
{
    let at = number as usize / 32;
    at < words.len() && (words[at] >> (number % 32)) & 1 == 1
}

/// Puts a key into the set, where the words have a place for it.
pub fn insert(words: &mut [u32], key: Key)
    ensures { (j : ℕ) → has words.new j ≡ (if nat_eq j key.number && places words.old j then true else has words.old j) }
{
    let k = key.number();
    let at = k as usize / 32;
    if at < words.len() {
        words[at] |= 1 << (k % 32);
    }
}

/// Takes a key out of the set.
pub fn remove(words: &mut [u32], key: Key)
    ensures { (j : ℕ) → has words.new j ≡ (if nat_eq j key.number then false else has words.old j) }
{
    let k = key.number();
    let at = k as usize / 32;
    if at < words.len() {
        words[at] &= !(1 << (k % 32));
    }
}

/// Whether no key is in the set.
pub fn is_empty(words: &[u32]) -> bool
    ensures { result ≡ not (any_below (has words.now) 4096) }
{
    !(0..KEYS).any(|k| holds(words, k))
}

/// How many keys are in the set.
pub fn count(words: &[u32]) -> u16
    ensures { result ≡ length (keys_below (has words.now) 4096) }
{
    (0..KEYS).filter(|k| holds(words, *k)).count() as u16
}

/// The keys of the set, rising.
pub fn listed(heap: Global, words: &[u32]) -> Result<Vec<u16>, AllocError>
    ensures { IfOk result (λ v. v.items ≡ keys_below (has words.now) 4096) }
{
    (0..KEYS).filter(|k| holds(words, *k)).collect(heap)
}

#[cfg(test)]
mod tests {
    use super::*;
    use std::test::Fail;

    fn put(words: &mut [u32], number: u16) {
        if let Some(key) = Key::new(number) {
            insert(words, key);
        }
    }

    fn take(words: &mut [u32], number: u16) {
        if let Some(key) = Key::new(number) {
            remove(words, key);
        }
    }

    fn has(words: &[u32], number: u16) -> bool {
        match Key::new(number) {
            Some(key) => contains(words, key),
            None => false,
        }
    }

    #[test]
    fn edges(rt: HostRuntime) -> Result<(), Fail> {
        let mut words = [0; WORDS];
        assert!(rt; is_empty(&words));
        put(&mut words, 0);
        put(&mut words, 31);
        put(&mut words, 32);
        put(&mut words, 4095);
        put(&mut words, 32);
        assert!(rt; words[0] == 0x8000_0001 && words[1] == 1 && words[127] == 0x8000_0000);
        assert!(rt; has(&words, 31) && !has(&words, 30) && !has(&words, 33));
        assert_eq!(rt;
            listed(rt.alloc(), &words)?.as_slice(),
            [0, 31, 32, 4095].as_slice()
        );
        take(&mut words, 31);
        take(&mut words, 30);
        assert_eq!(rt; count(&words), 3);
        assert!(rt; has(&words, 0) && !has(&words, 31) && has(&words, 32) && has(&words, 4095));
        assert!(rt; !is_empty(&words));
        Ok(())
    }

    #[test]
    fn no_place(rt: HostRuntime) {
        let mut words = [0; 1];
        put(&mut words, 32);
        put(&mut words, 4095);
        take(&mut words, 4095);
        assert!(rt; is_empty(&words));
        assert!(rt; !has(&words, 32) && !has(&words, 4095));
    }

    #[test]
    fn range(rt: HostRuntime) {
        assert!(rt;
            Key::new(4095).is_some() && Key::new(4096).is_none() && Key::new(65535).is_none()
        );
    }
}
