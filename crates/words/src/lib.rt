//! A text read word by word, and numbers in decimal digits.

#![tactic(auto)]

mod cursor;
mod numbers;
mod split;

pub use cursor::Words;
pub use numbers::number;
pub use split::split_word;

#[cfg(test)]
mod tests {
    use super::*;

    #[test]
    fn numbers(rt: HostRuntime) {
        assert_eq!(rt; number(b"0", 0), Some(0));
        assert_eq!(rt; number(b"00063", 63), Some(63));
        assert_eq!(rt; number(b"64", 63), None);
        assert_eq!(rt; number(b"18446744073709551615", u64::MAX), Some(u64::MAX));
        assert_eq!(rt; number(b"18446744073709551616", u64::MAX), None);
        assert_eq!(rt; number(b"", 9), None);
        assert_eq!(rt; number(b"+1", 9), None);
        assert_eq!(rt; number(b"1a", 9), None);
    }

    #[test]
    fn words(rt: HostRuntime) {
        let mut words = Words::new(b"  up   7 ");
        assert!(rt; !words.is_read());
        assert_eq!(rt; words.next(), Some(b"up".as_slice()));
        assert_eq!(rt; words.number(7), Some(7));
        assert!(rt; words.is_read());
        assert_eq!(rt; words.next(), None);
    }
}
