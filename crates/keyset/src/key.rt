//! A key of the register.

use super::number::Number;

/// How many keys there are: 0 to 4095.
pub const KEYS: u16 = 4096;

/// What a key is the number of.
#[derive(Clone, Copy)]
pub struct OfRow;

/// The number of a row, from 0 to 4095.
pub type Key = Number<OfRow, KEYS>;
