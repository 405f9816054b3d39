//! The number of an index.

use keyset::Number;

/// What a slot is the number of.
#[derive(Clone, Copy)]
pub struct OfIndex;

/// The number of an index, from 0 to 7.
pub type Slot = Number<OfIndex, 8>;
