//! The records of the journal.

use keyset::Key;
use stage::{INDEXES, Slot, Stage};
use table::{Column, Row};

/// What was done to the register. A row's record has the stages of all indexes that its writer knew.
#[derive(Clone, Copy)]
pub enum Record {
    Put(Key, Row, [Stage; INDEXES]),
    Removed(Key, [Stage; INDEXES]),
    Made(Slot, Column, bool),
    WentUp(Slot),
    Turned(Slot),
    WentDown(Slot),
    Filled(Slot, Key),
    Cleared(Slot, Key),
    CameUp,
}
