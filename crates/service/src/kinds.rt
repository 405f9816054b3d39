//! Calls and answers.

ghost use Rattle.std.specs.Prelude.{◌≡◌, length};

use change::Refusal;
use keyset::Key;
use stage::{INDEXES, Slot, Stage};
use table::Column;

/// What a call is made on: the epoch, and the stages that the office knows.
#[derive(Clone, Copy, Debug, PartialEq, Eq)]
pub struct Claim {
    pub epoch: u64,
    pub stages: [Stage; INDEXES],
    ghost stages_long: { length stages ≡ 8 },
}

/// A call. Those of an office begin with the office's number.
#[derive(Clone, Copy)]
pub enum Call {
    Write(u8, Claim, Key, table::Row),
    TakeAway(u8, Claim, Key),
    Read(u8, Key),
    Look(u8, Claim, Slot, u32),
    Loan(u8),
    Make(Slot, Column, bool),
    Raise(Slot),
    Turn(Slot),
    Lower(Slot),
    Fill(Slot),
    Clear(Slot),
    ByAllRows(Slot, u32),
}

/// What is answered to a call.
#[derive(Drop)]
pub enum Answer {
    Done,
    Row(table::Row),
    Keys(Vec<u16>),
    Lent(Claim),
    Turned,
    Refused(Refusal),
}
