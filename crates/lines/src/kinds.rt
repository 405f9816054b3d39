//! What a line asks for.

use keyset::Key;
use service::Claim;
use stage::Slot;
use std::error::Error;
use std::fmt;
use table::{Column, Row};

/// What a line asks for. Those of an office begin with the office's number; what such a line acts on is the claim
/// that it names, or, where it names none, the newest lease that the store has noted for the office.
#[derive(Clone, Copy)]
pub enum Asked {
    Write(u8, Option<Claim>, Key, Row),
    Off(u8, Option<Claim>, Key),
    Read(u8, Key),
    Look(u8, Option<Claim>, Slot, u32),
    Loan(u8),
    Make(Slot, Column, bool),
    Up(Slot),
    Turn(Slot),
    Down(Slot),
    Fill(Slot),
    Clear(Slot),
    Rows(Slot, u32),
}

/// The error of a line that cannot be read.
#[derive(Clone, Copy, Debug, PartialEq, Eq)]
pub struct Unreadable;

impl fmt::Display for Unreadable {
    fn fmt<W: fmt::Write>(&self, f: &mut fmt::Formatter<W>) -> fmt::Result {
        write!(f, "the line cannot be read")
    }
}

impl Error for Unreadable {}
