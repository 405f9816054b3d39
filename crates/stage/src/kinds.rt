//! Stages of an index, and what is written to a row.

use std::error::Error;
use std::fmt;
use table::Row;

/// The stage of an index, as an office knows it or as its change has come to it.
#[derive(Clone, Copy, Debug, PartialEq, Eq, PartialOrd, Ord)]
pub enum Stage {
    /// Not there.
    Absent,
    /// Entries are only taken out.
    DeleteOnly,
    /// Entries are put in as well.
    WriteOnly,
    /// Rows are looked up by it.
    Public,
}

/// A number that is no stage's.
#[derive(Clone, Copy, Debug, PartialEq, Eq)]
pub struct NoStage(pub u8);

impl fmt::Display for NoStage {
    fn fmt<W: fmt::Write>(&self, f: &mut fmt::Formatter<W>) -> fmt::Result {
        write!(f, "there is no stage {}", self.0)
    }
}

impl Error for NoStage {}

/// How many indexes there can be.
pub const INDEXES: usize = 8;

/// What is written to a key.
#[derive(Clone, Copy)]
pub enum Write {
    /// The key has this row from now on.
    Put(Row),
    /// The key has no row from now on.
    Take,
}
