//! Why no record was read.

use std::error::Error;
use std::fmt;

/// Why no record was read at a place among bytes.
#[derive(Clone, Copy, Debug, PartialEq, Eq)]
pub enum Unread {
    /// Fewer bytes stand there than the record has that they begin.
    Part,
    /// They begin no record.
    Bad,
}

impl fmt::Display for Unread {
    fn fmt<W: fmt::Write>(&self, f: &mut fmt::Formatter<W>) -> fmt::Result {
        match self {
            Unread::Part => write!(f, "only a part of a record stands there"),
            Unread::Bad => write!(f, "no record is written so"),
        }
    }
}

impl Error for Unread {}
