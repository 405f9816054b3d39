//! The answer to a line.

use keyset::Key;
use std::fmt;
use table::{Row, Rows};
use words::Words;

/// The longest line that is read, without its end.
const LONGEST: usize = 4096;

/// Why a line is answered by no row.
#[derive(Clone, Copy)]
enum Refusal {
    TooLong,
    NoText,
    NotServed,
    NoRow,
}

impl fmt::Display for Refusal {
    fn fmt<W: fmt::Write>(&self, f: &mut fmt::Formatter<W>) -> fmt::Result {
        match self {
            Refusal::TooLong => write!(f, "refused 1 the line is too long"),
            Refusal::NoText => write!(f, "refused 1 the line is no text"),
            Refusal::NotServed => write!(f, "refused 1 the line asks for nothing that is served"),
            Refusal::NoRow => write!(f, "refused 9 there is no such row"),
        }
    }
}

/// The answer to a line: the row that it asks for, or why there is none.
#[derive(Clone, Copy)]
pub struct Answer(Result<Row, Refusal>);

impl fmt::Display for Answer {
    fn fmt<W: fmt::Write>(&self, f: &mut fmt::Formatter<W>) -> fmt::Result {
        match self.0 {
            Ok(row) => {
                write!(f, "row")?;
                for value in row.columns {
                    write!(f, " {value}")?;
                }
                Ok(())
            }
            Err(refusal) => write!(f, "{refusal}"),
        }
    }
}

/// The key of a text that asks `O read K`. An office is from 0 to 63.
fn key_to_read(text: &str) -> Option<Key> {
    let mut words = Words::new(text.as_bytes());
    words.number(63)?;
    if words.next()? != b"read".as_slice() {
        return None;
    }
    let key = Key::new(words.number(4095)? as u16)?;
    words.is_read().then_some(key)
}

/// The row that a text asks for.
fn row_for(rows: &Rows, text: &str) -> Result<Row, Refusal> {
    let key = key_to_read(text).ok_or(Refusal::NotServed)?;
    rows.get(key).ok_or(Refusal::NoRow)
}

/// The text of a line.
fn text_of(line: &[u8]) -> Result<&str, Refusal> {
    if line.len() > LONGEST {
        return Err(Refusal::TooLong);
    }
    std::str::from_utf8(line).map_err(|_| Refusal::NoText)
}

/// The answer to a line, given without its end; none where the line is skipped.
pub fn to_line(rows: &Rows, line: &[u8]) -> Option<Answer> {
    let text = text_of(line);
    if text.is_ok_and(|text| text.is_empty() || text.starts_with('#')) {
        return None;
    }
    Some(Answer(text.and_then(|text| row_for(rows, text))))
}
