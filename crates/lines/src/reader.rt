//! What stands behind those words: keys, rows, claims and values.

ghost use Rattle.std.specs.Prelude.{◌≡◌, true, false, drop, OnSome};
ghost use Rattle.std.specs.Option.{option_map};
ghost use Rattle.lines.specs.Asks.{ask_of, basis_of, at_end, row_in, basis_in, write_in, off_in, read_in, look_in, unique_in, make_in, rows_in, index_in, loan};

use super::fields::{number_in, value_in};
use super::kinds::Asked;
use super::stages::stages_in;
use service::Claim;
use stage::Slot;
use table::{COLUMNS, Row};
use words::Words;

/// A row.
fn row_in(line: &mut Words) -> Option<Row>
    ensures value { result ≡ row_in line.old }
    ensures left { OnSome result (line.new ≡ drop 8 line.old) }
{
    let mut columns = [0; COLUMNS];
    for column in &mut columns {
        *column = value_in(line)?;
    }
    Some(Row { columns })
}

/// The claim that a line acts on, if it names one, which is its rest.
#[tactic(auto, using(crate::proofs::Spelled::others))]
fn basis_in(line: &mut Words) -> Option<Option<Claim>>
    ensures { option_map basis_of result ≡ basis_in line.old }
{
    match line.next() {
        None => Some(None),
        Some(b"on") => {
            let epoch = line.number(u64::MAX)?;
            let stages = stages_in(line)?;
            Some(Some(Claim { epoch, stages }))
        }
        Some(_) => None,
    }
}

// The office stays beside the line: the line is read on, and the office goes into what is asked.
/// An office's `write`, behind that word.
pub fn write_in(office: u8, line: &mut Words) -> Option<Asked>
    ensures { option_map ask_of result ≡ write_in office line.old }
{
    let key = number_in(line)?;
    let row = row_in(line)?;
    Some(Asked::Write(office, basis_in(line)?, key, row))
}

/// An office's `off`, behind that word.
pub fn off_in(office: u8, line: &mut Words) -> Option<Asked>
    ensures { option_map ask_of result ≡ off_in office line.old }
{
    let key = number_in(line)?;
    Some(Asked::Off(office, basis_in(line)?, key))
}

/// An office's `look`, behind that word.
pub fn look_in(office: u8, line: &mut Words) -> Option<Asked>
    ensures { option_map ask_of result ≡ look_in office line.old }
{
    let index = number_in(line)?;
    let value = value_in(line)?;
    Some(Asked::Look(office, basis_in(line)?, index, value))
}

/// An office's `read`, behind that word.
pub fn read_in(office: u8, line: &mut Words) -> Option<Asked>
    ensures { option_map ask_of result ≡ read_in office line.old }
{
    let key = number_in(line)?;
    line.is_read().then_some(Asked::Read(office, key))
}

/// An office's `loan`, behind that word.
pub fn loan_in(office: u8, line: &mut Words) -> Option<Asked>
    ensures { option_map ask_of result ≡ at_end line.old (loan office) }
{
    line.is_read().then_some(Asked::Loan(office))
}

/// Whether an index is to be unique, which is the rest of a line.
#[tactic(auto, using(crate::proofs::Spelled::others))]
fn unique_in(line: &mut Words) -> Option<bool>
    ensures { result ≡ unique_in line.old }
{
    match line.next() {
        None => Some(false),
        Some(b"unique") if line.is_read() => Some(true),
        Some(_) => None,
    }
}

/// What is behind the word `make`.
pub fn make_in(line: &mut Words) -> Option<Asked>
    ensures { option_map ask_of result ≡ make_in line.old }
{
    let index = number_in(line)?;
    let column = number_in(line)?;
    Some(Asked::Make(index, column, unique_in(line)?))
}

/// What is behind the word `rows`.
pub fn rows_in(line: &mut Words) -> Option<Asked>
    ensures { option_map ask_of result ≡ rows_in line.old }
{
    let index = number_in(line)?;
    let value = value_in(line)?;
    line.is_read().then_some(Asked::Rows(index, value))
}

/// An index, which is the rest of a line.
pub fn index_in(line: &mut Words) -> Option<Slot>
    ensures { option_map (λ i. i.number) result ≡ index_in line.old }
{
    let index = number_in(line)?;
    line.is_read().then_some(index)
}
