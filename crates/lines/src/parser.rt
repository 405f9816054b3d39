//! What a line asks, by its first words.

ghost use Rattle.std.specs.Prelude.{◌≡◌, drop, IfOk, is_ok, not, ◌||◌, [], if◌then◌else◌};
ghost use Rattle.std.specs.Option.{option_map, unwrap_or};
ghost use Rattle.words.specs.Words.{words};
ghost use Rattle.words.specs.Numbers.{first_number};
ghost use Rattle.lines.specs.Asks.{ask_of, by_office, by_index, office_in, ask_in};
ghost use Rattle.lines.specs.Lines.{is_comment, too_long, parsed_of, parsed_in, or_refused, reading_in, timed_in, behind_reading};

use super::kinds::{Asked, Unreadable};
use super::reader::{index_in, loan_in, look_in, make_in, off_in, read_in, rows_in, write_in};
use super::verbs::{IndexVerb, OfficeVerb, index_verb, office_verb};
use words::{Words, number};

/// The longest line that is read, without its end.
pub const LONGEST: usize = 4096;

/// The last office's number.
const LAST_OFFICE: u64 = 63;

/// What an office asks for by a word, given the rest of the line.
pub fn asked_by_office(office: u8, verb: OfficeVerb, line: &mut Words) -> Option<Asked>
    ensures { option_map ask_of result ≡ by_office office verb line.old }
{
    match verb {
        OfficeVerb::Write => write_in(office, line),
        OfficeVerb::Off => off_in(office, line),
        OfficeVerb::Read => read_in(office, line),
        OfficeVerb::Look => look_in(office, line),
        OfficeVerb::Loan => loan_in(office, line),
    }
}

/// What is asked behind an office's number.
fn asked_behind_office(office: u8, line: &mut Words) -> Option<Asked>
    ensures { option_map ask_of result ≡ office_in office line.old }
{
    let verb = office_verb(line.next()?)?;
    asked_by_office(office, verb, line)
}

/// What is asked of an index by a word, given the rest of the line.
fn asked_by_index(verb: IndexVerb, line: &mut Words) -> Option<Asked>
    ensures { option_map ask_of result ≡ by_index verb line.old }
{
    match verb {
        IndexVerb::Make => make_in(line),
        IndexVerb::Rows => rows_in(line),
        IndexVerb::Up => index_in(line).map(Asked::Up),
        IndexVerb::Turn => index_in(line).map(Asked::Turn),
        IndexVerb::Down => index_in(line).map(Asked::Down),
        IndexVerb::Fill => index_in(line).map(Asked::Fill),
        IndexVerb::Clear => index_in(line).map(Asked::Clear),
    }
}

/// What a line asks for, if it can be read.
fn asked_in(line: &mut Words) -> Option<Asked>
    ensures { option_map ask_of result ≡ ask_in line.old }
{
    let word = line.next()?;
    match number(word, LAST_OFFICE) {
        Some(office) => asked_behind_office(office as u8, line),
        None => asked_by_index(index_verb(word)?, line),
    }
}

/// Whether a line is a comment.
pub fn is_comment(line: &[u8]) -> bool
    ensures { result ≡ is_comment line.now }
{
    line.starts_with(b"#")
}

/// The words that there are to read in a line: none in a comment.
fn words_of(line: &[u8]) -> Result<Words<'_>, Unreadable>
    ensures read { IfOk result (λ left. left ≡ (if is_comment line.now then [] else words line.now)) }
    ensures short { is_ok result ≡ (is_comment line.now || not (too_long line.now)) }
{
    if is_comment(line) {
        return Ok(Words::new(b""));
    }
    if line.len() > LONGEST {
        return Err(Unreadable);
    }
    Ok(Words::new(line))
}

/// What words ask for.
fn ask(line: &mut Words) -> Result<Option<Asked>, Unreadable>
    ensures { parsed_of result ≡ or_refused (ask_in line.old) }
{
    asked_in(line).map(Some).ok_or(Unreadable)
}

/// Reads a line, given without its end: what it asks for, or nothing where it is empty or a comment, and gets no answer.
pub fn parse(line: &[u8]) -> Result<Option<Asked>, Unreadable>
    ensures { parsed_of result ≡ parsed_in line.now }
{
    let mut words = words_of(line)?;
    if words.is_read() {
        return Ok(None);
    }
    ask(&mut words)
}

/// A reading of the clock, and what is asked behind it.
fn timed_in(line: &mut Words) -> (u64, Result<Option<Asked>, Unreadable>)
    ensures reading { result.0 ≡ unwrap_or (first_number 18446744073709551615 line.old) 0 }
    ensures parsed { parsed_of result.1 ≡ behind_reading (first_number 18446744073709551615 line.old) (drop 1 line.old) }
{
    match line.number(u64::MAX) {
        Some(reading) => (reading, ask(line)),
        None => (0, Err(Unreadable)),
    }
}

/// Reads a line that begins with a reading of the clock, given without its end. A line without one has the reading 0.
pub fn parse_timed(line: &[u8]) -> (u64, Result<Option<Asked>, Unreadable>)
    ensures reading { result.0 ≡ reading_in line.now }
    ensures parsed { parsed_of result.1 ≡ timed_in line.now }
{
    match words_of(line) {
        Ok(mut words) if !words.is_read() => timed_in(&mut words),
        Ok(_) => (0, Ok(None)),
        Err(unreadable) => (0, Err(unreadable)),
    }
}
