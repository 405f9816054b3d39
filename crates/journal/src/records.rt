//! Records read of bytes.

ghost use Rattle.std.specs.Prelude.{◌≡◌, ℕ, ◌-◌, ◌<◌, Bool, List, [], ◌∷◌, ◌++◌, length, slice_index};
ghost use Rattle.std.specs.Option.{option_map};
ghost use Rattle.register.specs.Held.{record_of};
ghost use Rattle.journal.specs.Bytes.{two, bytes_of, Writable, size_with, size_by};
ghost use Rattle.journal.specs.Kinds.{first_byte};
ghost use Rattle.journal.specs.Reads.{ReadOf, Reads};

use super::error::Unread;
use super::fields::{key, row, stages};
use super::kinds::Kind;
use keyset::Key;
use register::Record;
use stage::{INDEXES, Slot};
use table::Column;

/// How long a record with stages is: so many bytes with their count, then two for each.
fn size_with(bytes: &[u8], least: usize) -> Option<usize>
    requires { 0 < least }
    ensures { result ≡ size_with least (length bytes.now) (slice_index bytes.now (least - 1)) }
{
    match bytes.get(least - 1) {
        None => Some(least),
        Some(count) if usize::from(*count) <= INDEXES => Some(least + 2 * usize::from(*count)),
        Some(_) => None,
    }
}

/// How long the record of a kind is that these bytes begin, as far as they tell.
fn size(kind: Kind, bytes: &[u8]) -> Option<usize>
    ensures { result ≡ size_by (first_byte kind) (length bytes.now) (slice_index bytes.now 35) (slice_index bytes.now 3) }
{
    match kind {
        Kind::Put => size_with(bytes, 36),
        Kind::Removed => size_with(bytes, 4),
        Kind::Made | Kind::Filled | Kind::Cleared => Some(4),
        Kind::WentUp | Kind::Turned | Kind::WentDown => Some(2),
        Kind::CameUp => Some(1),
    }
}

/// A row that was put.
fn put(body: &[u8]) -> Option<Record>
    ensures { ReadOf bytes_of Writable (first_byte Kind.Put ∷ body.now) (option_map record_of result) }
{
    let (number, body) = body.split_first_chunk()?;
    let (columns, body) = body.split_first_chunk()?;
    Some(Record::Put(key(*number)?, row(columns), stages(body)?))
}

/// A row that was taken away.
fn removed(body: &[u8]) -> Option<Record>
    ensures { ReadOf bytes_of Writable (first_byte Kind.Removed ∷ body.now) (option_map record_of result) }
{
    let (number, body) = body.split_first_chunk()?;
    Some(Record::Removed(key(*number)?, stages(body)?))
}

/// An index that was made.
fn made(body: &[u8]) -> Option<Record>
    ensures { ReadOf bytes_of Writable (first_byte Kind.Made ∷ body.now) (option_map record_of result) }
{
    let [index, column, unique @ 0..=1] = body else {
        return None;
    };
    let index = Slot::new(u16::from(*index))?;
    let column = Column::new(u16::from(*column))?;
    Some(Record::Made(index, column, *unique == 1))
}

/// The index of a change that went up, turned or went down.
fn changed(body: &[u8]) -> Option<Slot>
    ensures { ReadOf (λ i. i ∷ []) (λ i. i < 8) body.now (option_map (λ i. i.number) result) }
{
    let [index] = body else { return None };
    Slot::new(u16::from(*index))
}

/// The index and the key that backfill or cleanup went over.
fn worked(body: &[u8]) -> Option<(Slot, Key)>
    ensures { ReadOf {X = ℕ × ℕ} (λ w. w.0 ∷ two w.1) (λ w. (w.0 < 8) × (w.1 < 4096)) body.now (option_map (λ w. (w.0.number, w.1.number)) result) }
{
    let [index, high, low] = body else {
        return None;
    };
    Some((Slot::new(u16::from(*index))?, key([*high, *low])?))
}

/// The record of a kind that has this body.
fn record(kind: Kind, body: &[u8]) -> Option<Record>
    ensures { ReadOf bytes_of Writable (first_byte kind ∷ body.now) (option_map record_of result) }
{
    match kind {
        Kind::Put => put(body),
        Kind::Removed => removed(body),
        Kind::Made => made(body),
        Kind::WentUp => changed(body).map(Record::WentUp),
        Kind::Turned => changed(body).map(Record::Turned),
        Kind::WentDown => changed(body).map(Record::WentDown),
        Kind::Filled => {
            let (index, key) = worked(body)?;
            Some(Record::Filled(index, key))
        }
        Kind::Cleared => {
            let (index, key) = worked(body)?;
            Some(Record::Cleared(index, key))
        }
        Kind::CameUp => body.is_empty().then_some(Record::CameUp),
    }
}

// The place stays beside the bytes: where a record ends is told as a place among all of them.
/// Reads the record that begins at a place, and says where it ends.
pub fn decode(bytes: &[u8], at: usize) -> Result<(Record, usize), Unread>
    ensures { Reads bytes.now at result }
{
    let first = bytes.get(at).ok_or(Unread::Part)?;
    let kind = Kind::try_from(*first)?;
    let rest = &bytes[at..];
    let size = size(kind, rest).ok_or(Unread::Bad)?;
    let body = rest.get(1..size).ok_or(Unread::Part)?;
    let what = record(kind, body).ok_or(Unread::Bad)?;
    Ok((what, at + size))
}
