//! Backfill and cleanup: a change's work over keys, from where it stands, for as many keys as it is told.

ghost use Rattle.std.specs.Prelude.{◌≡◌, ℕ, ◌+◌, ◌<◌, ◌≤◌, Bool, true, false, Some, None, MatchResult};
ghost use Rattle.table.specs.Held.{row_of, entry_of};
ghost use Rattle.table.specs.Columns.{value_in};
ghost use Rattle.change.specs.Protocol.{why_not_fill, why_not_clear};
ghost use Rattle.change.specs.Heads.{head_of, number_of, numbered, work_on, Worked};
ghost use Rattle.change.specs.OverKeys.{why_no_work, may_work, IsNext, DoesStep};
ghost use Rattle.change.specs.Batches.{Work, repeated, filled, cleared, filled_n, cleared_n};

use super::check_alone;
use super::kinds::{Index, Refusal, Way};
use keyset::Key;
use stage::{Stage, Write, refuses};
use table::{Entries, Rows};

/// Where a change is backfilled.
const BACKFILL: Way = Way::Up(Stage::WriteOnly);

/// Where a change is cleaned up.
const CLEANUP: Way = Way::Down(Stage::DeleteOnly);

/// The next key of the work that is done at a way and stage, or why that work may not go on.
fn next_key(head: Index, alone: bool, at: Way) -> Result<Key, Refusal>
    ensures { MatchResult result
        (λ key. (why_no_work 4096 at alone (head_of head) ≡ None) × IsNext at head key)
        (λ e. why_no_work 4096 at alone (head_of head) ≡ Some (number_of e)) }
{
    check_alone(alone)?;
    if head.way != at {
        return Err(Refusal::NotNow);
    }
    Key::new(head.done).ok_or(Refusal::AllDone)
}

/// Backfill of one key: puts in the entry of its row, if it has one. The change turns where another key has an entry
/// for the value, in a unique index.
fn fill_key(head: Index, rows: &Rows, entries: &mut Entries, key: Key) -> Index
    requires { IsNext BACKFILL head key }
    ensures { work_on result (entry_of entries.new) ≡ filled 4096 (λ k. value_in head.column.number (row_of rows.now k)) (work_on head (entry_of entries.old)) }
{
    if let Some(row) = rows.get(key) {
        if refuses(
            entries,
            head.unique,
            Stage::WriteOnly,
            head.column,
            key,
            Write::Put(row),
        ) {
            return head.at(Way::Down(Stage::WriteOnly));
        }
        entries.put(key, row.value(head.column));
    }
    head.onward()
}

/// Cleanup of one key: takes out its entry, if it has one.
fn clear_key(head: Index, entries: &mut Entries, key: Key) -> Index
    requires { IsNext CLEANUP head key }
    ensures { work_on result (entry_of entries.new) ≡ cleared (work_on head (entry_of entries.old)) }
{
    entries.take(key);
    head.onward()
}

/// Work on the next `count` keys, or on as many as are left; `one` is what is done to a key, and gives the head after it.
fn work<F: Fn(Index, &mut Entries, Key) -> Index>(
    head: Index,
    alone: bool,
    at: Way,
    entries: &mut Entries,
    count: u16,
    one: F,
) -> Result<Index, Refusal>
    requires { (h : Index) (e : _) (k : _) → IsNext at h k → F.pre one h e k }
    ensures { (step : Work → Work) → DoesStep at (F.post one) (λ e. entry_of e.now) step
        → Worked result (why_no_work 4096 at alone (head_of head)) (entry_of entries.old) (entry_of entries.new) (repeated (λ x. may_work 4096 at x.head) step count (work_on head (entry_of entries.old))) }
{
    next_key(head, alone, at)?;
    let mut head = head;
    for _ in 0..count {
        let Ok(key) = next_key(head, true, at) else {
            break;
        };
        head = one(head, entries, key);
    }
    Ok(head)
}

// An `Option` here and below, since it is asked why not: as an error it is that of `next_key`.
/// Why backfill may not go on, if it may not.
pub fn why_not_fill(head: Index, alone: bool) -> Option<Refusal>
    ensures why { numbered result ≡ why_not_fill 4096 alone (head_of head) }
    ensures stands { result ≡ None → (head.way ≡ Way.Up Stage.WriteOnly) × (head.done < 4096) }
{
    next_key(head, alone, BACKFILL).err()
}

/// Why cleanup may not go on, if it may not.
pub fn why_not_clear(head: Index, alone: bool) -> Option<Refusal>
    ensures why { numbered result ≡ why_not_clear 4096 alone (head_of head) }
    ensures stands { result ≡ None → (head.way ≡ Way.Down Stage.DeleteOnly) × (head.done < 4096) }
{
    next_key(head, alone, CLEANUP).err()
}

/// Backfill over the next `count` keys, up to one whose value is taken in a unique index: the change then turns.
pub fn fill(
    head: Index,
    alone: bool,
    rows: &Rows,
    entries: &mut Entries,
    count: u16,
) -> Result<Index, Refusal>
    ensures { Worked result (why_not_fill 4096 alone (head_of head)) (entry_of entries.old) (entry_of entries.new) (filled_n 4096 (λ k. value_in head.column.number (row_of rows.now k)) count (work_on head (entry_of entries.old))) }
{
    let one = |head: Index, entries: &mut Entries, key: Key| fill_key(head, rows, entries, key);
    work(head, alone, BACKFILL, entries, count, one)
}

/// Cleanup over the next `count` keys.
pub fn clear(head: Index, alone: bool, entries: &mut Entries, count: u16) -> Result<Index, Refusal>
    ensures { Worked result (why_not_clear 4096 alone (head_of head)) (entry_of entries.old) (entry_of entries.new) (cleared_n 4096 count (work_on head (entry_of entries.old))) }
{
    work(head, alone, CLEANUP, entries, count, clear_key)
}
