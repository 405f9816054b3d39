//! Records written as bytes.

ghost use Rattle.std.specs.Prelude.{◌≡◌, ℕ, true, List, [], ◌∷◌, ◌++◌};
ghost use Rattle.stage.specs.Stages.{ranks};
ghost use Rattle.register.specs.Registers.{are_stages};
ghost use Rattle.register.specs.Held.{record_of};
ghost use Rattle.journal.specs.Bytes.{two, fours, known, pairs, stage_bytes, flag, bytes_of, Writable, Columns};
ghost use Rattle.journal.specs.Kinds.{first_byte};
ghost use Rattle.journal.specs.Writes.{Added, Written};

use super::kinds::Kind;
use keyset::Key;
use register::Record;
use stage::{INDEXES, Slot, Stage};
use std::alloc::AllocError;
use table::{COLUMNS, Column};

/// Adds bytes.
fn add(out: &mut Vec<u8>, bytes: &[u8]) -> Result<(), AllocError>
    ensures { Added result bytes.now out.old.items out.new.items }
{
    out.extend_from_slice(bytes)
}

/// Adds a row's columns.
fn add_columns(out: &mut Vec<u8>, columns: &[u32; COLUMNS]) -> Result<(), AllocError>
    ensures { Added result (fours columns.now) out.old.items out.new.items }
{
    for column in columns {
        add(out, &column.to_be_bytes())?;
    }
    Ok(())
}

/// How many stages are not absent.
fn count(stages: &[Stage; INDEXES]) -> u8
    ensures { result ≡ known (ranks stages.now) }
{
    stages
        .iter()
        .filter(|stage| **stage != Stage::Absent)
        .count() as u8
}

/// Adds an index and its stage, unless that is absent.
fn add_stage(out: &mut Vec<u8>, index: u8, stage: Stage) -> Result<(), AllocError>
    ensures { Added result (pairs index (ranks (stage ∷ []))) out.old.items out.new.items }
{
    match stage {
        Stage::Absent => Ok(()),
        _ => add(out, &[index, u8::from(stage)]),
    }
}

/// Adds each index and its stage, unless that is absent.
fn add_pairs(out: &mut Vec<u8>, stages: &[Stage; INDEXES]) -> Result<(), AllocError>
    ensures { Added result (pairs 0 (ranks stages.now)) out.old.items out.new.items }
{
    for (index, stage) in stages.iter().enumerate() {
        add_stage(out, index as u8, *stage)?;
    }
    Ok(())
}

/// Adds the stages of all indexes.
fn add_stages(out: &mut Vec<u8>, stages: &[Stage; INDEXES]) -> Result<(), AllocError>
    ensures { Added result (stage_bytes (ranks stages.now)) out.old.items out.new.items }
{
    add(out, &[count(stages)])?;
    add_pairs(out, stages)
}

/// Adds the first byte of a kind, and a key.
fn add_keyed(out: &mut Vec<u8>, kind: Kind, key: Key) -> Result<(), AllocError>
    ensures { Added result (first_byte kind ∷ two key.number) out.old.items out.new.items }
{
    let [high, low] = key.number().to_be_bytes();
    add(out, &[kind as u8, high, low])
}

/// Adds the record of a row that is put.
#[tactic(auto, using(crate::proofs::Pairs::eight_ranks))]
fn add_put(
    out: &mut Vec<u8>,
    key: Key,
    columns: &[u32; COLUMNS],
    stages: &[Stage; INDEXES],
) -> Result<(), AllocError>
    ensures added { Added result (first_byte Kind.Put ∷ (two key.number ++ (fours columns.now ++ stage_bytes (ranks stages.now)))) out.old.items out.new.items }
    ensures fit { Columns columns.now }
    ensures stages { are_stages 8 (ranks stages.now) ≡ true }
{
    add_keyed(out, Kind::Put, key)?;
    add_columns(out, columns)?;
    add_stages(out, stages)
}

/// Adds the record of a row that is taken away.
#[tactic(auto, using(crate::proofs::Pairs::eight_ranks))]
fn add_removed(out: &mut Vec<u8>, key: Key, stages: &[Stage; INDEXES]) -> Result<(), AllocError>
    ensures added { Added result (first_byte Kind.Removed ∷ (two key.number ++ stage_bytes (ranks stages.now))) out.old.items out.new.items }
    ensures stages { are_stages 8 (ranks stages.now) ≡ true }
{
    add_keyed(out, Kind::Removed, key)?;
    add_stages(out, stages)
}

/// Adds the record of a change's step.
fn add_change(out: &mut Vec<u8>, kind: Kind, index: Slot) -> Result<(), AllocError>
    ensures { Added result (first_byte kind ∷ index.number ∷ []) out.old.items out.new.items }
{
    add(out, &[kind as u8, index.number() as u8])
}

/// Adds the record of work on a key.
fn add_work(out: &mut Vec<u8>, kind: Kind, index: Slot, key: Key) -> Result<(), AllocError>
    ensures { Added result (first_byte kind ∷ index.number ∷ two key.number) out.old.items out.new.items }
{
    let [high, low] = key.number().to_be_bytes();
    add(out, &[kind as u8, index.number() as u8, high, low])
}

/// Adds the record of an index that is made.
fn add_made(out: &mut Vec<u8>, index: Slot, column: Column, unique: bool) -> Result<(), AllocError>
    ensures { Added result (first_byte Kind.Made ∷ index.number ∷ column.number ∷ flag unique ∷ []) out.old.items out.new.items }
{
    add(
        out,
        &[
            Kind::Made as u8,
            index.number() as u8,
            column.number() as u8,
            u8::from(unique),
        ],
    )
}

/// Adds a record.
fn add_record(out: &mut Vec<u8>, what: Record) -> Result<(), AllocError>
    ensures added { Added result (bytes_of (record_of what)) out.old.items out.new.items }
    ensures writable { Writable (record_of what) }
{
    match what {
        Record::Put(key, row, stages) => add_put(out, key, &row.columns, &stages),
        Record::Removed(key, stages) => add_removed(out, key, &stages),
        Record::Made(index, column, unique) => add_made(out, index, column, unique),
        Record::WentUp(index) => add_change(out, Kind::WentUp, index),
        Record::Turned(index) => add_change(out, Kind::Turned, index),
        Record::WentDown(index) => add_change(out, Kind::WentDown, index),
        Record::Filled(index, key) => add_work(out, Kind::Filled, index, key),
        Record::Cleared(index, key) => add_work(out, Kind::Cleared, index, key),
        Record::CameUp => add(out, &[Kind::CameUp as u8]),
    }
}

/// Writes a record behind the bytes that are there. Where memory is short nothing changes.
pub fn encode(what: &Record, out: &mut Vec<u8>) -> Result<(), AllocError>
    ensures written { Written result (bytes_of (record_of what.now)) out.old.items out.new.items }
    ensures writable { Writable (record_of what.now) }
{
    let before = out.len();
    // After an inspect_err nothing is known of what its closure may write, even where it does not run.
    let added = add_record(out, *what);
    if added.is_err() {
        out.truncate(before);
    }
    added
}
