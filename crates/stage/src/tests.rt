//! Each stage, putting, changing and taking a row away.

use super::*;
use std::alloc::{AllocError, Global};
use std::test::Fail;

fn row(value: u32) -> Row {
    Row {
        columns: [value, 0, 0, 0, 0, 0, 0, 0],
    }
}

// The entry of the last key after an office in a stage changed its row, where the entry was the old row's.
fn entry_after(
    heap: Global,
    stage: Stage,
    old: Option<u32>,
    new: Option<u32>,
) -> Result<Option<u32>, AllocError> {
    let mut entries = Entries::new(heap)?;
    let Some(key) = Key::new(4095) else {
        return Ok(None);
    };
    let Some(column) = Column::new(0) else {
        return Ok(None);
    };
    let mut was = None;
    if let Some(value) = old {
        entries.put(key, value);
        was = Some(row(value));
    }
    let write = match new {
        Some(value) => Write::Put(row(value)),
        None => Write::Take,
    };
    follow(&mut entries, stage, column, key, was, write);
    Ok(entries.get(key))
}

fn refused(heap: Global, unique: bool, stage: Stage, number: u16) -> Result<bool, AllocError> {
    let mut entries = Entries::new(heap)?;
    let Some(last) = Key::new(4095) else {
        return Ok(false);
    };
    let Some(key) = Key::new(number) else {
        return Ok(false);
    };
    let Some(column) = Column::new(0) else {
        return Ok(false);
    };
    entries.put(last, 4294967295);
    Ok(refuses(
        &entries,
        unique,
        stage,
        column,
        key,
        Write::Put(row(4294967295)),
    ))
}

#[test]
fn table_of_stages(rt: HostRuntime) -> Result<(), Fail> {
    let heap = rt.alloc();
    assert_eq!(rt;
        entry_after(heap, Stage::Absent, Some(7), Some(8))?,
        Some(7)
    );
    assert_eq!(rt;
        entry_after(heap, Stage::DeleteOnly, Some(7), Some(8))?,
        None
    );
    assert_eq!(rt;
        entry_after(heap, Stage::WriteOnly, Some(7), Some(8))?,
        Some(8)
    );
    assert_eq!(rt;
        entry_after(heap, Stage::Public, None, Some(4294967295))?,
        Some(4294967295)
    );
    assert_eq!(rt; entry_after(heap, Stage::Public, Some(0), None)?, None);
    assert_eq!(rt; entry_after(heap, Stage::DeleteOnly, None, Some(8))?, None);
    Ok(())
}

#[test]
fn not_unique(rt: HostRuntime) -> Result<(), Fail> {
    let heap = rt.alloc();
    assert!(rt;
        refused(heap, true, Stage::WriteOnly, 0)? && refused(heap, true, Stage::Public, 0)?
    );
    assert!(rt;
        !refused(heap, true, Stage::DeleteOnly, 0)? && !refused(heap, true, Stage::Absent, 0)?
    );
    assert!(rt;
        !refused(heap, false, Stage::Public, 0)? && !refused(heap, true, Stage::Public, 4095)?
    );
    Ok(())
}

#[test]
fn numbers(rt: HostRuntime) -> Result<(), Fail> {
    assert!(rt; Stage::try_from(4).is_err() && Stage::try_from(255).is_err());
    let stage = Stage::try_from(3)?;
    assert!(rt; u8::from(stage) == 3 && stage.looks_up());
    Ok(())
}
