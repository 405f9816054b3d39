//! Changes from made to public, and back to gone.

use super::*;
use keyset::Key;
use std::alloc::{AllocError, Global};
use std::test::Fail;
use table::{Entries, Row, Rows};

fn put(rows: &mut Rows, number: u16, value: u32) {
    if let Some(key) = Key::new(number) {
        rows.put(
            key,
            Row {
                columns: [value, 0, 0, 0, 0, 0, 0, 0],
            },
        );
    }
}

fn index(unique: bool, way: Way, done: u16) -> Index {
    Index {
        column: Column::new(0).unwrap(),
        unique,
        way,
        done,
    }
}

// The number of the refusal, if there is one.
fn refused(r: Result<Index, Refusal>) -> Option<u8> {
    r.err().map(u8::from)
}

fn up_refused(way: Way, done: u16, alone: bool) -> Option<u8> {
    refused(up(index(false, way, done), alone))
}

fn turn_refused(way: Way, alone: bool) -> Option<u8> {
    refused(turn(index(false, way, 0), alone))
}

// Whether the index is still there a stage further down, or the refusal's number.
fn down_gives(way: Way, done: u16, alone: bool) -> Result<bool, u8> {
    let head = down(index(false, way, done), alone)?;
    Ok(head.is_some())
}

// Backfill of a column that has one value twice, over so many keys: how many are done, none where it turned.
fn filled(heap: Global, unique: bool, count: u16) -> Result<Option<u16>, Fail> {
    let mut rows = Rows::new(heap)?;
    let mut entries = Entries::new(heap)?;
    put(&mut rows, 5, 8);
    put(&mut rows, 4095, 8);
    let head = index(unique, Way::Up(Stage::WriteOnly), 0);
    let head = fill(head, true, &rows, &mut entries, count)?;
    match head.way {
        Way::Up(_) => Ok(Some(head.done)),
        Way::Down(_) => Ok(None),
    }
}

fn fill_refused(heap: Global, way: Way, done: u16, alone: bool) -> Result<Option<u8>, AllocError> {
    let rows = Rows::new(heap)?;
    let mut entries = Entries::new(heap)?;
    let head = index(false, way, done);
    Ok(refused(fill(head, alone, &rows, &mut entries, 1)))
}

fn clear_refused(heap: Global, way: Way, done: u16, alone: bool) -> Result<Option<u8>, AllocError> {
    let mut entries = Entries::new(heap)?;
    let head = index(false, way, done);
    Ok(refused(clear(head, alone, &mut entries, 1)))
}

#[test]
fn going_up(rt: HostRuntime) {
    assert_eq!(rt; up_refused(Way::Up(Stage::Absent), 0, true), None);
    assert_eq!(rt; up_refused(Way::Up(Stage::WriteOnly), 4095, true), Some(5));
    assert_eq!(rt; up_refused(Way::Up(Stage::WriteOnly), 4096, true), None);
    assert_eq!(rt; up_refused(Way::Up(Stage::Public), 0, true), Some(6));
    assert_eq!(rt; up_refused(Way::Down(Stage::DeleteOnly), 0, true), Some(6));
    assert_eq!(rt; up_refused(Way::Down(Stage::DeleteOnly), 0, false), Some(5));
}

#[test]
fn going_down(rt: HostRuntime) {
    assert_eq!(rt; turn_refused(Way::Up(Stage::Public), true), None);
    assert_eq!(rt; turn_refused(Way::Down(Stage::Public), true), Some(6));
    assert_eq!(rt; turn_refused(Way::Up(Stage::Absent), false), Some(5));
    assert_eq!(rt; down_gives(Way::Down(Stage::Public), 0, true), Ok(true));
    assert_eq!(rt;
        down_gives(Way::Down(Stage::DeleteOnly), 4095, true),
        Err(5)
    );
    assert_eq!(rt;
        down_gives(Way::Down(Stage::DeleteOnly), 4096, true),
        Ok(true)
    );
    assert_eq!(rt; down_gives(Way::Down(Stage::Absent), 0, true), Ok(false));
    assert_eq!(rt; down_gives(Way::Up(Stage::Absent), 0, true), Err(6));
}

#[test]
fn backfill(rt: HostRuntime) -> Result<(), Fail> {
    let heap = rt.alloc();
    assert_eq!(rt; filled(heap, false, 65535)?, Some(4096));
    assert_eq!(rt; filled(heap, true, 4095)?, Some(4095));
    assert_eq!(rt; filled(heap, true, 4096)?, None);
    assert_eq!(rt; filled(heap, true, 0)?, Some(0));
    assert_eq!(rt;
        fill_refused(heap, Way::Up(Stage::WriteOnly), 4096, true)?,
        Some(7)
    );
    assert_eq!(rt;
        fill_refused(heap, Way::Up(Stage::DeleteOnly), 0, true)?,
        Some(7)
    );
    assert_eq!(rt;
        fill_refused(heap, Way::Up(Stage::DeleteOnly), 0, false)?,
        Some(5)
    );
    Ok(())
}

#[test]
fn cleanup(rt: HostRuntime) -> Result<(), Fail> {
    let heap = rt.alloc();
    assert_eq!(rt;
        clear_refused(heap, Way::Down(Stage::DeleteOnly), 4095, true)?,
        None
    );
    assert_eq!(rt;
        clear_refused(heap, Way::Down(Stage::DeleteOnly), 4096, true)?,
        Some(7)
    );
    assert_eq!(rt;
        clear_refused(heap, Way::Down(Stage::WriteOnly), 0, true)?,
        Some(7)
    );
    assert_eq!(rt;
        clear_refused(heap, Way::Down(Stage::DeleteOnly), 0, false)?,
        Some(5)
    );
    Ok(())
}
