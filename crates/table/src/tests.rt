//! Rows and entries at the edges of their range.

use super::*;
use keyset::Key;
use std::test::Fail;

const MOST: u32 = 4294967295;

fn put_row(rows: &mut Rows, number: u16, value: u32) {
    if let Some(key) = Key::new(number) {
        rows.put(
            key,
            Row {
                columns: [value, 1, 2, 3, 4, 5, 6, value],
            },
        );
    }
}

fn take_row(rows: &mut Rows, number: u16) {
    if let Some(key) = Key::new(number) {
        rows.take(key);
    }
}

// Whether a key's row has that value in its first and last column.
fn row_is(rows: &Rows, number: u16, value: u32) -> bool {
    let Some(key) = Key::new(number) else {
        return false;
    };
    let Some(row) = rows.get(key) else {
        return false;
    };
    row.columns[0] == value && row.columns[3] == 3 && row.columns[7] == value
}

fn no_row(rows: &Rows, number: u16) -> bool {
    match Key::new(number) {
        Some(key) => rows.get(key).is_none(),
        None => false,
    }
}

fn put_entry(entries: &mut Entries, number: u16, value: u32) {
    if let Some(key) = Key::new(number) {
        entries.put(key, value);
    }
}

fn take_entry(entries: &mut Entries, number: u16) {
    if let Some(key) = Key::new(number) {
        entries.take(key);
    }
}

fn entry(entries: &Entries, number: u16) -> Option<u32> {
    match Key::new(number) {
        Some(key) => entries.get(key),
        None => None,
    }
}

fn taken(entries: &Entries, value: u32, number: u16) -> bool {
    match Key::new(number) {
        Some(key) => entries.taken_by_other(value, key),
        None => false,
    }
}

#[test]
fn rows_at_the_edges(rt: HostRuntime) -> Result<(), Fail> {
    let mut rows = Rows::new(rt.alloc())?;
    put_row(&mut rows, 0, 7);
    put_row(&mut rows, 31, 8);
    put_row(&mut rows, 32, 0);
    put_row(&mut rows, 4095, MOST);
    assert!(rt;
        row_is(&rows, 0, 7)
            && row_is(&rows, 31, 8)
            && row_is(&rows, 32, 0)
            && row_is(&rows, 4095, MOST)
    );
    assert!(rt; no_row(&rows, 1) && no_row(&rows, 30) && no_row(&rows, 33) && no_row(&rows, 4094));
    put_row(&mut rows, 31, 9);
    take_row(&mut rows, 32);
    take_row(&mut rows, 33);
    assert!(rt;
        row_is(&rows, 0, 7)
            && row_is(&rows, 31, 9)
            && no_row(&rows, 32)
            && row_is(&rows, 4095, MOST)
    );
    Ok(())
}

#[test]
fn rows_by_value(rt: HostRuntime) -> Result<(), Fail> {
    let mut rows = Rows::new(rt.alloc())?;
    put_row(&mut rows, 4095, MOST);
    put_row(&mut rows, 0, MOST);
    put_row(&mut rows, 32, 0);
    let Some(last) = Column::new(7) else {
        return Err(Fail::new("no column 7"));
    };
    assert_eq!(rt;
        rows.keys_with(rt.alloc(), last, MOST)?.as_slice(),
        [0, 4095].as_slice()
    );
    assert_eq!(rt;
        rows.keys_with(rt.alloc(), last, 0)?.as_slice(),
        [32].as_slice()
    );
    assert!(rt; Column::new(8).is_none());
    Ok(())
}

#[test]
fn entries_at_the_edges(rt: HostRuntime) -> Result<(), Fail> {
    let mut entries = Entries::new(rt.alloc())?;
    put_entry(&mut entries, 4095, MOST);
    put_entry(&mut entries, 0, MOST);
    put_entry(&mut entries, 31, 0);
    put_entry(&mut entries, 32, MOST);
    put_entry(&mut entries, 32, 5);
    assert_eq!(rt;
        entries.keys_for(rt.alloc(), MOST)?.as_slice(),
        [0, 4095].as_slice()
    );
    assert_eq!(rt;
        entries.keys_for(rt.alloc(), 0)?.as_slice(),
        [31].as_slice()
    );
    assert!(rt; entry(&entries, 32) == Some(5) && entry(&entries, 33).is_none());
    assert!(rt;
        taken(&entries, MOST, 0)
            && !taken(&entries, 5, 32)
            && taken(&entries, 5, 33)
            && !taken(&entries, 6, 33)
    );
    take_entry(&mut entries, 4095);
    take_entry(&mut entries, 4094);
    assert!(rt;
        entry(&entries, 4095).is_none() && !taken(&entries, MOST, 0) && taken(&entries, MOST, 1)
    );
    Ok(())
}
