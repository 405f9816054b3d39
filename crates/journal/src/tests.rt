//! Bytes of records, and bytes that no store writes.

use super::*;
use keyset::Key;
use register::Record;
use stage::Stage;
use std::test::Fail;
use table::Row;

fn is_part(bytes: &[u8]) -> bool {
    decode(bytes, 0).is_err_and(|unread| unread == Unread::Part)
}

fn is_bad(bytes: &[u8]) -> bool {
    decode(bytes, 0).is_err_and(|unread| unread == Unread::Bad)
}

// A row of the key 258 is put by somebody who knows the index 1 as public and the index 7 as delete-only.
fn row_put() -> Option<Record> {
    let mut stages = [Stage::Absent; 8];
    stages[1] = Stage::Public;
    stages[7] = Stage::DeleteOnly;
    let columns = [16909060, 0, 0, 0, 0, 0, 0, 4294967295];
    Some(Record::Put(Key::new(258)?, Row { columns }, stages))
}

#[test]
fn written_and_read(rt: HostRuntime) -> Result<(), Fail> {
    let Some(what) = row_put() else {
        return Err(Fail::new("no such key"));
    };
    let mut out = Vec::new(rt.alloc());
    encode(&what, &mut out)?;
    assert!(rt; out.len() == 40);
    assert!(rt; out.as_slice()[0..8] == [1, 1, 2, 1, 2, 3, 4, 0]);
    assert!(rt; out.as_slice()[31..40] == [255, 255, 255, 255, 2, 1, 3, 7, 1]);
    let Ok((Record::Put(key, row, stages), end)) = decode(out.as_slice(), 0) else {
        return Err(Fail::new("not read back"));
    };
    assert!(rt; end == 40 && key.number() == 258 && row.columns[0] == 16909060);
    assert!(rt; stages[1] == Stage::Public && stages[2] == Stage::Absent);
    Ok(())
}

#[test]
fn only_as_written(rt: HostRuntime) {
    assert!(rt; is_part(&[2, 1, 2, 2, 1, 3, 7]));
    assert!(rt; is_bad(&[2, 1, 2, 2, 7, 1, 1, 3]));
    assert!(rt; is_bad(&[2, 1, 2, 1, 1, 0]));
    assert!(rt; is_bad(&[2, 16, 0, 0]));
    assert!(rt; is_bad(&[3, 0, 0, 2]));
    assert!(rt; is_bad(&[10]));
}
