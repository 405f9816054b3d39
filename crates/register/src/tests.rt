//! Records done to the register: at the edges, in each stage, and where they cannot be done.

use super::*;
use keyset::Key;
use stage::{INDEXES, Slot, Stage};
use std::alloc::Global;
use std::test::Fail;
use table::{Column, Row};

const LAST: u32 = 4294967295;

// What is done to the last index, which is over the first column, or to a key's row by somebody who knows all indexes in
// one stage.
#[derive(Clone, Copy)]
enum Step {
    Put(u16, u32, Stage),
    Remove(u16, Stage),
    Make(bool),
    Up,
    Turn,
    Down,
    Fill(u16),
    Clear(u16),
}

fn row(value: u32) -> Row {
    Row {
        columns: [value, 0, 0, 0, 0, 0, 0, 0],
    }
}

fn record(step: Step) -> Option<Record> {
    let index = Slot::new(7)?;
    Some(match step {
        Step::Put(key, value, stage) => {
            Record::Put(Key::new(key)?, row(value), [stage; INDEXES])
        }
        Step::Remove(key, stage) => Record::Removed(Key::new(key)?, [stage; INDEXES]),
        Step::Make(unique) => Record::Made(index, Column::new(0)?, unique),
        Step::Up => Record::WentUp(index),
        Step::Turn => Record::Turned(index),
        Step::Down => Record::WentDown(index),
        Step::Fill(key) => Record::Filled(index, Key::new(key)?),
        Step::Clear(key) => Record::Cleared(index, Key::new(key)?),
    })
}

// The number of the refusal, 0 where there is none; None where there is no such record.
fn did(r: &mut Register, step: Step) -> Option<u8> {
    Some(r.apply(record(step)?).err().map_or(0, u8::from))
}

// Whether each of these steps is refused by its number, or done where that is 0, with nothing wrong after any.
fn whole_after(r: &mut Register, steps: &[(Step, u8)]) -> bool {
    steps.iter().all(|(step, refused)| did(r, *step) == Some(*refused) && r.is_whole())
}

// A step of all keys: how many were done. In a loop, since a chain whose test changes the register is not proved.
fn work<F: Fn(u16) -> Step>(r: &mut Register, step: F) -> u16
    requires { F.IsAlwaysCallable step }
{
    for key in 0..4096 {
        if did(r, step(key)) != Some(0) {
            return key;
        }
    }
    4096
}

// What a key's row has in the first column.
fn value(r: &Register, key: u16) -> Option<u32> {
    Some(r.row(Key::new(key)?)?.columns[0])
}

// How many keys the last index has for a value.
fn found(heap: Global, r: &Register, value: u32) -> Result<usize, Fail> {
    let index = Slot::new(7).ok_or("no index 7")?;
    Ok(r.keys_by_index(heap, index, value)?.len())
}

// Whether a row is refused to somebody who knows all indexes in that stage.
fn refuses(r: &Register, key: u16, value: u32, stage: Stage) -> bool {
    Key::new(key).is_none_or(|key| r.refuses(&[stage; INDEXES], key, row(value)))
}

#[test]
fn rows_at_the_edges(rt: HostRuntime) -> Result<(), Fail> {
    let mut r = Register::new(rt.alloc())?;
    assert!(rt;
        whole_after(
            &mut r,
            &[
                (Step::Put(0, 0, Stage::Public), 0),
                (Step::Put(4095, LAST, Stage::Absent), 0),
                (Step::Put(4095, LAST - 1, Stage::Public), 0),
                (Step::Put(4094, 1, Stage::Public), 0),
                (Step::Remove(4094, Stage::Public), 0),
                (Step::Remove(4094, Stage::Public), 9),
            ],
        )
    );
    assert_eq!(rt; value(&r, 0), Some(0));
    assert_eq!(rt; value(&r, 4094), None);
    assert_eq!(rt; value(&r, 4095), Some(LAST - 1));
    Ok(())
}

#[test]
fn up_and_back(rt: HostRuntime) -> Result<(), Fail> {
    let heap = rt.alloc();
    let mut r = Register::new(heap)?;
    assert!(rt;
        whole_after(
            &mut r,
            &[
                (Step::Put(4095, 5, Stage::Absent), 0),
                (Step::Up, 6),
                (Step::Make(false), 0),
                (Step::Make(true), 6),
                (Step::Up, 0),
                (Step::Put(1, 5, Stage::Absent), 0),
                (Step::Put(1, 5, Stage::DeleteOnly), 0),
                (Step::Up, 0),
                (Step::Put(2, 5, Stage::DeleteOnly), 0),
                (Step::Put(3, 5, Stage::WriteOnly), 0),
                (Step::Put(3, 6, Stage::WriteOnly), 0),
                (Step::Up, 5),
                (Step::Fill(1), 7),
            ],
        )
    );
    assert_eq!(rt; found(heap, &r, 6)?, 1);
    assert_eq!(rt; work(&mut r, Step::Fill), 4096);
    assert!(rt;
        whole_after(
            &mut r,
            &[
                (Step::Up, 0),
                (Step::Put(2, 6, Stage::WriteOnly), 0),
                (Step::Put(1, 6, Stage::Public), 0),
            ],
        )
    );
    assert_eq!(rt; found(heap, &r, 6)?, 3);
    assert_eq!(rt; found(heap, &r, 5)?, 1);
    assert!(rt;
        whole_after(
            &mut r,
            &[
                (Step::Turn, 0),
                (Step::Down, 0),
                (Step::Put(2, 7, Stage::WriteOnly), 0),
                (Step::Down, 0),
                (Step::Put(3, 7, Stage::DeleteOnly), 0),
                (Step::Down, 5),
            ],
        )
    );
    assert_eq!(rt; found(heap, &r, 7)?, 1);
    assert_eq!(rt; work(&mut r, Step::Clear), 4096);
    assert!(rt; whole_after(&mut r, &[(Step::Down, 0), (Step::Down, 0), (Step::Down, 6)]));
    assert_eq!(rt; found(heap, &r, 7)?, 0);
    assert_eq!(rt; value(&r, 3), Some(7));
    Ok(())
}

#[test]
fn unique_refuses(rt: HostRuntime) -> Result<(), Fail> {
    let mut r = Register::new(rt.alloc())?;
    assert!(rt;
        whole_after(
            &mut r,
            &[
                (Step::Make(true), 0),
                (Step::Up, 0),
                (Step::Up, 0),
                (Step::Put(0, 5, Stage::DeleteOnly), 0),
                (Step::Put(9, 5, Stage::WriteOnly), 0),
                (Step::Fill(0), 4),
            ],
        )
    );
    assert!(rt; refuses(&r, 8, 5, Stage::WriteOnly) && !refuses(&r, 8, 5, Stage::DeleteOnly));
    assert!(rt; !refuses(&r, 9, 5, Stage::WriteOnly) && !refuses(&r, 8, 6, Stage::Public));
    // Two rows with one value, and then an entry that is not its row's.
    assert_eq!(rt; did(&mut r, Step::Put(8, 5, Stage::WriteOnly)), Some(0));
    assert!(rt; !r.is_whole());
    assert!(rt; whole_after(&mut r, &[(Step::Remove(8, Stage::Public), 0)]));
    assert_eq!(rt; did(&mut r, Step::Put(9, 6, Stage::Absent)), Some(0));
    assert!(rt; !r.is_whole());
    Ok(())
}
