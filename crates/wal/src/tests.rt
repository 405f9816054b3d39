//! The log in memory, at bytes and at pairs.

use super::*;
use std::test::Fail;

// Writes and syncs these.
fn write<T, J: Journal<T>>(journal: &mut J, items: &[T]) -> Result<(), Fault> {
    journal.append(items)?;
    journal.sync()
}

#[test]
fn a_stop_keeps_what_is_synced(rt: HostRuntime) -> Result<(), Fail> {
    let mut log: Memory<u8> = Memory::new(rt.alloc());
    assert!(rt; write(&mut log, &[1, 2]).is_ok());
    assert!(rt; log.append(&[3, 4, 5]).is_ok());
    log.stop(1);
    assert!(rt; log.items() == [1, 2, 3].as_slice());
    log.stop(0);
    assert!(rt; log.items() == [1, 2].as_slice());
    Ok(())
}

#[test]
fn a_log_of_pairs(rt: HostRuntime) -> Result<(), Fail> {
    let mut log: Memory<(u8, bool)> = Memory::new(rt.alloc());
    assert!(rt; write(&mut log, &[(7, true)]).is_ok());
    log.stop(0);
    assert!(rt; log.items() == [(7, true)].as_slice());
    Ok(())
}
