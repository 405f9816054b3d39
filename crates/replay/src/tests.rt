//! Records cut in two by windows, a part at the end, and a record that cannot be done.

use super::*;
use register::Register;
use std::alloc::Global;
use std::test::Fail;

// A reader that has read these windows.
fn through(heap: Global, windows: &[&[u8]]) -> Result<Reader, Fail> {
    let mut reader = Reader::new(heap)?;
    for window in windows {
        reader = reader.read(heap, window)?;
    }
    Ok(reader)
}

#[test]
fn in_windows(rt: HostRuntime) -> Result<(), Fail> {
    let reader = through(rt.alloc(), &[&[9, 3, 0], &[5, 1, 4], &[0, 9, 2, 0]])?;
    let (register, left) = reader.finish();
    assert!(rt; register.epoch() == 2 && left == 2);
    Ok(())
}

#[test]
fn refused(rt: HostRuntime) -> Result<(), Fail> {
    let mut register = Register::new(rt.alloc())?;
    assert!(rt; replay(&mut register, &[9, 4, 0, 9]).is_err());
    assert!(rt; register.epoch() == 1);
    assert!(rt; replay(&mut register, &[9, 0]).is_err());
    assert!(rt; register.epoch() == 2);
    Ok(())
}
