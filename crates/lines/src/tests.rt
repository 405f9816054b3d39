use super::*;
use std::alloc::AllocError;

fn is_refused(line: &[u8]) -> bool {
    parse(line).is_err()
}

fn is_skipped(line: &[u8]) -> bool {
    matches!(parse(line), Ok(None))
}

#[test]
fn refused(rt: HostRuntime) {
    assert!(rt; is_refused(b"64 loan") && is_refused(b"0 loan 1") && is_refused(b"0"));
    assert!(rt; is_refused(b"0 read 4096") && is_refused(b"0 look 8 1"));
    assert!(rt;
        is_refused(b"0 off 1 on")
            && is_refused(b"0 off 1 on 1 0=0")
            && is_refused(b"0 off 1 on 1 2=1 2=1")
    );
    assert!(rt; is_refused(b"make 0 0 uniqu") && is_refused(b"up\t0") && is_refused(b"up 0\0"));
}

#[test]
fn length(rt: HostRuntime) {
    let spaces = [b' '; 4097];
    assert!(rt; is_skipped(b"") && is_skipped(b"#") && is_skipped(&spaces[0..4096]));
    assert!(rt; is_refused(&spaces) && is_refused(b" #"));
}

#[test]
fn unreadable(rt: HostRuntime) -> Result<(), AllocError> {
    let text = format!(in rt.alloc(); "{Unreadable}")?;
    assert_eq!(rt; text.as_str(), "the line cannot be read");
    Ok(())
}
