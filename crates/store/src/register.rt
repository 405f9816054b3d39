//! The register's file. So far it holds one kind of record, the single byte 9 for each coming up.

use anyhow::bail;
use std::fs::{File, OpenOptions};
use std::io::{Read, Write};

const CAME_UP: u8 = 9;

/// Opens the file, or makes it; writes the coming-up and syncs it. How many there are now.
pub fn come_up(rt: &HostRuntime, path: &str) -> anyhow::Result<usize> {
    let mut file = OpenOptions::new()
        .read(true)
        .append(true)
        .create(true)
        .open(rt, path)?;
    let mut bytes = Vec::new(rt.alloc());
    file.read_to_end(&mut bytes)?;
    if bytes.iter().any(|&byte| byte != CAME_UP) {
        println!(rt; "refused 1")?;
        bail!("the register's file has a byte that begins no known record; it is left as it is");
    }
    file.write_all(&[CAME_UP])?;
    file.sync_all()?;
    File::open(rt, ".")?.sync_all()?;
    Ok(bytes.len().saturating_add(1))
}
