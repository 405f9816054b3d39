//! A file that is read before it is written.

ghost use Rattle.std.specs.Prelude.{◌≡◌, ◌≤◌, [], length, IfOk};
ghost use Rattle.disk.specs.declared.file.State.TheVariants.{Synced};

use super::file::Disk;
use std::fs::{File, OpenOptions};
use std::io;
use std::io::Read;
use std::path::Path;

/// A journal's file that was opened, and of which nothing is written yet: it is read, maybe cut back, and then it is a
/// journal.
#[derive(Drop)]
pub struct Opened {
    file: File,
}

/// Makes the folder keep the file's name.
fn sync_folder(rt: &HostRuntime, path: &str) -> io::Result<()> {
    let folder = match Path::new(path).parent() {
        Some(folder) if !folder.as_str().is_empty() => folder,
        _ => Path::new("."),
    };
    File::open(rt, folder)?.sync_all()
}

impl Opened {
    /// Opens the file, or makes it.
    pub fn open(rt: &HostRuntime, path: &str) -> io::Result<Opened> {
        let file = OpenOptions::new()
            .read(true)
            .append(true)
            .create(true)
            .open(rt, path)?;
        sync_folder(rt, path)?;
        Ok(Opened { file })
    }

    /// Reads on from where the last reading ended: how many bytes were read, none at the end of the file.
    pub fn read(&mut self, window: &mut [u8]) -> io::Result<usize>
        ensures { IfOk result (λ n. n ≤ length window.old) }
    {
        self.file.read(window)
    }

    /// Cuts the file back to a length, for good.
    pub fn cut(&mut self, length: u64) -> io::Result<()> {
        self.file.set_len(length)?;
        self.file.sync_all()
    }

    /// The journal that goes on behind what the file has: nothing is written to it yet.
    pub fn journal(self) -> Disk
        ensures { (result.durable.bytes ≡ []) × (result.pending.bytes ≡ []) × (result.state ≡ Synced) }
    {
        Disk::new(self.file)
    }
}
