//! A journal on a file.
//!
//! What the file holds is known to no proof: `durable` and `pending` follow it by hand, and are moved on just after the
//! call of the system that does it, where that call answered `Ok`. They are of what is written since the file was opened.

ghost use Rattle.std.specs.Prelude.{◌≡◌, []};
ghost use Rattle.disk.specs.declared.file.State.TheVariants.{Synced};

use super::shadow::Shadow;
use std::fs::File;
use std::io::Write;
use wal::{Fault, Journal};

/// Where a journal on a file stands.
#[derive(Clone, Copy, PartialEq, Eq)]
enum State {
    /// All that was written is synced.
    Synced,
    /// Something was written since the last sync.
    Written,
    /// A write or a sync failed.
    Broken,
}

/// A journal on a file. After an error it is not used again.
#[derive(Drop)]
pub struct Disk {
    file: File,
    durable: Shadow,
    pending: Shadow,
    state: State,
    ghost all_synced: { state ≡ Synced → pending.bytes ≡ [] },
}

impl Disk {
    /// A journal that goes on behind what a file has.
    pub(super) fn new(file: File) -> Disk
        ensures { (result.durable.bytes ≡ []) × (result.pending.bytes ≡ []) × (result.state ≡ Synced) }
    {
        Disk {
            file,
            durable: Shadow::of(b""),
            pending: Shadow::of(b""),
            state: State::Synced,
        }
    }
}

impl Journal<u8> for Disk {
    ghost durable = { λ d. d.durable.bytes };

    ghost pending = { λ d. d.pending.bytes };

    fn append(&mut self, bytes: &[u8]) -> Result<(), Fault> {
        if self.state == State::Broken {
            return Err(Fault::Broken);
        }
        if bytes.is_empty() {
            return Ok(());
        }
        // broken, unless the system writes
        self.state = State::Broken;
        self.file.write_all(bytes)?;
        self.state = State::Written;
        self.pending = Shadow::joined(&self.pending, &Shadow::of(bytes));
        Ok(())
    }

    fn sync(&mut self) -> Result<(), Fault> {
        match self.state {
            State::Broken => Err(Fault::Broken),
            State::Synced => Ok(()),
            State::Written => {
                // broken, unless the system syncs
                self.state = State::Broken;
                self.file.sync_data()?;
                self.durable = Shadow::joined(&self.durable, &self.pending);
                self.pending = Shadow::of(b"");
                self.state = State::Synced;
                Ok(())
            }
        }
    }
}
