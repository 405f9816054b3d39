//! A journal read in windows, so that the memory for it does not grow with its file.

ghost use Rattle.std.specs.Prelude.{◌≡◌, ℕ, true, List, [], ◌++◌, length, IfOk};
ghost use Rattle.register.specs.Registers.{bare};
ghost use Rattle.register.specs.Held.{register_of};
ghost use Rattle.replay.specs.Windows.{Windowed};

use super::error::NotRead;
use super::records::replay;
use register::Register;
use std::alloc::{AllocError, Global};

/// The register after the whole records that were read so far, and what was read of the next one.
#[derive(Drop)]
pub struct Reader {
    pub(super) register: Register,
    pub(super) rest: Vec<u8>,
}

impl Reader {
    /// An empty register, nothing read.
    pub fn new(heap: Global) -> Result<Reader, AllocError>
        ensures { IfOk result (λ d. (register_of d.register ≡ bare) × (d.rest.items ≡ [])) }
    {
        let register = Register::new(heap)?;
        Ok(Reader {
            register,
            rest: Vec::new(heap),
        })
    }

    /// Reads the next window of the journal's bytes, behind what was left of those before it.
    pub fn read(self, heap: Global, window: &[u8]) -> Result<Reader, NotRead>
        ensures { Windowed result (self.rest.items ++ window.now) (register_of self.register) }
    {
        let Reader {
            mut register,
            mut rest,
        } = self;
        rest.extend_from_slice(window)?;
        let done = replay(&mut register, rest.as_slice())?;
        let mut left = Vec::new(heap);
        left.extend_from_slice(&rest.as_slice()[done..])?;
        Ok(Reader {
            register,
            rest: left,
        })
    }

    /// The register after all whole records, and how many bytes of a part of one are left.
    pub fn finish(self) -> (Register, usize)
        ensures { (result.0 ≡ self.register) × (result.1 ≡ length self.rest.items) }
    {
        let Reader { register, rest } = self;
        let left = rest.len();
        (register, left)
    }
}
