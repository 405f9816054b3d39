//! Records read of one lent slice, and done again to the register.

ghost use Rattle.std.specs.Prelude.{◌≡◌, ℕ, ◌≤◌, length};
ghost use Rattle.register.specs.Held.{register_of};
ghost use Rattle.replay.specs.Next.{OneMore};
ghost use Rattle.replay.specs.Played.{Answered};

use change::Refusal;
use journal::Unread;
use register::Register;

// The place stays beside the bytes: where a record ends is told as a place among all of them.
/// Reads the record at a place and does it: where it ends, or nothing where there is only a part of it.
fn one_more(register: &mut Register, bytes: &[u8], at: usize) -> Result<Option<usize>, Refusal>
    ensures { OneMore result bytes.now at (register_of register.old) (register_of register.new) }
{
    let read = journal::decode(bytes, at);
    if let Err(Unread::Part) = read {
        return Ok(None);
    }
    let Ok(whole) = read else {
        return Err(Refusal::OutOfRange);
    };
    let (what, end) = whole;
    register.apply(what).map_err(|_| Refusal::OutOfRange)?;
    Ok(Some(end))
}

/// Does the records again that stand in these bytes, in order, up to the last whole one: how many bytes they have. What
/// is neither a record nor a part of one, and a record that cannot be done, refuse the bytes; those before it are done.
pub fn replay(register: &mut Register, bytes: &[u8]) -> Result<usize, Refusal>
    ensures { Answered result bytes.now (register_of register.old) (register_of register.new) }
{
    let mut at = 0;
    while let Some(end) = one_more(register, bytes, at)? {
        at = end;
    }
    Ok(at)
}
