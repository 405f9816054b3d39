//! An answer that waits.

use super::kinds::Answer;
use register::Record;

/// An answer that may not go out before its record is in the journal. It is not `Drop`: only a commit spends it.
pub struct Pending {
    pub(super) answer: Answer,
    pub(super) what: Option<Record>,
}
