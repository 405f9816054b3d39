//! The head of an index, and why a call is refused.

use stage::Stage;
use table::Column;

/// Which way a change goes, and the stage that it has come to.
#[derive(Clone, Copy, Debug, PartialEq, Eq)]
pub enum Way {
    Up(Stage),
    Down(Stage),
}

/// The head of an index: what it is about, and how far its change has come.
#[derive(Clone, Copy)]
pub struct Index {
    /// The column whose values it has.
    pub column: Column,
    /// Whether no two rows may have one value.
    pub unique: bool,
    /// Which way its change goes, with the stage.
    pub way: Way,
    /// Over how many keys, from 0, backfill or cleanup has gone in this stage.
    pub done: u16,
}

/// Why a call is refused.
#[derive(Clone, Copy, Debug, PartialEq, Eq)]
pub enum Refusal {
    /// A key, column, index, office or stage that there is none of, or a call that cannot be read.
    OutOfRange,
    /// The office has no running lease of this epoch and these stages.
    NoLease,
    /// The index is not public in the office's lease.
    NotPublic,
    /// Another key has an entry for that value in a unique index.
    NotUnique,
    /// Some running lease is of another stage.
    OtherStage,
    /// Backfill has not gone over all keys.
    NotFilled,
    /// Cleanup has not gone over all keys.
    NotCleared,
    /// The change goes the other way.
    OtherWay,
    /// The change is in its last stage.
    LastStage,
    /// There is no such index.
    NoIndex,
    /// The index is there already.
    IndexThere,
    /// The change is not in the stage and way in which this is done.
    NotNow,
    /// Backfill or cleanup has gone over all keys.
    AllDone,
    /// The store has come up too short a time ago.
    Quiet,
    /// There is no such row.
    NoRow,
}
