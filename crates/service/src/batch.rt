//! Answers that wait together: one append and one sync serve them all.

ghost use Rattle.std.specs.Prelude.{◌≡◌, [], ◌∷◌, ◌++◌, OnOk};
ghost use Rattle.std.specs.Option.{option_to_list};
ghost use Rattle.wal.specs.Log.{Committed};

use super::kinds::Answer;
use super::pending::Pending;
use register::Record;
use std::alloc::{AllocError, Global};
use wal::{Fault, Journal};

/// Answers that wait for their records to be in the journal, the oldest first. It is not `Drop`: only a commit spends
/// it.
pub struct Batch {
    // Two lists, since many answers have no record, and one append takes all records as a slice.
    answers: Vec<Answer>,
    records: Vec<Record>,
}

impl Batch {
    /// Nothing waits.
    pub fn new(heap: Global) -> Batch
        ensures { (result.answers.items ≡ []) × (result.records.items ≡ []) }
    {
        Batch {
            answers: Vec::new(heap),
            records: Vec::new(heap),
        }
    }

    /// Takes over an answer that waits, behind those that are there.
    pub fn add(&mut self, owed: Pending) -> Result<(), AllocError>
        ensures { OnOk result ((self.new.answers.items ≡ self.old.answers.items ++ owed.answer ∷ []) × (self.new.records.items ≡ self.old.records.items ++ option_to_list owed.what)) }
    {
        let Pending { answer, what } = owed;
        self.answers.push(answer)?;
        if let Some(record) = what {
            self.records.push(record)?;
        }
        Ok(())
    }

    /// Writes all records and syncs them; only then the answers can be given out.
    pub fn commit<J: Journal<Record>>(self, journal: &mut J) -> Result<Vec<Answer>, Fault>
        ensures { Committed result (λ v. v.items ≡ self.answers.items) self.records.items (J.Journal.durable journal.old) (J.Journal.pending journal.old) (J.Journal.durable journal.new) (J.Journal.pending journal.new) }
    {
        let Batch { answers, records } = self;
        journal.append(records.as_slice())?;
        journal.sync()?;
        Ok(answers)
    }
}
