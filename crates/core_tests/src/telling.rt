//! A drum in memory that keeps a list of its calls.
ghost use Rattle.std.specs.Prelude.{◌≡◌, length, IfOk};
ghost use Rattle.drum_slots.specs.Kept.{ServesSlots};
ghost use Rattle.medium.specs.MediumState.{rows_told};

use faults::NoMemory;
use medium::{Failed, Medium, MemoryMedium};
use std::alloc::Global;

/// A call that did not fail, of a record.
#[derive(Clone, Copy, PartialEq, Eq)]
pub(crate) enum Call {
    Put(u16),
    Get(u16),
}

/// Records in memory, the calls made of them, and whether one failed or found no memory.
#[derive(Drop)]
pub(crate) struct TellingDrum {
    records: MemoryMedium,
    calls: Vec<Call>,
    lacks: bool,
}

impl TellingDrum {
    /// So many records of 256 words, of which no call was made.
    pub(crate) fn new(alloc: Global, count: u16) -> Result<TellingDrum, NoMemory>
        ensures { IfOk result (λ drum. ServesSlots (rows_told drum.records) (length drum.records.contents)
            drum.records.words_each count) }
    {
        let records = MemoryMedium::new(alloc, count, 256, &[], &[], 0)?;
        Ok(TellingDrum {
            records,
            calls: Vec::new(alloc),
            lacks: false,
        })
    }

    /// Whether just these calls were made, and none failed.
    pub(crate) fn had(&self, calls: &[Call]) -> bool {
        !self.lacks && self.calls.as_slice() == calls
    }

    /// One more call.
    fn note(&mut self, call: Call, failed: bool)
        ensures { self.new.records ≡ self.old.records }
    {
        if failed || self.calls.push(call).is_err() {
            self.lacks = true;
        }
    }
}

impl Medium for TellingDrum {
    ghost use Rattle.std.specs.Prelude.{length};
    ghost use Rattle.medium.specs.MediumState.{rows_told};

    ghost record_count = { λ drum. length drum.records.contents };

    ghost words_each = { λ drum. drum.records.words_each };

    ghost contents = { λ drum. rows_told drum.records };

    ghost calls = { λ drum. drum.records.calls };

    ghost faults = { λ drum. drum.records.fault_count };

    fn records(&self) -> u16 {
        self.records.records()
    }

    fn record_words(&self) -> u16 {
        self.records.record_words()
    }

    fn read(&mut self, at: u16, into: &mut [u64]) -> Result<(), Failed> {
        let outcome = self.records.read(at, into);
        self.note(Call::Get(at), outcome.is_err());
        outcome
    }

    fn write(&mut self, at: u16, from: &[u64]) -> Result<(), Failed> {
        let outcome = self.records.write(at, from);
        self.note(Call::Put(at), outcome.is_err());
        outcome
    }
}
