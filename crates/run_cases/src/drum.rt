//! A drum in memory that keeps a list of its calls.
ghost use Rattle.std.specs.Prelude.{◌≡◌, IfOk};

use anyhow::Result;
use medium::{Failed, Medium, MemoryMedium};
use std::alloc::Global;

/// A call: whether it put or got a record, which one, and whether it failed.
#[derive(Clone, Copy)]
pub(crate) struct DrumCall {
    pub(crate) is_put: bool,
    pub(crate) record: u16,
    pub(crate) failed: bool,
}

/// Records in memory, and the calls made of them, as long as there is room for these.
#[derive(Drop)]
pub(crate) struct TellingDrum {
    records: MemoryMedium,
    calls: Vec<DrumCall>,
    room: u64,
    tells: bool,
}

impl TellingDrum {
    /// A drum of these records, of which no call was made, with room for so many; without room it tells none.
    pub(crate) fn new(alloc: Global, records: MemoryMedium, room: u64) -> Result<TellingDrum>
        ensures { IfOk result (λ drum. drum.records ≡ records) }
    {
        let calls = Vec::with_capacity(alloc, usize::try_from(room)?)?;
        Ok(TellingDrum {
            records,
            calls,
            room,
            tells: room != 0,
        })
    }

    /// The calls so far, if there was room for all.
    pub(crate) fn calls(&self) -> Option<&[DrumCall]> {
        if self.tells { Some(&self.calls) } else { None }
    }

    /// One more call. Past the room no calls are told any more.
    fn note(&mut self, call: DrumCall)
        ensures { self.new.records ≡ self.old.records }
    {
        if self.room == 0 || self.calls.push(call).is_err() {
            self.tells = false;
            return;
        }
        self.room -= 1;
    }
}

impl Medium for TellingDrum {
    ghost use Rattle.std.specs.Prelude.{length};
    ghost use Rattle.medium.specs.MediumState.{rows_told};

    ghost record_count = { λ drum. length drum.records.contents };

    ghost words_each = { λ drum. drum.records.words_each };

    ghost contents = { λ drum. rows_told drum.records };

    ghost calls = { λ drum. drum.records.calls };

    ghost faults = { λ drum. drum.records.fault_count };

    fn records(&self) -> u16 {
        self.records.records()
    }

    fn record_words(&self) -> u16 {
        self.records.record_words()
    }

    fn read(&mut self, at: u16, into: &mut [u64]) -> Result<(), Failed> {
        let outcome = self.records.read(at, into);
        let failed = outcome.is_err();
        self.note(DrumCall {
            is_put: false,
            record: at,
            failed,
        });
        outcome
    }

    fn write(&mut self, at: u16, from: &[u64]) -> Result<(), Failed> {
        let outcome = self.records.write(at, from);
        let failed = outcome.is_err();
        self.note(DrumCall {
            is_put: true,
            record: at,
            failed,
        });
        outcome
    }
}
