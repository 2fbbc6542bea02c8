//! Blocks of users, kept on a drum that is handed in.
ghost use Rattle.std.specs.Prelude.{◌≡◌, ◌≢◌, ◌<◌, ◌≤◌, ◌↔◌, ℕ, ◌∷◌, length, sum, None, replicate, IfOk, IsTrue, IsSome, true};
ghost use Rattle.medium.specs.Medium.{AreWords};
ghost use Rattle.drum_slots.specs.Kept.{ServesSlots};
ghost use Rattle.drum_slots.specs.Moves.{IsServed, PutsBlock, GetsBlock};
ghost use Rattle.drum_slots.specs.Slots.{slot_of};
ghost use Rattle.drum_slots.specs.Table.{slots_of, free_of, records_of, quota_in, place_of, record_of};

use crate::slots::Slots;
use ctss_types::UserNo;
use faults::NoMemory;
use medium::{Failed, Medium};
use std::alloc::Global;
use std::error::Error;
use std::fmt;

/// A call of the drum failed.
#[derive(Clone, Copy, Debug, PartialEq, Eq, Hash)]
pub struct DrumFault;

impl fmt::Display for DrumFault {
    ghost use Rattle.std.specs.Prelude.{Some, codes};

    ghost output = { λ _. Some (codes "the drum failed") };

    fn fmt<W: fmt::Write>(&self, f: &mut fmt::Formatter<W>) -> fmt::Result {
        f.write_str("the drum failed")
    }
}

impl Error for DrumFault {}

impl From<Failed> for DrumFault {
    fn from(_: Failed) -> DrumFault {
        DrumFault
    }
}

/// Copies of users' blocks of 256 words, each in a record of the drum.
///
/// The numbers of a user's blocks lie below its quota; a user for whom the slots were made with no
/// quota has no block. Where the drum tells its records, a block comes back as it was put.
#[derive(Drop)]
pub struct SlotTable<'a, D: Medium> {
    drum: &'a mut D,
    slots: Slots,
}

impl<'a, D: Medium> SlotTable<'a, D> {
    /// A table over the first `records` records of a drum, for users 1, 2, 3
    /// and on with these quotas, in blocks. No block is kept, and no call of the drum is made.
    ///
    /// After an error the clauses say nothing of the drum. Where that matters, make `Slots` first
    /// and then the table with `over`.
    pub fn new(
        alloc: Global,
        drum: &'a mut D,
        records: u16,
        quotas: &[u8],
    ) -> Result<SlotTable<'a, D>, NoMemory>
        requires fits { sum quotas.now ≤ records }
        requires serves { ServesSlots (D.contents drum.old) (D.record_count drum.old)
            (D.words_each drum.old) records }
        ensures same { IfOk result (λ t. t.drum.ghost_name ≡ drum.entry.ghost_name) }
        ensures now { IfOk result (λ t. t.drum.now ≡ drum.old) }
        ensures slots { IfOk result (λ t. slots_of t.slots ≡ replicate (sum quotas.now) None) }
        ensures none { IfOk result (λ t. (k : ℕ) → slot_of (slots_of t.slots) k ≡ None) }
        ensures free { IfOk result (λ t. free_of t.slots ≡ replicate records true) }
        ensures quotas { IfOk result (λ t. t.slots.quotas.items ≡ 0 ∷ quotas.now) }
    {
        let slots = Slots::new(alloc, records, quotas)?;
        Ok(SlotTable::over(drum, slots))
    }

    /// A table over slots that were made before.
    pub fn over(drum: &'a mut D, slots: Slots) -> SlotTable<'a, D>
        ensures same { result.drum.ghost_name ≡ drum.entry.ghost_name }
        ensures now { result.drum.now ≡ drum.old }
        ensures slots { result.slots ≡ slots }
    {
        SlotTable { drum, slots }
    }

    /// Ends the table and gives the drum back.
    pub fn back(self) -> &'a mut D
        ensures same { result.ghost_name ≡ self.entry.drum.ghost_name }
        ensures now { result.now ≡ self.entry.drum.now }
    {
        let SlotTable { drum, slots } = self;
        drop(slots);
        drum
    }

    /// Whether a user's block is kept.
    pub fn has(&self, user: UserNo, block: u8) -> bool
        requires { block < quota_in self.now.slots user }
        ensures { IsTrue result ↔ IsSome (record_of self.now.slots user block) }
    {
        let place = self.slots.key(user, block);
        self.slots.slot(place).is_some()
    }

    /// Writes a copy of a user's block into the least free record, and keeps it. After a fault
    /// nothing is kept.
    pub fn put_block(&mut self, user: UserNo, block: u8, from: &[u64]) -> Result<(), DrumFault>
        requires inside { block < quota_in self.old.slots user }
        requires empty { record_of self.old.slots user block ≡ None }
        requires whole { length from.now ≡ 256 }
        requires words { AreWords from.now }
        requires serves { IsServed D.Medium self.old }
        ensures { PutsBlock D.Medium user block from.now result self.old self.new }
    {
        let place = self.slots.key(user, block);
        let at = self.slots.first_free();
        self.drum.write(at, from)?;
        self.slots.keep(place, at);
        Ok(())
    }

    /// Reads the copy of a user's block, and keeps it no more. After a fault it is kept as before,
    /// but its words are unknown.
    pub fn get_block(&mut self, user: UserNo, block: u8, into: &mut [u64]) -> Result<(), DrumFault>
        requires inside { block < quota_in self.old.slots user }
        requires kept { IsSome (record_of self.old.slots user block) }
        requires whole { length into.old ≡ 256 }
        requires words { AreWords into.old }
        requires serves { IsServed D.Medium self.old }
        ensures words { AreWords into.new }
        ensures gets { GetsBlock D.Medium user block into.new result self.old self.new }
    {
        let place = self.slots.key(user, block);
        let Some(at) = self.slots.slot(place) else {
            unreachable!()
        };
        self.drum.read(at, into)?;
        self.slots.release(place, at);
        Ok(())
    }

    /// Keeps a user's blocks from this one on no more. No call of the drum is made.
    pub fn free_from(&mut self, user: UserNo, block: u8)
        requires { user < length self.old.slots.quotas.items }
        ensures same { self.new.drum.ghost_name ≡ self.old.drum.ghost_name }
        ensures now { self.new.drum.now ≡ self.old.drum.now }
        ensures gone { (b : ℕ) → block ≤ b → b < quota_in self.old.slots user
            → slot_of (slots_of self.new.slots) (place_of self.old.slots user b) ≡ None }
        ensures others { (k : ℕ)
            → ((b : ℕ) → block ≤ b → b < quota_in self.old.slots user
            → k ≢ place_of self.old.slots user b)
            → slot_of (slots_of self.new.slots) k ≡ slot_of (slots_of self.old.slots) k }
        ensures records { records_of self.new.slots ≡ records_of self.old.slots }
        ensures quotas { self.new.slots.quotas ≡ self.old.slots.quotas }
    {
        self.slots.free_from(user, block);
    }
}
