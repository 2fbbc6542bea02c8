ghost use Rattle.std.specs.Prelude.{◌≡◌, ◌<◌, ◌^◌};
ghost use Rattle.medium.specs.Medium.{AreWords};
ghost use Rattle.drum_slots.specs.Kept.{ServesSlots};
ghost use Rattle.drum_slots.specs.Table.{records_of};

use crate::rows::holds;
use ctss_types::UserNo;
use drum_slots::{DrumFault, SlotTable, Slots};
use medium::{Medium, MemoryMedium};
use std::process::Abort;
use std::test::Fail;

// User 1 may have two blocks and user 2 one.
const QUOTAS: [u8; 2] = [2, 1];

// The same by user number, so that of number 0, which is nobody's, is 0.
const NUMBERED_QUOTAS: [u8; 3] = [0, 2, 1];

/// What is done with a block of a user.
#[derive(Clone, Copy)]
enum Action {
    /// Puts words that are all this one. The block is not kept before.
    Put(u8, Result<(), DrumFault>),
    /// Gets words that are all this one, if the drum doesn't fail. The block is kept before.
    Get(u8, Result<(), DrumFault>),
    /// Asks whether the block is kept.
    Has(bool),
    /// Frees the user's blocks from this one on.
    Free,
}

use Action::{Free, Get, Has, Put};

/// A user's number, the number of a block of it, and what is done with that.
type Step = (u8, u8, Action);

/// The words of a block that are all this one.
fn filled(word: u64) -> [u64; 256]
    requires { word < 2 ^ 36 }
    ensures { AreWords result }
{
    [word; 256]
}

/// Does a step, which is the one with this number, and compares how it ends.
fn does<D: Medium>(
    rt: &impl Abort,
    table: &mut SlotTable<'_, D>,
    quotas: &[u8],
    at: usize,
    step: Step,
)
    requires quotas { table.old.slots.quotas.items ≡ quotas.now }
    requires serves { ServesSlots (D.contents table.old.drum.now) (D.record_count table.old.drum.now)
        (D.words_each table.old.drum.now) (records_of table.old.slots) }
    ensures same { table.new.drum.ghost_name ≡ table.old.drum.ghost_name }
    ensures serves { ServesSlots (D.contents table.new.drum.now) (D.record_count table.new.drum.now)
        (D.words_each table.new.drum.now) (records_of table.new.slots) }
    ensures count { D.record_count table.new.drum.now ≡ D.record_count table.old.drum.now }
    ensures quotas { table.new.slots.quotas ≡ table.old.slots.quotas }
{
    let (number, block, action) = step;
    assert!(rt; 1 <= number && number <= 30 && (number as usize) < quotas.len());
    assert!(rt; block < quotas[number as usize]);
    let user = UserNo::of(number);
    let went = match action {
        Put(word, ended) => {
            !table.has(user, block)
                && table.put_block(user, block, &filled(u64::from(word))) == ended
        }
        Get(word, ended) => {
            let mut words = filled(0);
            table.has(user, block)
                && table.get_block(user, block, &mut words) == ended
                && (ended.is_err() || words == filled(u64::from(word)))
        }
        Has(kept) => table.has(user, block) == kept,
        Free => {
            table.free_from(user, block);
            true
        }
    };
    holds(rt, at, went);
}

/// Does these steps.
fn runs<D: Medium>(rt: &impl Abort, table: &mut SlotTable<'_, D>, quotas: &[u8], steps: &[Step])
    requires quotas { table.old.slots.quotas.items ≡ quotas.now }
    requires serves { ServesSlots (D.contents table.old.drum.now) (D.record_count table.old.drum.now)
        (D.words_each table.old.drum.now) (records_of table.old.slots) }
    ensures same { table.new.drum.ghost_name ≡ table.old.drum.ghost_name }
    ensures serves { ServesSlots (D.contents table.new.drum.now) (D.record_count table.new.drum.now)
        (D.words_each table.new.drum.now) (records_of table.new.slots) }
    ensures count { D.record_count table.new.drum.now ≡ D.record_count table.old.drum.now }
{
    'steps: for (at, step) in steps.iter().enumerate() {
        does(rt, table, quotas, at, *step);
    }
}

/// Compares the words of a record with ones that are all this one.
fn has_record<D: Medium>(rt: &impl Abort, drum: &mut D, at: u16, word: u64) {
    assert!(rt; at < drum.records() && drum.record_words() == 256);
    let mut words = filled(0);
    assert!(rt; drum.read(at, &mut words).is_ok());
    assert!(rt; words == [word; 256], "record {at}");
}

#[test]
fn gives_back_what_was_put(rt: HostRuntime) -> Result<(), Fail> {
    static STEPS: [Step; 8] = [
        (1, 1, Put(7, Ok(()))),
        (1, 0, Has(false)),
        (1, 1, Has(true)),
        (2, 0, Put(8, Ok(()))),
        (1, 1, Get(7, Ok(()))),
        (1, 1, Has(false)),
        (2, 0, Has(true)),
        // Record 0 is free again, so it takes the next block.
        (1, 0, Put(9, Ok(()))),
    ];
    let mut drum = MemoryMedium::new(rt.alloc(), 4, 256, &[], &[], 0)?;
    let mut table = SlotTable::new(rt.alloc(), &mut drum, 3, &QUOTAS)?;
    runs(&rt, &mut table, &NUMBERED_QUOTAS, &STEPS);
    let drum = table.back();
    has_record(&rt, drum, 0, 9);
    has_record(&rt, drum, 1, 8);
    Ok(())
}

#[test]
fn frees_the_blocks_from_one_on(rt: HostRuntime) -> Result<(), Fail> {
    static STEPS: [Step; 9] = [
        (1, 0, Put(1, Ok(()))),
        (1, 1, Put(2, Ok(()))),
        (2, 0, Put(3, Ok(()))),
        (1, 1, Free),
        (1, 0, Has(true)),
        (1, 1, Has(false)),
        (2, 0, Has(true)),
        (1, 0, Free),
        (1, 0, Has(false)),
    ];
    let mut drum = MemoryMedium::new(rt.alloc(), 3, 256, &[], &[], 0)?;
    let slots = Slots::new(rt.alloc(), 3, &QUOTAS)?;
    let mut table = SlotTable::over(&mut drum, slots);
    runs(&rt, &mut table, &NUMBERED_QUOTAS, &STEPS);
    Ok(())
}

#[test]
fn keeps_the_same_blocks_after_a_fault(rt: HostRuntime) -> Result<(), Fail> {
    static STEPS: [Step; 7] = [
        (1, 0, Put(1, Err(DrumFault))),
        (1, 0, Has(false)),
        (1, 0, Put(1, Ok(()))),
        (1, 0, Get(1, Err(DrumFault))),
        (1, 0, Has(true)),
        (1, 0, Get(1, Ok(()))),
        (1, 0, Has(false)),
    ];
    let mut drum = MemoryMedium::new(rt.alloc(), 3, 256, &[1, 3], &[], 0)?;
    let mut table = SlotTable::new(rt.alloc(), &mut drum, 3, &QUOTAS)?;
    runs(&rt, &mut table, &NUMBERED_QUOTAS, &STEPS);
    Ok(())
}
