//! A copy on its way from the drum into core.
ghost use Rattle.std.specs.Prelude.{◌<◌, IsSome};
ghost use Rattle.core_bank.specs.Bank.{block_at};
ghost use Rattle.drum_slots.specs.Moves.{IsServed, GetsBlock};
ghost use Rattle.drum_slots.specs.Table.{quota_in, record_of};
ghost use Rattle.image_map.specs.Transfer.{AreOfCore, FillsBlock};

use ctss_types::UserNo;
use drum_slots::{DrumFault, SlotTable};
use medium::Medium;

const BLOCK_WORDS: usize = 256;

/// Reads the copy of a user's block into a place among the words of core, and keeps it no more.
pub(crate) fn read_block<D: Medium>(
    table: &mut SlotTable<'_, D>,
    words: &mut [u64],
    user: UserNo,
    block: u8,
    place: u8,
) -> Result<(), DrumFault>
    requires inside { block < quota_in table.old.slots user }
    requires kept { IsSome (record_of table.old.slots user block) }
    requires core { AreOfCore words.old }
    requires place { place < 128 }
    requires serves { IsServed D.Medium table.old }
    ensures fills { FillsBlock place words.old words.new }
    ensures gets { GetsBlock D.Medium user block (block_at words.new place) result table.old table.new }
{
    let at = BLOCK_WORDS * place as usize;
    table.get_block(user, block, &mut words[at..at + BLOCK_WORDS])
}
