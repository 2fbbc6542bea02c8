//! The cores at the start of a run.
ghost use Rattle.std.specs.Prelude.{◌≡◌, length, is_some, replicate};
ghost use Rattle.core_bank.specs.Bank.{AreWords};
ghost use Rattle.drum_slots.specs.Kept.{ServesSlots};
ghost use Rattle.drum_slots.specs.Table.{records_of};
ghost use Rattle.image_map.specs.Image.{state, drum_seen, drum_of};
ghost use Rattle.user_cores.specs.Usable.{AreFree, HasNoBlocks};

use core_bank::Bank;
use drum_slots::Slots;
use image_map::Image;
use medium::Medium;

/// Cores of which no user has any block, over parts that were made before.
#[tactic(auto, using(crate::proofs::Beginnings::whole_at_first, crate::proofs::Beginnings::words_at_first, crate::proofs::Beginnings::places_at_first))]
pub fn first_cores<'a, D: Medium>(
    drum: &'a mut D,
    slots: Slots,
    bank: Bank,
    sizes: Vec<u8>,
) -> Image<'a, D>
    requires slots { AreFree slots }
    requires sizes { sizes.items ≡ replicate (length slots.quotas.items) 0 }
    requires words { AreWords bank }
    requires serves { ServesSlots (D.contents drum.old) (D.record_count drum.old) (D.words_each drum.old)
        (records_of slots) }
    ensures seen { (state result).drum ≡ drum_seen D.Medium drum.entry }
    ensures drum { drum_of result ≡ drum.old }
    ensures first { HasNoBlocks slots.quotas.items (is_some (D.contents drum.old)) (state result) }
{
    Image::over(drum, slots, bank, sizes)
}
