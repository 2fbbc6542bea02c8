//! The parts of a line.
ghost use Rattle.std.specs.Prelude.{◌≡◌, ◌≤◌, ◌+◌, ◌++◌, length, true};
ghost use Rattle.std.specs.List.{list_all};
ghost use Rattle.bcd48.specs.Characters.{is_character};
ghost use Rattle.file_model.specs.Texts.{right};

use arrayvec::ArrayVec;

/// Adds a part of a line.
#[tactic(auto, using(ctss_types::proofs::Trim::all_of_both))]
pub fn put(text: &mut ArrayVec<u8, 84>, part: &[u8])
    requires room { length text.old.items + length part.now ≤ 84 }
    requires before { list_all is_character text.old.items ≡ true }
    requires part { list_all is_character part.now ≡ true }
    ensures text { text.new.items ≡ text.old.items ++ part.now }
    ensures length { length text.new.items ≡ length text.old.items + length part.now }
    ensures characters { list_all is_character text.new.items ≡ true }
{
    let _ = text.try_extend_from_slice(part);
}

/// Adds a number right in 7 places.
#[tactic(auto, using(crate::proofs::Blanks::blanks_are))]
pub fn put_right(text: &mut ArrayVec<u8, 84>, number: &[u8])
    requires room { length text.old.items + 7 + length number.now ≤ 84 }
    requires before { list_all is_character text.old.items ≡ true }
    requires number { list_all is_character number.now ≡ true }
    ensures text { text.new.items ≡ text.old.items ++ right number.now }
    ensures characters { list_all is_character text.new.items ≡ true }
{
    let blanks = [b' '; 7];
    put(text, blanks.split_at(number.len().min(7)).1);
    put(text, number);
}
