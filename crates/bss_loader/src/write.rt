ghost use Rattle.std.specs.Prelude.{◌≡◌, ◌+◌, ◌*◌, ◌^◌, ◌<◌, ◌++◌, true, Some, IfOk, OnOk, length};
ghost use Rattle.link_model.specs.Modules.{pair_word, entry_words, place_words, module_words, module_of_words, is_module};

use crate::segments::push_all;
use ctss_types::{NoMemory, Sequence, WordList};
use link_model::{Module, ModuleEntry, ModulePlace};
use std::alloc::Global;
use word36::Word;

/// A word with a number in its decrement and one in its address.
pub(crate) fn pair_word(decrement: usize, address: usize) -> Word
    requires decrement { decrement < 2 ^ 15 }
    requires address { address < 2 ^ 15 }
    ensures { result ≡ pair_word decrement address }
{
    match Word::from_bits(((decrement as u64) << 18) + address as u64) {
        Ok(word) => word,
        Err(_) => unreachable!(),
    }
}

/// A word with a number in its address.
fn address_word(address: u16) -> Word
    ensures { result ≡ address }
{
    match Word::from_bits(u64::from(address)) {
        Ok(word) => word,
        Err(_) => unreachable!(),
    }
}

/// Adds name and place of each entry.
fn push_entries(words: &mut WordList, entries: &[ModuleEntry]) -> Result<(), NoMemory>
    ensures { OnOk result (words.new ≡ words.old ++ entry_words entries.now) }
{
    for entry in entries {
        words.push(entry.name)?;
        words.push(address_word(entry.place))?;
    }
    Ok(())
}

/// Adds kind and word of each place.
fn push_places(words: &mut WordList, places: &[ModulePlace]) -> Result<(), NoMemory>
    ensures { OnOk result (words.new ≡ words.old ++ place_words places.now) }
{
    for place in places {
        words.push(address_word(place.kind))?;
        words.push(place.word)?;
    }
    Ok(())
}

/// The words of a module's file.
fn words_of(alloc: Global, relocatable: &Module) -> Result<WordList, NoMemory>
    requires { is_module relocatable.now ≡ true }
    ensures { IfOk result (λ words. words ≡ module_words relocatable.now) }
{
    let mut words = Sequence::new(alloc);
    words.push(pair_word(usize::from(relocatable.start), relocatable.places.len()))?;
    words.push(pair_word(relocatable.entries.len(), relocatable.externs.len()))?;
    push_entries(&mut words, relocatable.entries.as_slice())?;
    push_all(&mut words, relocatable.externs.as_slice())?;
    push_places(&mut words, relocatable.places.as_slice())?;
    Ok(words)
}

/// The words of a module's file, which say the module.
#[tactic(auto, using(crate::proofs::Words::said_again))]
pub fn module_words(alloc: Global, relocatable: &Module) -> Result<WordList, NoMemory>
    requires { is_module relocatable.now ≡ true }
    ensures value { IfOk result (λ words. words ≡ module_words relocatable.now) }
    ensures again { IfOk result (λ words. module_of_words words ≡ Some relocatable.now) }
{
    let words = words_of(alloc, relocatable)?;
    Ok(words)
}
