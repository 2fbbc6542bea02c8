ghost use Rattle.std.specs.Prelude.{◌≡◌, ◌+◌, ◌-◌, ◌*◌, ◌<◌, ◌^◌, length, nat_le, nat_lt, true, IfOk};
ghost use Rattle.std.specs.List.{list_all};
ghost use Rattle.fap_model.specs.Decks.{blocks_for};
ghost use Rattle.link_model.specs.Modules.{entries_in, places_in, module_in, has_length, is_bounded, module_of_words};
ghost use Rattle.bss_loader.specs.Answers.{IsRead};

use crate::fault::ModuleFault;
use ctss_types::{NoMemory, Sequence};
use link_model::{EntryList, Module, ModuleEntry, ModulePlace, NameList, PlaceList};
use std::alloc::Global;
use word36::Word;

/// The entries that pairs of words say.
fn entries_in(alloc: Global, words: &[Word]) -> Result<EntryList, NoMemory>
    ensures { IfOk result (λ entries. entries ≡ entries_in words.now) }
{
    let mut entries = Sequence::new(alloc);
    let mut rest = words;
    'pairs: while let [name, place, more @ ..] = rest {
        entries.push(ModuleEntry {
            name: *name,
            place: place.address(),
        })?;
        rest = more;
    }
    Ok(entries)
}

/// The places that pairs of words say.
fn places_in(alloc: Global, words: &[Word]) -> Result<PlaceList, NoMemory>
    ensures { IfOk result (λ places. places ≡ places_in words.now) }
{
    let mut places = Sequence::new(alloc);
    let mut rest = words;
    'pairs: while let [kind, word, more @ ..] = rest {
        places.push(ModulePlace {
            kind: kind.address(),
            word: *word,
        })?;
        rest = more;
    }
    Ok(places)
}

/// Words as names.
fn names_in(alloc: Global, words: &[Word]) -> Result<NameList, NoMemory>
    ensures { IfOk result (λ names. names ≡ words.now) }
{
    let names = words.to_vec(alloc)?;
    Ok(Sequence::from_vec(names))
}

/// Whether so many words stand behind two first words.
fn has_length(first: Word, second: Word, rest: &[Word]) -> bool
    ensures { result ≡ has_length first second rest.now }
{
    let entries = usize::from(second.decrement());
    let externs = usize::from(second.address());
    let places = usize::from(first.address());
    rest.len() == 2 * entries + externs + 2 * places
}

/// What stands behind two first words.
fn module_in(alloc: Global, first: Word, second: Word, rest: &[Word]) -> Result<Module, NoMemory>
    requires { has_length first second rest.now ≡ true }
    ensures { IfOk result (λ m. m ≡ module_in first second rest.now) }
{
    let (pairs, behind) = rest.split_at(2 * usize::from(second.decrement()));
    let (names, places) = behind.split_at(usize::from(second.address()));
    Ok(Module {
        start: first.decrement(),
        entries: entries_in(alloc, pairs)?,
        externs: names_in(alloc, names)?,
        places: places_in(alloc, places)?,
    })
}

/// Whether no entry lies behind the module's end.
fn entries_fit(entries: &[ModuleEntry], places: usize) -> bool
    ensures { result ≡ list_all (λ e. nat_le e.place places) entries.now }
{
    entries
        .iter()
        .all(|entry| usize::from(entry.place) <= places)
}

/// Whether each place has a kind that there is.
fn kinds_fit(places: &[ModulePlace], externs: usize) -> bool
    ensures { result ≡ list_all (λ p. nat_lt p.kind (2 + externs)) places.now }
{
    let kinds = externs.saturating_add(2);
    places.iter().all(|place| usize::from(place.kind) < kinds)
}

/// Whether a start lies within the blocks that so many places need.
fn start_fits(start: u16, places: usize) -> bool
    ensures { result ≡ nat_lt start (256 * blocks_for places) }
{
    usize::from(start) / 256 < (places.saturating_add(255) / 256).max(1)
}

/// Whether entries, kinds and start of a module keep their bounds.
fn is_bounded(relocatable: &Module) -> bool
    ensures { result ≡ is_bounded relocatable.now }
{
    let places = relocatable.places.len();
    entries_fit(relocatable.entries.as_slice(), places)
        && kinds_fit(relocatable.places.as_slice(), relocatable.externs.len())
        && start_fits(relocatable.start, places)
}

/// The module that the words of a file say, if they say one.
pub fn read_module(alloc: Global, words: &[Word]) -> Result<Module, ModuleFault>
    ensures { IsRead result (module_of_words words.now) }
{
    let [first, second, rest @ ..] = words else {
        return Err(ModuleFault::BadModule);
    };
    if !has_length(*first, *second, rest) {
        return Err(ModuleFault::BadModule);
    }
    let module = module_in(alloc, *first, *second, rest)?;
    if is_bounded(&module) {
        Ok(module)
    } else {
        Err(ModuleFault::BadModule)
    }
}
