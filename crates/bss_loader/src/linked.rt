ghost use Rattle.std.specs.Prelude.{◌≡◌, ◌≤◌, ◌<◌, ◌^◌, length, map, OnOk, IfOk, MatchOption};
ghost use Rattle.fap_model.specs.Decks.{blocks_for};
ghost use Rattle.link_model.specs.Modules.{pair_word};
ghost use Rattle.link_model.specs.Links.{places_of_all, raised, raised_by, linked_word, linked_from, linked_deck, start_of_all, link_of};
ghost use Rattle.bss_loader.specs.Answers.{IsLinked};
ghost use Rattle.bss_loader.specs.Runs.{words_in};

use crate::entries::Entries;
use crate::fault::LinkFault;
use crate::segments::Segments;
use ctss_types::{NoMemory, WordList};
use link_model::{Module, ModulePlace};
use std::alloc::Global;
use word36::Word;

/// The number of places that there are.
const MAX_PLACES: usize = 32768;

/// How many places modules have together, where there are so many.
fn places_of_all(modules: &[Module]) -> Option<usize>
    ensures { MatchOption result (32768 < places_of_all modules.now)
        (λ n. (n ≡ places_of_all modules.now) × (n ≤ 32768)) }
{
    let mut places = 0;
    for module in modules {
        if module.places.len() > MAX_PLACES - places {
            return None;
        }
        places += module.places.len();
    }
    Some(places)
}

/// A word whose address is raised.
fn raised(word: Word, by: u32) -> Word
    requires { by < 2 ^ 16 }
    ensures { result ≡ raised word by }
{
    word.with_address(((u32::from(word.address()) + by) % 32768) as u16)
}

/// How far the address of a kind is raised.
fn raised_by(base: u32, entries: &Entries, externs: &[Word], kind: u16) -> u32
    requires { base ≤ 32768 }
    ensures value { result ≡ raised_by base entries.now externs.now kind }
    ensures within { result < 2 ^ 16 }
{
    if kind == 0 {
        return 0;
    }
    if kind == 1 {
        return base;
    }
    let name = match externs.get(usize::from(kind) - 2) {
        Some(name) => *name,
        None => Word::default(),
    };
    u32::from(entries.place(name).unwrap_or(0))
}

/// The word of a place in the deck.
fn linked_word(base: u32, entries: &Entries, externs: &[Word], place: &ModulePlace) -> Word
    requires { base ≤ 32768 }
    ensures { result ≡ linked_word base entries.now externs.now place.now }
{
    raised(place.word, raised_by(base, entries, externs, place.kind))
}

/// Adds the words of a module from a place on.
fn add_module(
    segments: &mut Segments,
    alloc: Global,
    base: u32,
    entries: &Entries,
    externs: &[Word],
    places: &[ModulePlace],
) -> Result<(), NoMemory>
    requires base { base ≤ 32768 }
    requires few { length places.now < 2 ^ 33 }
    ensures { OnOk result (segments.new
        ≡ words_in segments.old base (map (linked_word base entries.now externs.now) places.now)) }
{
    let mut at = u64::from(base);
    for place in places {
        segments.add(alloc, at, linked_word(base, entries, externs, place))?;
        at += 1;
    }
    Ok(())
}

/// Adds the words of modules that lie one behind the other.
fn add_modules(
    segments: &mut Segments,
    alloc: Global,
    entries: &Entries,
    modules: &[Module],
) -> Result<(), NoMemory>
    requires { places_of_all modules.now ≤ 32768 }
    ensures { OnOk result (segments.new ≡ words_in segments.old 0 (linked_from 0 entries.now modules.now)) }
{
    let mut base = 0;
    for module in modules {
        let externs = module.externs.as_slice();
        let places = module.places.as_slice();
        add_module(segments, alloc, base, entries, externs, places)?;
        base += places.len() as u32;
    }
    Ok(())
}

/// The place at which the first of modules starts.
fn start_of_all(modules: &[Module]) -> u16
    ensures { result ≡ start_of_all modules.now }
{
    match modules {
        [first, ..] => first.start,
        [] => 0,
    }
}

/// A deck's first word, where it has so many places.
fn head(start: u16, places: usize) -> Word
    requires { places ≤ 32768 }
    ensures { result ≡ pair_word start (blocks_for places) }
{
    let blocks = ((places as u64 + 255) / 256).max(1);
    match Word::from_bits((u64::from(start) << 18) + blocks) {
        Ok(word) => word,
        Err(_) => unreachable!(),
    }
}

/// The deck of modules whose externs are entered.
#[tactic(auto, using(crate::proofs::Runs::words_are))]
fn linked_deck(
    alloc: Global,
    places: usize,
    entries: &Entries,
    modules: &[Module],
) -> Result<WordList, NoMemory>
    requires all { places ≡ places_of_all modules.now }
    requires few { places ≤ 32768 }
    ensures { IfOk result (λ words. words ≡ linked_deck entries.now modules.now) }
{
    let mut segments = Segments::new(alloc, head(start_of_all(modules), places))?;
    add_modules(&mut segments, alloc, entries, modules)?;
    segments.close()
}

/// The deck that modules make together: each lies behind the one before, and the first says where it starts.
#[tactic(auto, unfolding(link_model::specs::Links::link_of))]
pub fn link(alloc: Global, modules: &[Module]) -> Result<WordList, LinkFault>
    ensures { IsLinked result (link_of modules.now) }
{
    let Some(places) = places_of_all(modules) else {
        return Err(LinkFault::TooLarge);
    };
    let mut entries = Entries::new(alloc);
    if let Some(name) = entries.enter_all(modules)? {
        return Err(LinkFault::Doubly(name));
    }
    if let Some(name) = entries.missing(modules) {
        return Err(LinkFault::Undefined(name));
    }
    let words = linked_deck(alloc, places, &entries, modules)?;
    Ok(words)
}
