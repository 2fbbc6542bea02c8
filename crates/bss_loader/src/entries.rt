ghost use Rattle.std.specs.Prelude.{◌≡◌, ◌+◌, ◌%◌, ◌^◌, ◌≤◌, ◌++◌, ◌∷◌, [], None, OnOk, IfOk};
ghost use Rattle.fap_model.specs.Places.{value_in};
ghost use Rattle.link_model.specs.Links.{entered, entered_from, externs_of_all, repeated_in, missing_in, places_of_all};

use ctss_types::NoMemory;
use indexmap::IndexMap;
use link_model::{Module, ModuleEntry};
use std::alloc::Global;
use std::marker::Model;
use word36::Word;

/// Addresses are numbers modulo this.
const MODULUS: u32 = 32768;

/// What modules enter: names with their places, in order.
#[derive(Drop)]
pub(crate) struct Entries {
    places: IndexMap<Word, u16>,
}

impl Model for Entries {
    ghost use Rattle.std.specs.Prelude.{ℕ, List};

    ghost Value = { List (ℕ × ℕ) };

    ghost view = { λ e. e.places.entries };
}

/// A place behind another, modulo 2^15.
fn place_behind(base: u32, place: u16) -> u16
    requires { base ≤ 32768 }
    ensures { result ≡ (base + place) % 2 ^ 15 }
{
    ((base + u32::from(place)) % MODULUS) as u16
}

impl Entries {
    /// No name.
    pub(crate) fn new(alloc: Global) -> Entries
        ensures { result ≡ [] }
    {
        Entries {
            places: IndexMap::new(alloc),
        }
    }

    /// The place of a name.
    pub(crate) fn place(&self, name: Word) -> Option<u16>
        ensures { result ≡ value_in self.now name }
    {
        self.places.get(&name).copied()
    }

    /// A name more.
    #[tactic(auto, using(crate::proofs::Names::added))]
    fn add(&mut self, name: Word, place: u16) -> Result<(), NoMemory>
        requires { value_in self.old name ≡ None }
        ensures { OnOk result (self.new ≡ self.old ++ (name, place) ∷ []) }
    {
        self.places.insert(name, place)?;
        Ok(())
    }

    /// Enters a module's entries, or gives the first name that is one of earlier ones.
    fn enter(&mut self, base: u32, entries: &[ModuleEntry]) -> Result<Option<Word>, NoMemory>
        requires { base ≤ 32768 }
        ensures first { IfOk result (λ first. first ≡ repeated_in self.old (entered base entries.now)) }
        ensures all { IfOk result (λ first. first ≡ None → self.new ≡ self.old ++ entered base entries.now) }
    {
        for entry in entries {
            if self.place(entry.name).is_some() {
                return Ok(Some(entry.name));
            }
            self.add(entry.name, place_behind(base, entry.place))?;
        }
        Ok(None)
    }

    /// Enters the entries of modules that lie one behind the other, or gives the first name that is one of earlier ones.
    pub(crate) fn enter_all(&mut self, modules: &[Module]) -> Result<Option<Word>, NoMemory>
        requires { places_of_all modules.now ≤ 32768 }
        ensures first { IfOk result (λ first. first ≡ repeated_in self.old (entered_from 0 modules.now)) }
        ensures all { IfOk result (λ first. first ≡ None → self.new ≡ self.old ++ entered_from 0 modules.now) }
    {
        let mut base = 0;
        for module in modules {
            if let Some(name) = self.enter(base, module.entries.as_slice())? {
                return Ok(Some(name));
            }
            base += module.places.len() as u32;
        }
        Ok(None)
    }

    /// The first of these names that isn't entered.
    fn missing_of(&self, names: &[Word]) -> Option<Word>
        ensures { result ≡ missing_in self.now names.now }
    {
        for name in names {
            if self.place(*name).is_none() {
                return Some(*name);
            }
        }
        None
    }

    /// The first extern that no module enters.
    pub(crate) fn missing(&self, modules: &[Module]) -> Option<Word>
        ensures { result ≡ missing_in self.now (externs_of_all modules.now) }
    {
        for module in modules {
            let missing = self.missing_of(module.externs.as_slice());
            if missing.is_some() {
                return missing;
            }
        }
        None
    }
}
