ghost use Rattle.std.specs.Prelude.{◌≡◌, ◌++◌, ◌∷◌, ◌^◌, ◌<◌, [], length, IfOk, is_some};
ghost use Rattle.link_model.specs.Weights.{is_among};
ghost use Rattle.fap_assemble.specs.Rosters.{number_in};
ghost use Rattle.fap_assemble.specs.Tables.{defined};

use ctss_types::{NoMemory, Sequence, WordList};
use indexmap::IndexMap;
use std::alloc::Global;
use std::marker::Model;
use word36::Word;

/// Names in order, repeats and all, and of each one the number of its first, counted from 0.
#[derive(Drop)]
pub(crate) struct Roster {
    names: WordList,
    numbers: IndexMap<Word, u32>,
}

impl Model for Roster {
    ghost use Rattle.std.specs.Prelude.{◌≡◌, ℕ, List};
    ghost use Rattle.fap_assemble.specs.Rosters.{numbers_of};

    ghost Value = { List ℕ };

    ghost view = { λ r. r.names };

    ghost invariant = { λ r. r.numbers.entries ≡ numbers_of r.names };
}

/// Takes a name's number, unless the name has one.
#[tactic(auto, using(crate::proofs::Lookup::defined_new, crate::proofs::Lookup::defined_old))]
fn numbered(
    mut numbers: IndexMap<Word, u32>,
    name: Word,
    number: u32,
) -> Result<IndexMap<Word, u32>, NoMemory>
    ensures { IfOk result (λ n. n.entries ≡ defined numbers.entries name number) }
{
    if numbers.get(&name).is_none() {
        numbers.insert(name, number)?;
    }
    Ok(numbers)
}

impl Roster {
    /// No name.
    pub(crate) fn new(alloc: Global) -> Roster
        ensures { result ≡ [] }
    {
        Roster {
            names: WordList::new(alloc),
            numbers: IndexMap::new(alloc),
        }
    }

    /// A name more. Where memory lacks, all are given up.
    #[tactic(auto, using(crate::proofs::Rosters::numbers_grown))]
    pub(crate) fn with(self, name: Word) -> Result<Roster, NoMemory>
        requires { length self < 2 ^ 32 }
        ensures { IfOk result (λ r. r ≡ self ++ name ∷ []) }
    {
        let Roster { mut names, numbers } = self;
        let number = names.len() as u32;
        let numbers = numbered(numbers, name, number)?;
        names.push(name)?;
        Ok(Roster { names, numbers })
    }

    /// The number of a name.
    #[tactic(auto, using(crate::proofs::Rosters::number_some, crate::proofs::Rosters::number_none))]
    pub(crate) fn number(&self, name: Word) -> Option<u32>
        ensures { result ≡ number_in self.now name }
    {
        Some(*self.numbers.get(&name)?)
    }

    /// Whether a name is among these.
    #[tactic(auto, using(crate::proofs::Rosters::among_is))]
    pub(crate) fn has(&self, name: Word) -> bool
        ensures { result ≡ is_among self.now name }
    {
        self.number(name).is_some()
    }

    /// The names in order.
    pub(crate) fn as_slice(&self) -> &[Word]
        ensures { result.now ≡ self.now }
    {
        self.names.as_slice()
    }

    /// The names in a list.
    pub(crate) fn to_list(&self, alloc: Global) -> Result<WordList, NoMemory>
        ensures { IfOk result (λ list. list ≡ self.now) }
    {
        let names = self.names.as_slice().to_vec(alloc)?;
        Ok(Sequence::from_vec(names))
    }

    /// The names alone.
    pub(crate) fn into_names(self) -> WordList
        ensures { result ≡ self }
    {
        let Roster { names, .. } = self;
        names
    }
}
