ghost use Rattle.std.specs.Prelude.{◌≡◌, ◌+◌, ◌≤◌, [], Some, length, OnOk, IfOk};
ghost use Rattle.fap_model.specs.Decks.{with_literal, index_from};

use ctss_types::{NoMemory, Sequence, WordList};
use indexmap::IndexSet;
use std::alloc::Global;
use std::marker::Model;
use word36::Word;

/// The distinct literals, in order of first use.
#[derive(Drop)]
pub(crate) struct Literals {
    words: IndexSet<Word>,
}

impl Model for Literals {
    ghost use Rattle.std.specs.Prelude.{ℕ, List};

    ghost Value = { List ℕ };

    ghost view = { λ l. l.words.keys };
}

impl Literals {
    /// No literal.
    pub(crate) fn new(alloc: Global) -> Literals
        ensures { result ≡ [] }
    {
        Literals {
            words: IndexSet::new(alloc),
        }
    }

    /// How many literals there are.
    pub(crate) fn len(&self) -> usize
        ensures { result ≡ length self.now }
    {
        self.words.len()
    }

    /// A literal more, unless there is one of the same word.
    #[tactic(auto, using(crate::proofs::Lookup::literal_added))]
    pub(crate) fn add(&mut self, word: Word) -> Result<(), NoMemory>
        ensures value { OnOk result (self.new ≡ with_literal self.old (Some word)) }
        ensures few { OnOk result (length self.new ≤ length self.old + 1) }
    {
        self.words.insert(word)?;
        Ok(())
    }

    /// How many literals stand before a word.
    #[tactic(auto, using(crate::proofs::Lookup::index_found, crate::proofs::Lookup::index_missing))]
    pub(crate) fn index(&self, word: Word) -> usize
        ensures value { result ≡ index_from 0 self.now word }
        ensures within { result ≤ length self.now }
    {
        match self.words.get_index_of(&word) {
            Some(index) => index,
            None => self.words.len(),
        }
    }

    /// The literals in order.
    pub(crate) fn as_slice(&self) -> &[Word]
        ensures { result.now ≡ self.now }
    {
        self.words.as_slice()
    }

    /// The literals in a list.
    pub(crate) fn to_list(&self, alloc: Global) -> Result<WordList, NoMemory>
        ensures { IfOk result (λ list. list ≡ self.now) }
    {
        let words = self.words.as_slice().to_vec(alloc)?;
        Ok(Sequence::from_vec(words))
    }
}
