ghost use Rattle.std.specs.Prelude.{◌≡◌, [], length, map, take, OnOk, IfOk};
ghost use Rattle.fap_model.specs.Listed.{symbol_value};
ghost use Rattle.fap_model.specs.Places.{value_in};
ghost use Rattle.fap_assemble.specs.Tables.{defined};

use ctss_types::{NoMemory, Sequence};
use fap_model::SymbolValue;
use indexmap::IndexMap;
use std::alloc::Global;
use std::marker::Model;
use word36::Word;

/// The symbols with their values, in order of definition.
#[derive(Drop)]
pub(crate) struct Symbols {
    values: IndexMap<Word, u16>,
}

impl Model for Symbols {
    ghost use Rattle.std.specs.Prelude.{ℕ, List};

    ghost Value = { List (ℕ × ℕ) };

    ghost view = { λ s. s.values.entries };
}

impl Symbols {
    /// No symbol.
    pub(crate) fn new(alloc: Global) -> Symbols
        ensures { result ≡ [] }
    {
        Symbols {
            values: IndexMap::new(alloc),
        }
    }

    /// How many symbols there are.
    pub(crate) fn len(&self) -> usize
        ensures { result ≡ length self.now }
    {
        self.values.len()
    }

    /// The value of a symbol, if it is one of the first `visible`.
    #[tactic(auto, using(crate::proofs::Lookup::found_value, crate::proofs::Lookup::late_value, crate::proofs::Lookup::no_value))]
    pub(crate) fn value(&self, visible: usize, name: Word) -> Option<u16>
        ensures { result ≡ value_in (take visible self.now) name }
    {
        let (index, _, value) = self.values.get_full(&name)?;
        if index < visible { Some(*value) } else { None }
    }

    /// A symbol's first definition; a later one changes nothing.
    #[tactic(auto, using(crate::proofs::Lookup::defined_new, crate::proofs::Lookup::defined_old))]
    pub(crate) fn define(&mut self, name: Word, value: u16) -> Result<(), NoMemory>
        ensures { OnOk result (self.new ≡ defined self.old name value) }
    {
        if self.values.get(&name).is_none() {
            self.values.insert(name, value)?;
        }
        Ok(())
    }

    /// The symbols in a list.
    pub(crate) fn to_list(&self, alloc: Global) -> Result<Sequence<SymbolValue>, NoMemory>
        ensures { IfOk result (λ list. list ≡ map symbol_value self.now) }
    {
        let mut list = Sequence::new(alloc);
        for (name, value) in self.values.iter() {
            list.push(SymbolValue {
                name: *name,
                value: *value,
            })?;
        }
        Ok(list)
    }
}
