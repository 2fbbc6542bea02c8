ghost use Rattle.std.specs.Prelude.{◌≡◌, [], take};
ghost use Rattle.fap_model.specs.Places.{value_in};
ghost use Rattle.link_model.specs.Weights.{is_among};
ghost use Rattle.fap_assemble.specs.Rosters.{number_in};
ghost use Rattle.fap_assemble.specs.Names.{externs_in, names_in};

use crate::roster::Roster;
use crate::symbols::Symbols;
use word36::Word;

/// The symbols that a field may use: a module's externs, which have the value 0, and the first `visible` of a table.
#[derive(Clone, Copy)]
pub(crate) struct Names<'a> {
    pub(crate) externs: Option<&'a Roster>,
    pub(crate) symbols: &'a Symbols,
    pub(crate) visible: usize,
}

impl Names<'_> {
    /// Whether a name is an extern's.
    fn is_extern(self, name: Word) -> bool
        ensures { result ≡ is_among (externs_in self.entry) name }
    {
        match self.externs {
            Some(externs) => externs.has(name),
            None => false,
        }
    }

    /// The number of an extern.
    pub(crate) fn extern_number(self, name: Word) -> Option<u32>
        ensures { result ≡ number_in (externs_in self.entry) name }
    {
        match self.externs {
            Some(externs) => externs.number(name),
            None => None,
        }
    }

    /// The value of a symbol.
    #[tactic(auto, using(crate::proofs::Rosters::extern_value))]
    pub(crate) fn value(self, name: Word) -> Option<u16>
        ensures { result ≡ value_in (names_in self.entry) name }
    {
        if self.is_extern(name) {
            Some(0)
        } else {
            self.symbols.value(self.visible, name)
        }
    }
}
