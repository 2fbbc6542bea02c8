ghost use Rattle.std.specs.Prelude.{◌≡◌};

use std::marker::Model;
use word36::Word;

/// The two names of a file, each a word of six characters padded with blanks on the right.
#[derive(Clone, Copy, Debug, PartialEq, Eq, Hash)]
pub struct FileName {
    pub first: Word,
    pub second: Word,
}

impl Model for FileName {
    ghost use Rattle.ctss_types.specs.Names.{NamePair};

    ghost Value = { NamePair };

    ghost view = { λ n. record { first = n.first; second = n.second } };

    ghost inverse = { λ n. record { first = n.first; second = n.second } };
}

impl FileName {
    /// The file of these names.
    pub fn new(first: Word, second: Word) -> FileName
        ensures { result ≡ record { first = first; second = second } }
    {
        FileName { first, second }
    }
}
