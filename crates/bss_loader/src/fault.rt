use ctss_types::NoMemory;
use thiserror::Error;
use word36::Word;

/// Why words are no module.
#[derive(Clone, Copy, Debug, PartialEq, Eq, Error)]
pub enum ModuleFault {
    #[error("no module")]
    BadModule,
    #[error("out of memory")]
    NoMemory,
}

impl From<NoMemory> for ModuleFault {
    ghost use Rattle.std.specs.Prelude.{◌≡◌};
    ghost use Rattle.bss_loader.specs.declared.fault.ModuleFault.TheVariants as fault;

    ghost from_gives = { λ _ e. e ≡ fault.NoMemory };

    fn from(_: NoMemory) -> ModuleFault {
        ModuleFault::NoMemory
    }
}

/// Why modules make no deck.
#[derive(Clone, Copy, Debug, PartialEq, Eq, Error)]
pub enum LinkFault {
    #[error("more places than there are")]
    TooLarge,
    /// The first name that an earlier entry has.
    #[error("a name is entered twice")]
    Doubly(Word),
    /// The first extern that no module enters.
    #[error("a name is not entered")]
    Undefined(Word),
    #[error("out of memory")]
    NoMemory,
}

impl From<NoMemory> for LinkFault {
    ghost use Rattle.std.specs.Prelude.{◌≡◌};
    ghost use Rattle.bss_loader.specs.declared.fault.LinkFault.TheVariants as fault;

    ghost from_gives = { λ _ e. e ≡ fault.NoMemory };

    fn from(_: NoMemory) -> LinkFault {
        LinkFault::NoMemory
    }
}
