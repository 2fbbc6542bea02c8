use ctss_types::{NoMemory, Sequence};
use thiserror::Error;

/// The fault of a card. Cards are numbered from 1, and a missing END is a fault of the card behind the last one.
///
/// 1: no operation has the name. 2: the card isn't of its form. 3: a symbol has no value. 4: an earlier card has its symbol.
/// 5: its words pass the last place. 6: there is no END.
#[derive(Clone, Copy, Debug, PartialEq, Eq)]
pub struct CardFault {
    pub card: u32,
    pub number: u8,
}

/// Faults in the order of the cards, each card with its least one.
pub type FaultList = Sequence<CardFault>;

/// Why cards make no deck.
#[derive(Debug, Drop, Error)]
pub enum AsmFault {
    #[error("{} cards are at fault", .0.len())]
    Faults(FaultList),
    #[error("out of memory")]
    NoMemory,
}

impl From<NoMemory> for AsmFault {
    ghost use Rattle.std.specs.Prelude.{◌≡◌};
    ghost use Rattle.fap_assemble.specs.declared.fault.AsmFault.TheVariants as fault;

    ghost from_gives = { λ _ e. e ≡ fault.NoMemory };

    fn from(_: NoMemory) -> AsmFault {
        AsmFault::NoMemory
    }
}
