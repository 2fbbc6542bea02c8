//! Cards with their listing, as a module's or a deck's.
ghost use Rattle.std.specs.Prelude.{◌≡◌, ◌-◌, ◌^◌, ◌<◌, IfOk, length};
ghost use Rattle.fap_assemble.specs.Steps.{texts};
ghost use Rattle.fap_listing.specs.Cards.{made_faults, made_of, made_text};
ghost use Rattle.text_writer.specs.Writing.{Adds};

use crate::listing;
use crate::listing::add_listing;
use crate::module::{add_module, module_fault_count};
use ctss_io::Sink;
use ctss_types::NoMemory;
use fap_assemble::{is_module, list, list_module};
use fap_model::Listed;
use fap_read::{Card, Cards};
use link_model::ListedModule;
use std::alloc::Global;
use text_writer::{Text, TextWriter};

/// What cards come to.
#[derive(Drop)]
pub enum Made {
    /// Those of a program that is assembled to a deck.
    Deck(Listed),
    /// Those of a module.
    Module(ListedModule),
}

/// Cards and what they come to.
#[derive(Drop)]
pub struct ListedCards {
    pub cards: Cards,
    pub made: Made,
}

/// How many faults cards have that come to this, a missing END with them.
pub fn fault_count(made: &Made) -> usize
    ensures { result ≡ made_faults made.now }
{
    match made {
        Made::Deck(listed) => listing::fault_count(listed),
        Made::Module(listed) => module_fault_count(listed),
    }
}

/// What cards come to: as a module's where their first that is no comment is a REL, and else as a deck's.
fn made_of(alloc: Global, cards: &[Card]) -> Result<Made, NoMemory>
    requires { length cards.now < 2 ^ 32 - 1 }
    ensures { IfOk result (λ made. made ≡ made_of (texts cards.now)) }
{
    if is_module(cards) {
        let listed = list_module(alloc, cards)?;
        Ok(Made::Module(listed))
    } else {
        let listed = list(alloc, cards)?;
        Ok(Made::Deck(listed))
    }
}

/// What cards come to.
pub fn list_cards(alloc: Global, cards: Cards) -> Result<ListedCards, NoMemory>
    requires { length cards < 2 ^ 32 - 1 }
    ensures cards { IfOk result (λ l. l.cards ≡ cards) }
    ensures made { IfOk result (λ l. l.made ≡ made_of (texts cards)) }
{
    let made = made_of(alloc, cards.as_slice())?;
    Ok(ListedCards { cards, made })
}

/// Adds the listing of cards that come to this.
fn add_made<K: Sink>(out: &mut TextWriter<'_, K>, made: &Made, cards: &[Card])
    ensures { Adds K.Sink (made_text made.now (texts cards.now)) out.old out.new }
{
    match made {
        Made::Deck(listed) => add_listing(out, listed, cards),
        Made::Module(listed) => add_module(out, listed, cards),
    }
}

impl Text for ListedCards {
    ghost use Rattle.fap_assemble.specs.Steps.{texts};
    ghost use Rattle.fap_listing.specs.Cards.{made_text};

    ghost bytes = { λ l. made_text l.made (texts l.cards) };

    fn add_to<K: Sink>(&self, out: &mut TextWriter<'_, K>) {
        add_made(out, &self.made, self.cards.as_slice());
    }
}
