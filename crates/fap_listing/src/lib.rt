//! The listing of a program as a text: each of its FAP cards with its place, its words and its faults, and behind them
//! the literals, the symbols and the figures.
//!
//! The definitions stand in fap_model `Listed` and `Causes`, link_model `Listed`, and here in `specs/`: `Words` and `Faults`
//! (what is shown of a card), `Listing` (the whole text of a deck's cards), `ModuleListing` (that of a module's), `Cards` (that
//! of either).
#![tactic(auto)]

ghost use Rattle.fap_model.specs.Listings.{ColumnsLie, NamesDiffer};

mod card;
mod fault;
mod listed;
mod listing;
mod module;
mod module_card;
mod symbol;
pub mod word;

pub use listed::{ListedCards, Made, fault_count, list_cards};

/// A column at which a card is at fault is one of a card's.
#[tactic(auto, using(crate::proofs::Laws::columns_lie))]
pub fn columns_lie()
    ensures { ColumnsLie }
{}

/// No two symbols of a listing have one name.
#[tactic(auto, using(crate::proofs::Laws::names_differ))]
pub fn names_differ()
    ensures { NamesDiffer }
{}
