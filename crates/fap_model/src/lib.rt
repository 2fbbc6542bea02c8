//! The assembler's rules: the deck of a list of cards, or the faults of its cards.
//!
//! The definitions stand in `specs/`: `Cards` (columns), `Terms` (expressions, numbers, literals), `Statements` (what a card
//! says by itself), `Places` (places and symbols), `Decks` (faults, words, the deck), `Rows` (worked rows). The functions here
//! do nothing: each carries a row.
#![tactic(auto)]

mod types;

ghost use Rattle.fap_model.specs.Listings.{ShowsDeck, ShowsFaults};
ghost use Rattle.fap_model.specs.Rows.{RowOfGreeting, RowOfFaults, RowOfLiterals};

pub use types::{CardRow, FaultCause, Form, Listed, Mention, Operation, SymbolValue, Term};

/// Nine cards and their deck.
#[tactic(auto, using(crate::proofs::RowsComputed::row_of_greeting))]
pub fn row_of_greeting()
    ensures { RowOfGreeting }
{}

/// Cards at fault.
#[tactic(auto, using(crate::proofs::RowsComputed::row_of_faults))]
pub fn row_of_faults()
    ensures { RowOfFaults }
{}

/// Literals, symbols and places.
#[tactic(auto, using(crate::proofs::RowsComputed::row_of_literals))]
pub fn row_of_literals()
    ensures { RowOfLiterals }
{}

/// A listing's faults are those of its cards.
#[tactic(auto, using(crate::proofs::Listings::shows_faults))]
pub fn shows_faults()
    ensures { ShowsFaults }
{}

/// A listing's words are those of the deck.
#[tactic(auto, using(crate::proofs::Listings::shows_deck))]
pub fn shows_deck()
    ensures { ShowsDeck }
{}
