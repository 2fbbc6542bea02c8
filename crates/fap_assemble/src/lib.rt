//! The assembler: the deck of a list of cards, or the faults of its cards.
#![tactic(auto)]

mod assembler;
mod cause;
mod cells;
mod column;
mod expression;
mod fault;
mod field;
mod judge;
mod kind;
mod listing;
mod literals;
mod mention;
mod module_assembler;
mod module_cards;
mod module_judge;
mod module_listing;
mod moves;
mod names;
mod past;
mod place;
mod relocated;
mod roster;
mod symbols;
mod tables;
mod weigh;
mod whole;
mod words;

pub use assembler::{Deck, assemble};
pub use fault::{AsmFault, CardFault, FaultList};
pub use listing::list;
pub use module_assembler::assemble_module;
pub use module_cards::is_module;
pub use module_listing::list_module;
