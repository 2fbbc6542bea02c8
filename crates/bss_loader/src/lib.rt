//! The loader: modules from the words of their files and back, and the deck of modules that are laid one behind the other.
#![tactic(auto)]

mod entries;
mod fault;
mod linked;
mod read;
mod segments;
mod write;

pub use fault::{LinkFault, ModuleFault};
pub use link_model::{EntryList, Module, ModuleEntry, ModulePlace, NameList, PlaceList};
pub use linked::link;
pub use read::read_module;
pub use segments::Segments;
pub use write::module_words;
