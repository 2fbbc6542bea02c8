//! Relocatable modules: the words of their files, the cards that make them, and what several make together.
//!
//! The definitions stand in `specs/`: `Modules` (a module and the words of its file), `Links` (the deck of modules laid one
//! behind the other), `Files` (modules in a user's files), `Weights` (how an expression moves with its module), `Moves` (what a module's cards come to), `ModuleCards`
//! (the module of a list of cards, or the faults of its cards), `Laid` (cards at the places where they come to lie), `Listed`
//! (what a listing shows of a module's cards), `Rows` (worked rows). The functions here do nothing: each carries a row.
#![tactic(auto)]

mod types;

ghost use Rattle.link_model.specs.Listed.{ModuleShowsFaults, ModuleShowsPlaces};
ghost use Rattle.link_model.specs.Rows.{RowOfModules, RowOfListedModule, RowOfLinks, RowOfModuleFaults, RowOfFiles};

pub use types::{
    EntryList, LinkRefusal, ListedModule, Module, ModuleEntry, ModulePlace, ModuleRow, NameList,
    PlaceList,
};

/// Two lists of cards as modules, and the words of their files.
#[tactic(auto, using(crate::proofs::RowsComputed::row_of_modules))]
pub fn row_of_modules()
    ensures { RowOfModules }
{}

/// What a listing shows of a module.
#[tactic(auto, using(crate::proofs::RowsComputed::row_of_listed_module))]
pub fn row_of_listed_module()
    ensures { RowOfListedModule }
{}

/// The deck of two modules, and why others make none.
#[tactic(auto, using(crate::proofs::RowsComputed::row_of_links))]
pub fn row_of_links()
    ensures { RowOfLinks }
{}

/// Cards of modules at fault.
#[tactic(auto, using(crate::proofs::RowsComputed::row_of_module_faults))]
pub fn row_of_module_faults()
    ensures { RowOfModuleFaults }
{}

/// Files of modules linked, and the first that is none.
#[tactic(auto, using(crate::proofs::RowsComputed::row_of_files))]
pub fn row_of_files()
    ensures { RowOfFiles }
{}

/// A listing's faults are those of the module's cards.
#[tactic(auto, using(crate::proofs::Listings::shows_faults))]
pub fn module_shows_faults()
    ensures { ModuleShowsFaults }
{}

/// A listing's words, and what is reserved, are the module's places.
#[tactic(auto, using(crate::proofs::Listings::shows_places))]
pub fn module_shows_places()
    ensures { ModuleShowsPlaces }
{}
