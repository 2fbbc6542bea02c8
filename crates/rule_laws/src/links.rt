//! Laws of modules: LOADGO reads from a linked deck the first module's start, and fills the modules' cards, each at its place;
//! and what cards make is a module that the words of its file can say.
//!
//! `Linked` and `Fitting` in `specs/` have the laws. The functions here do nothing: each carries one.
ghost use Rattle.rule_laws.specs.Linked.{DeckIsLinked};
ghost use Rattle.rule_laws.specs.Fitting.{ModulesFit};

/// Modules made of cards, linked and loaded, leave each card's words at its place, and zeros elsewhere.
pub fn deck_is_linked()
    ensures { DeckIsLinked }
{}

/// A module that cards make is one that the words of its file can say.
#[tactic(auto, using(crate::proofs::Fits::made_fits))]
pub fn modules_fit()
    ensures { ModulesFit }
{}
