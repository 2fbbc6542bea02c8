//! A client of the top call: it knows the clauses of `run_ctss` and the public laws alone, and promises the product's sentences.
//!
//! The sentences are in `specs/Sentences`. No program runs this crate. It is here so that a clause of `run_ctss` that became
//! weaker, or went, is noticed: a sentence of this crate then can't be proved.
#![tactic(auto)]

mod assembling;
mod comparing;
mod machine;
mod replaying;
mod serving;

pub use assembling::assemble;
pub use comparing::{Two, compare, replay_twice, serve_and_replay};
pub use machine::Machine;
pub use replaying::{Answered, replay};
pub use serving::serve;
