//! Who owns which place of core, where each user's blocks lie, and what a load of them moves.
#![tactic(auto)]

mod owners;

pub use owners::{Owners, Plan};
