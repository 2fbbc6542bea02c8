//! FAP at a console: what the cards of a file make.
#![tactic(auto)]

mod assembly;
mod fault_line;

pub use assembly::{Assembly, assemble_file};
