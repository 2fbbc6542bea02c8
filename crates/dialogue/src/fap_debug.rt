//! The debugger of a program that stopped: what its lines ask for, and its breakpoints. The definitions are `DebugLines` and `Stops`
//! of program_model.
mod lines;
mod stops;

pub use lines::parse;
pub use program_model::DebugLine;
pub use stops::{Debug, Marked};
