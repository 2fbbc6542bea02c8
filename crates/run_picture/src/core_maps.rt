//! Whose each place of core is after each load of a script's run: the run is done step by step, and looked at after each step
//! that tells of a load.
//!
//! The definitions are those of picture_model `Cores`.
mod maps;
mod note;
mod watch;

pub use maps::core_maps;
