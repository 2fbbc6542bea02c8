//! A medium of numbered records of words, as a drum or a disk is, and one in memory.
#![tactic(auto)]

mod log;
mod medium;
mod memory;
mod pages;
mod plain;

pub use medium::{Failed, Medium};
pub use memory::{Damage, MemoryMedium};
pub use plain::PlainMedium;
