//! The registers of a program, the port through which it reaches its core, and a core of its own for tests and cases
//! (`plain`).
#![tactic(auto)]

mod index;
pub mod plain;
mod port;
mod regs;

pub use index::IndexRegisters;
pub use port::{MemoryPort, Outside};
pub use regs::{OpEnd, Regs};
