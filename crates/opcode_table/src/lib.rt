//! The operations of the machine, and the words that stand for their instructions.
#![tactic(auto)]

mod index;
mod op;
mod rows;
mod words;

pub use index::row_coded;
pub use op::{Class, Instr, Kind, Op, Row};
pub use rows::{class, kind, name, op_named};
pub use words::{decode, decode_prefixed, encode, instr_coded};
