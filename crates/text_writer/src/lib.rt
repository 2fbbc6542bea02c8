//! Texts on their way to a sink, piece by piece, in the parts that lines are made of; words of the machine as cards;
//! and the report of a script's record (`report`).
#![tactic(auto)]

pub mod cards;
pub mod columns;
mod digits;
mod parts;
mod piece;
pub mod report;
mod text;
mod writer;

pub use piece::Piece;
pub use text::{Text, TextFault, write_text};
pub use writer::TextWriter;
