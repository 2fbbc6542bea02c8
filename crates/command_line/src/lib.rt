//! The words of the command line, what they ask for, and what is said on standard error of how it ended (`outcome`).
//!
//! The words are read by the kit's `clap`, as a command of one or two words with two options, `--port` and `--turns`. A
//! word that begins with `-` and is neither is refused before, and a number is read as a field of a card is.
#![tactic(auto)]

mod command;
mod named;
pub mod outcome;
mod program;
mod words;

pub use program::program_words;
pub use words::ArgList;
