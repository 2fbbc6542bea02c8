//! Supervisor entries: what a program's call asks for, how it is answered, and words of its core, lines among them.
#![tactic(auto)]

mod argument;
mod buffer;
mod call;
mod file_call;
mod line;

pub use buffer::{store_fitting, store_words, words_in};
pub use call::{answer, is_get_memory, is_get_time, is_line_count, read_call};
pub use line::{line_in, store_line};
