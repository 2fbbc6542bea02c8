//! The directories of all users, and that of the common files, whose files lie on tracks of one disk.
//!
//! The definitions stand in `specs/`: `Directories` (what all directories show, and what each call does to it), `Tables` (how
//! tables and tracks show it, and what stays true of them), `Calls` (what a call on one directory leaves) and `Firsts` (the
//! first files of a run).
#![tactic(auto)]

mod adding;
mod all;
mod empty;
mod listing;
mod one;

pub use all::{Lists, TrackDirectories};
pub use empty::EmptyDirectories;
