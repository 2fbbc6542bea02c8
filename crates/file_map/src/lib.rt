//! Directories of files: the port through which users reach their own files and the common ones, and the operations on
//! the common files over any such port (`common`).
//!
//! `FilePort` is a directory as contracts see it, a list of files with a quota of tracks. Each call answers what the
//! definition of its operation (file_model `specs/Files`) says, or a fault. `Files` is a directory in memory.
#![tactic(auto)]

pub mod common;
mod fault;
mod files;
mod port;
mod table;
mod words;

pub use fault::PortFault;
pub use files::Files;
pub use port::{FilePort, Listing, ListingRow};
