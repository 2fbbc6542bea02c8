//! Files that lie on tracks of a disk: a directory of them, and the port through which it is reached.
//!
//! A file's words stand on tracks of 432 words, the last of which may be used in part. `TrackTable` says which tracks
//! these are, and `TrackPort` is a directory as `FilePort` asks for it, over a table and a store of tracks.
#![tactic(auto)]

mod deleting;
mod listing;
mod naming;
mod patches;
mod port;
mod reading;
mod spans;
mod table;
mod words;
mod writing;

pub use port::TrackPort;
pub use table::{Filed, TrackTable};
