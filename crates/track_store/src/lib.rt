//! Tracks of a disk that is handed in: which are taken, and the words that lie in them.
#![tactic(auto)]

mod store;
mod tracks;

pub use store::{DiskFault, TrackStore};
pub use tracks::{NoTrack, Tracks};
