//! Live consoles over a run of the supervisor: people connect, what they do is given to the run turn by turn, and the run's
//! record is that of a script with these events.
//!
//! The definitions are in `specs/`: `Talks` (what passes over the link), `Live` (the record, or what a run leaves that drum or disk
//! stopped) and `Stops` (what that is a beginning of).
#![tactic(auto)]

mod ending;
mod fault;
pub mod laws;
mod serving;
mod talking;

pub use ending::Served;
pub use fault::ServingFault;
pub use serving::{Listening, serve};
