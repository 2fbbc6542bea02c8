//! A run of the supervisor with its users' cores, as a core that consoles are served from; and what it has in common
//! with the run of a script (`laws`).
//!
//! The definitions stand in `specs/`: `Media`, `Starts`, `Calls` and `Finishes`.
#![tactic(auto)]

mod ending;
pub mod laws;
mod run;
mod start;

pub use ending::{Played, finish};
pub use run::LiveRun;
pub use start::{Begun, NewRun, begin, quotas_of};
