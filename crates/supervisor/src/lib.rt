//! The supervisor: consoles, events, logins, the queues, the clock and users' programs, one atomic step at a time.
//!
//! `State` holds all but the cores of users' programs and has a method for each case of a step; in `whole` it steps
//! together with them, in `watch` with what the consoles show. `Supervisor` is the same for callers. What a step notes in
//! the schedule stands in `notes`, who a name and a password are in `accounts`, and the words of a line in `words`.
#![tactic(auto)]

mod events;
mod finish;
mod login;
mod once;
mod service;
mod start;
mod state;
mod supervisor;
mod watch;
mod whole;
mod words;

pub use finish::Closed;
pub use supervisor::Supervisor;
