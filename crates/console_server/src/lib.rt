//! Live consoles: a server that hands what connections send to a core that goes on, and sends them what their consoles
//! show.
//!
//! The definitions stand in `specs/`: `Turns` (a turn by what the link answered), `Readings` (where reading may stop),
//! `Cores`, `Done` and `Server` (what a turn asks and leaves), `Conversation` (turns one after another), `Visits` and
//! `History`.
#![tactic(auto)]

mod book;
mod closing;
mod fault;
mod hearing;
mod reading;
mod seating;
mod server;
mod tasks;
mod turn;
mod writing;

pub use fault::ServeFault;
pub use server::{Finished, Server, Tables};
