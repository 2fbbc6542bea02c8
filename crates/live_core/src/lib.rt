//! A run that is handed its events while it goes on: what whoever serves consoles may ask of it, and what it may count
//! on.
//!
//! The definitions stand in `specs/Core`.
#![tactic(auto)]

mod live;

pub use live::LiveCore;
