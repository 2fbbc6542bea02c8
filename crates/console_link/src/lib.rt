//! Connections as a server is handed them, in memory and over sockets.
#![tactic(auto)]

mod connection;
mod link;
mod log;
mod memory;
mod sockets;

pub use faults::NoMemory;
pub use link::{Accepted, CallMade, Failed, Link, LinkGot, LinkTook};
pub use memory::{LinkAt, LinkCall, MemoryLink, Peer};
pub use sockets::MioLink;
