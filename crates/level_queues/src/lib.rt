//! The level queues: nine rows of users, of which the lowest that isn't empty is served from its head.
#![tactic(auto)]

mod queues;
mod row;

pub use queues::{Charge, Chosen, Queues, Risen};
pub use row::level_of;
