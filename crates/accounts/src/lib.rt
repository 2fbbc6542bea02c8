//! The accounts of a script, and which of them are logged in.
#![tactic(auto)]

mod table;

pub use ctss_types::NoMemory;
pub use table::{Accounts, Login};
