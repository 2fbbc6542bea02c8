//! One user's session: what a user's lines, quits, hangs and steps do to the user's state.
//!
//! A step is a command, the filling of a program, an instruction or a supervisor entry. The words of the user's program
//! lie elsewhere: a step reaches them through a port.
#![tactic(auto)]

mod assembly_command;
mod command;
mod common_command;
mod common_entry;
mod debugger;
mod entry;
mod file_command;
mod file_entry;
mod link_command;
mod program;
mod run_file;
mod saved_command;
mod session;
mod turn;

pub use dialogue::Put;
pub use session::Session;
pub use turn::{Step, Turn};
