//! Scripts: read from bytes, as people write them, and written as their one canonical text.
#![tactic(auto)]

mod card;
mod draft;
mod enter;
mod fault;
mod field;
mod files;
mod params;
mod read;
mod text;
mod words;

pub use fault::ScriptFault;
pub use read::{bases_are_scripts, read_base, read_script};
pub use text::{ScriptText, add_end, add_owned_file, add_params, add_users};
