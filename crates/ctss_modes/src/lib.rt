//! What each mode does: a script's bytes come in and its report goes out, a made script is run, cards come in and their deck goes
//! out, or people are served at live consoles. All that is promised of the answer is one relation (specs `Answer`).
#![tactic(auto)]

mod answer;
mod asm;
pub mod assembly_text;
mod live;
mod modes;
mod outcome;
mod record;
mod write;

pub use answer::run_mode;
pub use modes::{RunText, perform};
pub use outcome::Outcome;
pub use record::{ScriptRun, give_all, record_script, run_script};
pub use write::{end_unread, refuse_script, refuse_words};
