//! Programs that show the run of a script: the script comes in on a source, is run over a drum and a disk in memory, and a text
//! of its record goes out on a sink. What text that is, and what else it takes to write it, the program says (`RunShow`). And such
//! as write a text of the bytes that come in (`InputShow`).
#![tactic(auto)]

mod asked;
mod input;
mod media;
mod program;
mod show;

pub use asked::show_asked;
pub use command_line::ArgList;
pub use ctss_modes::{Outcome, RunText};
pub use input::{InputShow, show_input};
pub use media::run_script;
pub use program::{ShowProgram, run, run_program};
pub use show::{RunShow, show_script};
