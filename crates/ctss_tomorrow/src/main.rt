//! The program that writes the next session's base script: the run of a script comes in, and what it leaves goes out as
//! a script again.
#![tactic(auto)]

mod base;

use crate::base::{NextSession, run};
use std::process::ExitCode;

fn main(rt: HostRuntime) -> ExitCode {
    ExitCode::from(run::<NextSession>(&rt))
}
