//! The program that shows the run of a script as a picture.
#![tactic(auto)]

use run_picture::{RunPicture, run};
use std::process::ExitCode;

fn main(rt: HostRuntime) -> ExitCode {
    ExitCode::from(run::<RunPicture>(&rt))
}
