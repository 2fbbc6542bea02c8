//! The program that lists the cards of a program.
#![tactic(auto)]

use run_listing::{ListCards, run};
use std::process::ExitCode;

fn main(rt: HostRuntime) -> ExitCode {
    ExitCode::from(run::<ListCards>(&rt))
}
