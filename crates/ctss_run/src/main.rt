//! The program: the words of its command line, standard input, standard output, standard error and the sockets of this
//! machine, over a drum and a disk in memory.
#![tactic(auto)]

mod outside;

use std::process::ExitCode;

fn main(rt: HostRuntime) -> ExitCode {
    ExitCode::from(outside::run(&rt))
}
