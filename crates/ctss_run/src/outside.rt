//! What the program is, but for its `main`: the words of its command line, standard input, standard output, standard error and the
//! sockets of this machine, over a drum and a disk in memory.
mod program;

use command_line::outcome::explain;
use command_line::program_words;
use console_link::MioLink;
use ctss_io::{StdSink, StdSource};
pub use program::run_program;
use std::io;

/// Does what the words of the command line ask for, and answers the status. What a status that is not 0 means is said on standard error.
pub fn run(rt: &HostRuntime) -> u8 {
    let mut errors = StdSink::new(rt.stderr());
    let Ok(words) = program_words(rt) else {
        explain(&mut errors, 8, 0, 0);
        return 8;
    };
    let Ok(mut link) = MioLink::new(rt.alloc(), rt) else {
        explain(&mut errors, 8, 0, 0);
        return 8;
    };
    let mut source = StdSource::new(rt.reader());
    let mut sink = StdSink::new(io::writer(rt));
    run_program(
        rt.alloc(),
        &words,
        &mut source,
        &mut sink,
        &mut errors,
        &mut link,
    )
}
