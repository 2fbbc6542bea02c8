//! Cases of whole runs: what is done and what fails in it comes in, and what comes of it goes out.
//!
//! A case is `CASE name`, lines that say how it is done, `TEXT`, and the lines of the text that is read. How it is done:
//! - `WORDS w ..`: the words of the command line; `PICTURE w ..`: those of `ctss_picture`; `LISTING w ..`: those of `ctss_listing`;
//! - `SOURCE piece n ..`: at most so many bytes a read, of which these fail; `SINK room piece n ..`: room for so many bytes,
//!   at most so many a put, of which these fail;
//! - `DRUM n ..`: these calls of the drum fail; `DRUM-DAMAGE read place word`: this read, or with `EACH` each, gives an octal word in
//!   this place; `DISK` and `DISK-DAMAGE` say the same of the disk;
//! - `DRUM-CALLS n`: the calls of the drum are told, and it has room for n of them;
//! - `EACH device n`: the case is done for each call of `SOURCE`, `SINK`, `DRUM` or `DISK`, which fails, until no call does, n times at
//!   most, and each time the call is told first;
//! - `BYTES hex`: bytes of the text; `LAST`, `CALLS`: how many entries the schedule has and the last one, the calls of the link are
//!   told.
//!
//! For consoles over a link whose bytes become ready by turns `TURNS n` stands in place of `WORDS` and `TEXT`. The base script ends
//! with `LINK`, and then come the callers in the order in which they are accepted. `PEER t` is one who connects in turn t, and
//! the lines behind it are this caller's: `BYTES t hex` are bytes that become ready together in turn t, those of `TYPED t hex` one by
//! one; from `OVER t` on the connection is over once its bytes are read, and in `FAILS t` its first read fails. `FAIL call n` is a call of
//! the link that fails, `LATE call n` one that is not ready, as `FAIL READ 0 4`.
//!
//! What is written of a case: its first line, what the program writes, `STATUS s CARD c CAUSE k`, the calls of the drum where they are
//! to be told, and a line `SENT k hex` for each caller. A call of the drum is `PUT r` or `GET r`, for the record r, with `FAILED` behind
//! where it failed; `DRUM TELLS NO CALLS` is all where there was no room for each. A case that begins with `TURNS` stands alone: neither
//! its name nor its status are written, and the program ends with the status.
#![tactic(auto)]

mod case;
mod desk;
mod drum;
mod head;
mod link;
mod plan;
mod play;
mod reading;
mod talk;

use play::play;
use reading::CaseReader;
use std::io::{BufRead, BufReader};
use std::process::ExitCode;

fn main(rt: HostRuntime) -> anyhow::Result<ExitCode> {
    let mut reader = CaseReader::new(rt.alloc());
    let input = BufReader::new(rt.alloc(), rt.reader())?;
    for line in input.lines(rt.alloc()) {
        let line = line?;
        reader.add(line.as_str())?;
    }
    let mut status = 0;
    for case in reader.cases() {
        status = play(&rt, case)?;
    }
    Ok(ExitCode::from(status))
}
