//! The top call over a drum and a disk in memory.
ghost use Rattle.ctss_run.specs.Program.{IsAnswered, handed};

use command_line::outcome::explain;
use console_link::Link;
use ctss_io::{Sink, Source};
use ctss_top::{ArgList, run_ctss};
use medium::PlainMedium;
use std::alloc::Global;

/// What the words ask for, done over a drum of 3840 records of 256 words and a disk of 10000 of 432. Answers the status; 8 too where
/// there is no memory for drum and disk. What a status that is not 0 means comes to `errors`, on one line.
pub fn run_program<S: Source, K: Sink, E: Sink, L: Link>(
    alloc: Global,
    words: &ArgList,
    input: &mut S,
    output: &mut K,
    errors: &mut E,
    link: &mut L,
) -> u8
    ensures { IsAnswered words.now (handed S.Source K.Sink E.Sink input.old output.old errors.old (L.seen link.old))
        (handed S.Source K.Sink E.Sink input.new output.new errors.new (L.seen link.new)) result }
{
    let Ok(mut drum) = PlainMedium::new(alloc, 3840, 256) else {
        explain(errors, 8, 0, 0);
        return 8;
    };
    let Ok(mut disk) = PlainMedium::new(alloc, 10000, 432) else {
        explain(errors, 8, 0, 0);
        return 8;
    };
    let outcome = run_ctss(alloc, words, input, output, &mut drum, &mut disk, link);
    explain(errors, outcome.status, outcome.card, outcome.cause);
    outcome.status
}
