//! The words of the command line decide what is shown.
ghost use Rattle.std.specs.Option.{option_map};
ghost use Rattle.script_show.specs.Asked.{IsAnswer};
ghost use Rattle.script_show.specs.Seen.{streams};

use crate::show::{RunShow, show_script};
use ctss_io::{Sink, Source};
use ctss_modes::{Outcome, refuse_words};
use std::alloc::Global;

/// Writes the text that is asked for, of the script that comes in; where none is, the words are refused, and nothing is read.
pub fn show_asked<T: RunShow + Copy, S: Source, K: Sink>(
    alloc: Global,
    asked: Option<T>,
    input: &mut S,
    output: &mut K,
) -> Outcome
    ensures { IsAnswer (option_map T.bytes asked)
        (streams S.Source K.Sink input.old output.old) (streams S.Source K.Sink input.new output.new) result }
{
    match asked {
        Some(text) => show_script(alloc, &text, input, output),
        None => refuse_words(alloc, output),
    }
}
