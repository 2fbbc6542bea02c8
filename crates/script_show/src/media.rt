//! The record of a script, over a drum and a disk in memory.
ghost use Rattle.text_model.specs.Lawful.{IsLawful};
ghost use Rattle.ctss_modes.specs.Devices.{output_seen};
ghost use Rattle.script_show.specs.Shown.{ShowsRun};

use ctss_io::Sink;
use ctss_modes::{Outcome, RunText, perform};
use ctss_types::Script;
use medium::PlainMedium;
use std::alloc::Global;

/// A script is run over a drum of 3840 records and a disk of 10000, and the text of its record is written.
pub fn run_script<T: RunText, K: Sink>(
    alloc: Global,
    text: &T,
    script: &Script,
    sink: &mut K,
) -> Outcome
    requires { IsLawful script.now }
    ensures { ShowsRun (T.bytes text.now) script.now
        (output_seen K.Sink sink.old) (output_seen K.Sink sink.new) result }
{
    let Ok(mut drum) = PlainMedium::new(alloc, 3840, 256) else {
        return Outcome::bare(alloc, 8, 0, 0);
    };
    let Ok(mut disk) = PlainMedium::new(alloc, 10000, 432) else {
        return Outcome::bare(alloc, 8, 0, 0);
    };
    perform(alloc, text, script, sink, &mut drum, &mut disk)
}
