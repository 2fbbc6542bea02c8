//! A script comes in, and a text of its record goes out.
ghost use Rattle.text_model.specs.Lawful.{IsLawful};
ghost use Rattle.ctss_modes.specs.Modes.{TextOfRun};
ghost use Rattle.ctss_modes.specs.Devices.{output_seen};
ghost use Rattle.script_show.specs.Shown.{IsShowing, ShowsRun};
ghost use Rattle.script_show.specs.Seen.{streams};

use ctss_io::{Sink, Source, read_bytes};
use ctss_modes::{Outcome, end_unread, refuse_script};
use ctss_types::Script;
use script_read::{ScriptFault, read_script};
use std::alloc::Global;

/// How the run of a script is shown, by a text of its record.
pub trait RunShow {
    /// The text's bytes.
    ghost bytes: { Self → TextOfRun };

    /// Runs a script, and writes the text of its record.
    fn show<K: Sink>(&self, alloc: Global, script: &Script, sink: &mut K) -> Outcome
        requires { IsLawful script.now }
        ensures { ShowsRun (bytes self.now) script.now
            (output_seen K.Sink sink.old) (output_seen K.Sink sink.new) result };
}

/// A script is read and run, and the text of its record is written. Refusals are written as `replay` of the supervisor writes
/// them.
pub fn show_script<T: RunShow, S: Source, K: Sink>(
    alloc: Global,
    text: &T,
    input: &mut S,
    output: &mut K,
) -> Outcome
    ensures { IsShowing (T.bytes text.now)
        (streams S.Source K.Sink input.old output.old) (streams S.Source K.Sink input.new output.new) result }
{
    let bytes = match read_bytes(alloc, input) {
        Ok(bytes) => bytes,
        Err(end) => return end_unread(alloc, output, end),
    };
    match read_script(alloc, &bytes) {
        Ok(script) => text.show(alloc, &script, output),
        Err(ScriptFault::Refused(refusal)) => {
            refuse_script(alloc, output, refusal.card, refusal.cause.number())
        }
        Err(ScriptFault::NoMemory) => Outcome::bare(alloc, 8, 0, 0),
    }
}
