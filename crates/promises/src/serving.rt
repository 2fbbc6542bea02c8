//! Live consoles are served.
ghost use Rattle.std.specs.Prelude.{◌≡◌, IfOk, Some};
ghost use Rattle.text_model.specs.Words.{mode_of};
ghost use Rattle.promises.specs.Machines.{IsReady};
ghost use Rattle.promises.specs.Sentences.{IsServed};

use crate::machine::Machine;
use crate::replaying::Answered;
use ctss_io::{MemorySink, MemorySource};
use ctss_top::{ArgList, run_ctss};
use faults::NoMemory;
use serve_laws::events_are_visits;
use std::alloc::Global;
use text_model::Mode;

/// Serves the people of a machine's link, for as many turns as the words ask for. At most `room` bytes can be written.
pub fn serve(
    alloc: Global,
    words: &ArgList,
    port: u16,
    turns: u32,
    base: &[u8],
    room: usize,
    machine: &mut Machine,
) -> Result<Answered, NoMemory>
    requires ready { IsReady machine.old }
    requires asked { mode_of words.now ≡ Some (Mode.Serve port turns) }
    ensures { IfOk result (λ a. a.outcome.status ≡ 0 → IsServed base.now port turns machine.old machine.new a) }
{
    // A law, which this client may know.
    events_are_visits();
    let mut input = MemorySource::new(alloc, base, 4096, &[])?;
    let mut output = MemorySink::new(alloc, room, 4096, &[])?;
    let outcome = run_ctss(
        alloc,
        words,
        &mut input,
        &mut output,
        &mut machine.drum,
        &mut machine.disk,
        &mut machine.link,
    );
    Ok(Answered {
        outcome,
        input,
        output,
    })
}
