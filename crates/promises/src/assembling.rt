//! Cards are assembled.
ghost use Rattle.std.specs.Prelude.{◌≡◌, IfOk};
ghost use Rattle.promises.specs.Machines.{IsReady};
ghost use Rattle.promises.specs.Sentences.{IsAssembled};

use crate::machine::Machine;
use crate::replaying::Answered;
use ctss_io::{MemorySink, MemorySource};
use ctss_top::{ArgList, run_ctss};
use faults::NoMemory;
use std::alloc::Global;

/// Assembles cards beside a machine. At most `room` bytes can be written.
pub fn assemble(
    alloc: Global,
    cards: &[u8],
    room: usize,
    machine: &mut Machine,
) -> Result<Answered, NoMemory>
    requires ready { IsReady machine.old }
    ensures { IfOk result (λ a. IsAssembled cards.now machine.old machine.new a) }
{
    let mut words = ArgList::new(alloc);
    words.add("asm")?;
    let mut input = MemorySource::new(alloc, cards, 4096, &[])?;
    let mut output = MemorySink::new(alloc, room, 4096, &[])?;
    let outcome = run_ctss(
        alloc,
        &words,
        &mut input,
        &mut output,
        &mut machine.drum,
        &mut machine.disk,
        &mut machine.link,
    );
    Ok(Answered {
        outcome,
        input,
        output,
    })
}
