//! A script is replayed.
ghost use Rattle.std.specs.Prelude.{◌≡◌, IfOk};
ghost use Rattle.promises.specs.Machines.{IsReady};
ghost use Rattle.promises.specs.Sentences.{IsReplayed, IsRefused, HasStopped, HasLostFiles, IsCutShort, IsSilent, HasCause, IsAsAsked};

use crate::machine::Machine;
use ctss_io::{MemorySink, MemorySource};
use ctss_top::{ArgList, Outcome, run_ctss};
use faults::NoMemory;
use live_run::laws::stopped_runs_are_beginnings;
use std::alloc::Global;

/// What the top call answered, the bytes that it read from, and the bytes that it wrote.
#[derive(Drop)]
pub struct Answered {
    pub outcome: Outcome,
    pub input: MemorySource,
    pub output: MemorySink,
}

/// Replays a script over a machine. The reads and puts with these numbers fail, and at most `room` bytes can be written.
pub fn replay(
    alloc: Global,
    script: &[u8],
    reads_fail: &[u64],
    puts_fail: &[u64],
    room: usize,
    machine: &mut Machine,
) -> Result<Answered, NoMemory>
    requires ready { IsReady machine.old }
    ensures done { IfOk result (λ a. a.outcome.status ≡ 0 → IsReplayed script.now machine.old machine.new a) }
    ensures refused { IfOk result (λ a. a.outcome.status ≡ 2 → IsRefused script.now machine.old machine.new a) }
    ensures stopped { IfOk result (λ a. a.outcome.status ≡ 5 → HasStopped script.now machine.old machine.new a) }
    ensures lost { IfOk result (λ a. a.outcome.status ≡ 6 → HasLostFiles script.now machine.old machine.new a) }
    ensures cut_short { IfOk result (λ a. a.outcome.status ≡ 4 → IsCutShort script.now machine.old machine.new a) }
    ensures silent { IfOk result (λ a. IsSilent script.now machine.old machine.new a) }
    ensures causes { IfOk result (λ a. HasCause machine.old machine.new a) }
    ensures as_asked { IfOk result (λ a. IsAsAsked script.now machine.old machine.new a) }
{
    // A law, which this client may know.
    stopped_runs_are_beginnings();
    let mut words = ArgList::new(alloc);
    words.add("replay")?;
    let mut input = MemorySource::new(alloc, script, 4096, reads_fail)?;
    let mut output = MemorySink::new(alloc, room, 4096, puts_fail)?;
    let outcome = run_ctss(
        alloc,
        &words,
        &mut input,
        &mut output,
        &mut machine.drum,
        &mut machine.disk,
        &mut machine.link,
    );
    Ok(Answered {
        outcome,
        input,
        output,
    })
}
