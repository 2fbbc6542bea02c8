//! Two runs, and what they have in common.
ghost use Rattle.std.specs.Prelude.{◌≡◌, ◌≤◌, ◌<◌, ℕ, IfOk, Ok, Some, length};
ghost use Rattle.ctss_types.specs.declared.script.Script.{Script};
ghost use Rattle.text_model.specs.Reading.{script_of};
ghost use Rattle.text_model.specs.Words.{mode_of};
ghost use Rattle.promises.specs.Machines.{IsReady};
ghost use Rattle.promises.specs.Sentences.{AgreesOf, WritesItsReplay};

use crate::machine::Machine;
use crate::replaying::{Answered, replay};
use crate::serving::serve;
use ctss_top::{ArgList, turns_are_few};
use faults::NoMemory;
use serve_laws::live_scripts_are_read;
use std::alloc::Global;
use text_model::Mode;

/// What two runs answered.
#[derive(Drop)]
pub struct Two {
    pub first: Answered,
    pub second: Answered,
}

/// Replays two scripts, each over a machine of its own. Of a user to whom the same comes in both, both show the same.
pub fn compare(alloc: Global, one: &[u8], other: &[u8], room: usize) -> Result<Two, NoMemory>
    ensures { IfOk result (λ both. both.first.outcome.status ≡ 0 → both.second.outcome.status ≡ 0
        → (s t : Script) → script_of one.now ≡ Ok s → script_of other.now ≡ Ok t
        → (u v : ℕ) → 0 < u → u ≤ length s.accounts → 0 < v → v ≤ length t.accounts
        → AgreesOf u v s t both.first.outcome.run both.second.outcome.run) }
{
    let mut machine = Machine::new(alloc, &[], &[], 0)?;
    let first = replay(alloc, one, &[], &[], room, &mut machine)?;
    let mut machine = Machine::new(alloc, &[], &[], 0)?;
    let second = replay(alloc, other, &[], &[], room, &mut machine)?;
    Ok(Two { first, second })
}

/// Replays a script twice. Both write the same.
pub fn replay_twice(alloc: Global, script: &[u8], room: usize) -> Result<Two, NoMemory>
    ensures { IfOk result (λ both. both.first.outcome.status ≡ 0 → both.second.outcome.status ≡ 0
        → both.first.output.held ≡ both.second.output.held) }
{
    let mut machine = Machine::new(alloc, &[], &[], 0)?;
    let first = replay(alloc, script, &[], &[], room, &mut machine)?;
    let mut machine = Machine::new(alloc, &[], &[], 0)?;
    let second = replay(alloc, script, &[], &[], room, &mut machine)?;
    Ok(Two { first, second })
}

/// Serves live consoles, and replays the first `len` bytes of what was written. If those are the text of the script, the replay
/// writes what was written after them.
pub fn serve_and_replay(
    alloc: Global,
    words: &ArgList,
    port: u16,
    turns: u32,
    base: &[u8],
    room: usize,
    len: usize,
    machine: &mut Machine,
) -> Result<Two, NoMemory>
    requires ready { IsReady machine.old }
    requires asked { mode_of words.now ≡ Some (Mode.Serve port turns) }
    ensures { IfOk result (λ both. both.first.outcome.status ≡ 0 → both.second.outcome.status ≡ 0
        → WritesItsReplay base.now port turns len machine.old machine.new both.first both.second) }
{
    // Two laws, which this client may know.
    turns_are_few();
    live_scripts_are_read();
    let first = serve(alloc, words, port, turns, base, room, machine)?;
    let written = first.output.bytes();
    let script = &written[..len.min(written.len())];
    let mut again = Machine::new(alloc, &[], &[], 0)?;
    let second = replay(alloc, script, &[], &[], room, &mut again)?;
    Ok(Two { first, second })
}
