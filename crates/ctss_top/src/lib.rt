//! The top call: what the words of the command line ask for is done, and the answer is one of the promised ones.
//!
//! What each mode does stands in ctss_modes, with all definitions that the clauses name.
#![tactic(auto)]

ghost use Rattle.std.specs.Prelude.{◌≡◌, ◌≤◌, ◌∷◌, [], ℕ, List, Some, true};
ghost use Rattle.drum_slots.specs.Kept.{ServesSlots};
ghost use Rattle.track_store.specs.Tracks.{ServesTracks};
ghost use Rattle.text_model.specs.Words.{mode_of};
ghost use Rattle.ctss_modes.specs.Outcomes.{IsOneOf};
ghost use Rattle.ctss_modes.specs.Modes.{ModeAsked, runs_script, turns_asked};
ghost use Rattle.ctss_modes.specs.Asm.{DeckIsWritten};
ghost use Rattle.ctss_modes.specs.Devices.{devices_seen};
ghost use Rattle.ctss_modes.specs.Top.{IsRun, RunIsStopped, RunLosesFiles, IsRefusal, HasCause, LeavesUnasked, IsCutOff, IsSilent, SpendsFor};
ghost use Rattle.ctss_modes.specs.Top.{IsAllowed, NothingFailed, IsComplete};

pub use command_line::ArgList;
use console_link::Link;
use ctss_io::{Sink, Source};
pub use ctss_modes::Outcome;
use ctss_modes::run_mode;
use medium::Medium;
use std::alloc::Global;
use text_model::Mode;

/// What the words ask for, done, over a drum of at least 3840 records of 256 words and a disk of at least 10000 of 432 words:
///
/// - `replay` reads a script from `input`, runs it and writes its report to `output`;
/// - `dump` does the same, with the words of each file in the report;
/// - `load N` runs the script that is made of a number and writes a summary;
/// - `asm` reads cards and writes their deck;
/// - `serve --port P --turns T` reads a script without events, has people connect over `link` for so many turns, and writes the script
///   with what they did and its report.
pub fn run_ctss<S: Source, K: Sink, D: Medium, F: Medium, L: Link>(
    alloc: Global,
    words: &ArgList,
    input: &mut S,
    output: &mut K,
    drum: &mut D,
    disk: &mut F,
    link: &mut L,
) -> Outcome
    requires drum { ServesSlots (D.contents drum.old) (D.record_count drum.old) (D.words_each drum.old) 3840 }
    requires disk { ServesTracks (F.contents disk.old) (F.record_count disk.old) (F.words_each disk.old) 10000 }
    ensures headline { (mode : ModeAsked) → mode_of words.now ≡ Some mode → runs_script mode ≡ true
        → result.status ≡ 0 → IsRun mode
        (devices_seen S.Source K.Sink D.Medium F.Medium input.old output.old drum.old disk.old (L.seen link.old))
        (devices_seen S.Source K.Sink D.Medium F.Medium input.new output.new drum.new disk.new
        (L.seen link.new)) result }
    ensures deck { mode_of words.now ≡ Some Mode.Asm → result.status ≡ 0
        → DeckIsWritten (devices_seen S.Source K.Sink D.Medium F.Medium input.old output.old drum.old disk.old
        (L.seen link.old))
        (devices_seen S.Source K.Sink D.Medium F.Medium input.new output.new drum.new disk.new
        (L.seen link.new)) result }
    ensures refusals { IsRefusal words.now
        (devices_seen S.Source K.Sink D.Medium F.Medium input.old output.old drum.old disk.old (L.seen link.old))
        (devices_seen S.Source K.Sink D.Medium F.Medium input.new output.new drum.new disk.new
        (L.seen link.new)) result }

    // The faults: only where the object's count rose.
    ensures causes { HasCause
        (devices_seen S.Source K.Sink D.Medium F.Medium input.old output.old drum.old disk.old (L.seen link.old))
        (devices_seen S.Source K.Sink D.Medium F.Medium input.new output.new drum.new disk.new
        (L.seen link.new)) result }
    ensures cut_off { result.status ≡ 4 → IsCutOff words.now
        (devices_seen S.Source K.Sink D.Medium F.Medium input.old output.old drum.old disk.old (L.seen link.old))
        (devices_seen S.Source K.Sink D.Medium F.Medium input.new output.new drum.new disk.new
        (L.seen link.new)) result }

    // With drum or disk that failed nothing is written, and the run is that of whole steps; with a read or a listener that failed
    // and where memory lacked nothing is written, and drum and link were called as far as the run came.
    ensures stopped { result.status ≡ 5 → RunIsStopped words.now
        (devices_seen S.Source K.Sink D.Medium F.Medium input.old output.old drum.old disk.old (L.seen link.old))
        (devices_seen S.Source K.Sink D.Medium F.Medium input.new output.new drum.new disk.new
        (L.seen link.new)) result }
    ensures lost { result.status ≡ 6 → RunLosesFiles words.now
        (devices_seen S.Source K.Sink D.Medium F.Medium input.old output.old drum.old disk.old (L.seen link.old))
        (devices_seen S.Source K.Sink D.Medium F.Medium input.new output.new drum.new disk.new
        (L.seen link.new)) result }
    ensures silent { IsOneOf result.status (3 ∷ 7 ∷ 8 ∷ []) → IsSilent result.status
        (devices_seen S.Source K.Sink D.Medium F.Medium input.old output.old drum.old disk.old (L.seen link.old))
        (devices_seen S.Source K.Sink D.Medium F.Medium input.new output.new drum.new disk.new
        (L.seen link.new)) result }
    ensures spent { IsOneOf result.status (7 ∷ 8 ∷ []) → (mode : ModeAsked) → mode_of words.now ≡ Some mode
        → SpendsFor mode (devices_seen S.Source K.Sink D.Medium F.Medium input.old output.old drum.old disk.old
        (L.seen link.old))
        (devices_seen S.Source K.Sink D.Medium F.Medium input.new output.new drum.new disk.new (L.seen link.new)) }
    ensures apart { LeavesUnasked words.now
        (devices_seen S.Source K.Sink D.Medium F.Medium input.old output.old drum.old disk.old (L.seen link.old))
        (devices_seen S.Source K.Sink D.Medium F.Medium input.new output.new drum.new disk.new (L.seen link.new)) }
    ensures allowed { IsAllowed words.now
        (devices_seen S.Source K.Sink D.Medium F.Medium input.old output.old drum.old disk.old
        (L.seen link.old)) result }

    // Where nothing failed, the answer is the one that words and bytes define, or want of memory.
    ensures complete { NothingFailed
        (devices_seen S.Source K.Sink D.Medium F.Medium input.old output.old drum.old disk.old (L.seen link.old))
        (devices_seen S.Source K.Sink D.Medium F.Medium input.new output.new drum.new disk.new (L.seen link.new))
        → IsComplete words.now
        (devices_seen S.Source K.Sink D.Medium F.Medium input.old output.old drum.old disk.old
        (L.seen link.old)) result }
{
    match words.mode() {
        Ok(asked) => run_mode(alloc, asked, input, output, drum, disk, link),
        Err(_) => Outcome::bare(alloc, 8, 0, 0),
    }
}

/// Words never ask for more than 100,000 turns. This is a law, and the function does nothing.
#[tactic(auto, using(crate::proofs::Asked::few_turns))]
pub fn turns_are_few()
    ensures { (words : List (List ℕ)) → turns_asked (mode_of words) ≤ 100000 }
{}
