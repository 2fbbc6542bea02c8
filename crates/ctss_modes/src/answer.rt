//! One call for all modes.
ghost use Rattle.std.specs.Prelude.{◌≤◌};
ghost use Rattle.drum_slots.specs.Kept.{ServesSlots};
ghost use Rattle.track_store.specs.Tracks.{ServesTracks};
ghost use Rattle.ctss_modes.specs.Answer.{IsAnswer};
ghost use Rattle.ctss_modes.specs.Devices.{devices_seen};
ghost use Rattle.ctss_modes.specs.Modes.{turns_asked};

use crate::asm::asm;
use crate::live::serve_consoles;
use crate::modes::{load, replay};
use crate::outcome::Outcome;
use crate::write::refuse_words;
use console_link::Link;
use ctss_io::{Sink, Source};
use live_serve::Listening;
use medium::Medium;
use std::alloc::Global;
use text_model::Mode;

/// Does what is asked for, over a drum of at least 3840 records of 256 words and a disk of at least 10000 of 432 words. Words that
/// ask for nothing are refused.
pub fn run_mode<S: Source, K: Sink, D: Medium, F: Medium, L: Link>(
    alloc: Global,
    asked: Option<Mode>,
    input: &mut S,
    output: &mut K,
    drum: &mut D,
    disk: &mut F,
    link: &mut L,
) -> Outcome
    requires turns { turns_asked asked ≤ 100000 }
    requires drum { ServesSlots (D.contents drum.old) (D.record_count drum.old) (D.words_each drum.old) 3840 }
    requires disk { ServesTracks (F.contents disk.old) (F.record_count disk.old) (F.words_each disk.old) 10000 }
    ensures { IsAnswer asked
        (devices_seen S.Source K.Sink D.Medium F.Medium input.old output.old drum.old disk.old (L.seen link.old))
        (devices_seen S.Source K.Sink D.Medium F.Medium input.new output.new drum.new disk.new
        (L.seen link.new)) result }
{
    let Some(mode) = asked else {
        return refuse_words(alloc, output);
    };
    match mode {
        Mode::Replay => replay(alloc, Mode::Replay, input, output, drum, disk),
        Mode::Dump => replay(alloc, Mode::Dump, input, output, drum, disk),
        Mode::Load(n) => load(alloc, n, output, drum, disk),
        Mode::Asm => asm(alloc, input, output),
        Mode::Serve { port, turns } => {
            let listening = Listening { port, turns };
            serve_consoles(alloc, listening, input, output, drum, disk, link)
        }
    }
}
