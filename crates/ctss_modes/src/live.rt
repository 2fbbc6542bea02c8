//! Live consoles: a base script comes in, and the script of what people did goes out with its report.
ghost use Rattle.std.specs.Prelude.{◌≤◌, ◌∷◌, []};
ghost use Rattle.faults.specs.Faults.{WhereTold};
ghost use Rattle.text_model.specs.Lawful.{IsLawful};
ghost use Rattle.script_read.specs.Bases.{base_of};
ghost use Rattle.drum_slots.specs.Kept.{ServesSlots};
ghost use Rattle.track_store.specs.Tracks.{ServesTracks};
ghost use Rattle.live_run.specs.Media.{media_seen};
ghost use Rattle.ctss_modes.specs.Outcomes.{IsOneOf};
ghost use Rattle.ctss_modes.specs.Modes.{IsSpelled};
ghost use Rattle.ctss_modes.specs.Devices.{InputSeen, output_seen, devices, devices_seen};
ghost use Rattle.ctss_modes.specs.Statuses.{EndsFor, AnswersFor};
ghost use Rattle.ctss_modes.specs.Top.{HasCause, IsSilent, statuses_live};

use crate::modes::write_run;
use crate::outcome::Outcome;
use crate::write::{end_unread, refuse_script};
use console_link::Link;
use ctss_io::{Sink, Source, read_bytes};
use ctss_types::Script;
use live_serve::{Listening, Served, ServingFault, serve};
use medium::Medium;
use script_read::{ScriptFault, read_base};
use std::alloc::Global;
use text_model::Mode;

/// People are served over a base script, and the text of what they did is written.
fn host<K: Sink, D: Medium, F: Medium, L: Link>(
    alloc: Global,
    base: Script,
    listening: Listening,
    sink: &mut K,
    drum: &mut D,
    disk: &mut F,
    link: &mut L,
) -> Outcome
    requires turns { listening.turns ≤ 100000 }
    requires lawful { IsLawful base }
    requires drum { ServesSlots (D.contents drum.old) (D.record_count drum.old) (D.words_each drum.old) 3840 }
    requires disk { ServesTracks (F.contents disk.old) (F.record_count disk.old) (F.words_each disk.old) 10000 }
    ensures status { IsOneOf result.status (0 ∷ 4 ∷ 5 ∷ 6 ∷ 7 ∷ 8 ∷ []) }
    ensures ends { (was now : InputSeen) → IsSpelled (Mode.Serve listening.port listening.turns) was.left now.left base
        → EndsFor (Mode.Serve listening.port listening.turns)
        (devices was (output_seen K.Sink sink.old) (media_seen D.Medium F.Medium drum.old disk.old) (L.seen link.old))
        (devices now (output_seen K.Sink sink.new) (media_seen D.Medium F.Medium drum.new disk.new)
        (L.seen link.new)) result }
    ensures cause { (input : InputSeen) → HasCause
        (devices input (output_seen K.Sink sink.old) (media_seen D.Medium F.Medium drum.old disk.old) (L.seen link.old))
        (devices input (output_seen K.Sink sink.new) (media_seen D.Medium F.Medium drum.new disk.new)
        (L.seen link.new)) result }
    ensures silent { (was now : InputSeen) → IsOneOf result.status (7 ∷ 8 ∷ []) → IsSilent result.status
        (devices was (output_seen K.Sink sink.old) (media_seen D.Medium F.Medium drum.old disk.old) (L.seen link.old))
        (devices now (output_seen K.Sink sink.new) (media_seen D.Medium F.Medium drum.new disk.new)
        (L.seen link.new)) result }
{
    match serve(alloc, &base, listening, drum, disk, link) {
        Ok(Served::Done { events, record }) => {
            let live = Script {
                params: base.params,
                accounts: base.accounts,
                files: base.files,
                events,
                end: 1000 * u64::from(listening.turns),
            };
            let Listening { port, turns } = listening;
            write_run(alloc, &Mode::Serve { port, turns }, &live, record, sink)
        }
        Ok(Served::DrumFailed(run)) => Outcome::failed(5, run),
        Ok(Served::DiskFailed(run)) => Outcome::failed(6, run),
        Err(ServingFault::Link) => Outcome::bare(alloc, 7, 0, 0),
        Err(ServingFault::NoMemory) => Outcome::bare(alloc, 8, 0, 0),
    }
}

/// A base script is read, people are served over it, and the text of what they did is written.
pub(crate) fn serve_consoles<S: Source, K: Sink, D: Medium, F: Medium, L: Link>(
    alloc: Global,
    listening: Listening,
    input: &mut S,
    sink: &mut K,
    drum: &mut D,
    disk: &mut F,
    link: &mut L,
) -> Outcome
    requires turns { listening.turns ≤ 100000 }
    requires drum { ServesSlots (D.contents drum.old) (D.record_count drum.old) (D.words_each drum.old) 3840 }
    requires disk { ServesTracks (F.contents disk.old) (F.record_count disk.old) (F.words_each disk.old) 10000 }
    ensures status { IsOneOf result.status (0 ∷ 2 ∷ 3 ∷ 4 ∷ 5 ∷ 6 ∷ 7 ∷ 8 ∷ []) }
    ensures answers { AnswersFor (Mode.Serve listening.port listening.turns)
        (devices_seen S.Source K.Sink D.Medium F.Medium input.old sink.old drum.old disk.old (L.seen link.old))
        (devices_seen S.Source K.Sink D.Medium F.Medium input.new sink.new drum.new disk.new (L.seen link.new)) result }
    ensures statuses { WhereTold (S.left input.old) (λ bytes. IsOneOf result.status (statuses_live (base_of bytes))) }
{
    let bytes = match read_bytes(alloc, input) {
        Ok(bytes) => bytes,
        Err(end) => return end_unread(alloc, sink, end),
    };
    match read_base(alloc, &bytes) {
        Ok(base) => host(alloc, base, listening, sink, drum, disk, link),
        Err(ScriptFault::Refused(refusal)) => {
            refuse_script(alloc, sink, refusal.card, refusal.cause.number())
        }
        Err(ScriptFault::NoMemory) => Outcome::bare(alloc, 8, 0, 0),
    }
}
