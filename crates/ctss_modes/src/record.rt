//! The record of a script, over drum and disk.
ghost use Rattle.std.specs.Prelude.{◌≡◌, IfOk, OnOk, OnErr};
ghost use Rattle.std.specs.List.{All};
ghost use Rattle.drum_slots.specs.Kept.{ServesSlots};
ghost use Rattle.track_store.specs.Tracks.{ServesTracks};
ghost use Rattle.track_directories.specs.Tables.{disk_of};
ghost use Rattle.image_map.specs.Image.{state, drum_seen};
ghost use Rattle.plan_model.specs.Loads.{Places, no_places};
ghost use Rattle.text_model.specs.Lawful.{IsLawful};
ghost use Rattle.time_sharing.specs.System.{Timed};
ghost use Rattle.system_model.specs.Run.{with_all_events};
ghost use Rattle.system_model.specs.Sound.{HasSeat};
ghost use Rattle.supervisor.specs.Seen.{run_with};
ghost use Rattle.supervisor.specs.Steps.{Lasts};
ghost use Rattle.supervisor.specs.Whole.{whole_of};
ghost use Rattle.live_run.specs.Media.{media_seen};
ghost use Rattle.live_run.specs.Starts.{IsNew};
ghost use Rattle.ctss_modes.specs.Played.{IsPlayed, IsScriptRun, HasSpent};

use ctss_types::{NoMemory, RunFault, Script, StepFault, Timed};
use image_map::Image;
use live_run::{Begun, NewRun, Played, begin, finish};
use medium::Medium;
use std::alloc::Global;
use supervisor::Supervisor;
use track_directories::TrackDirectories;
use user_cores::Behind;

/// Events are given to a supervisor, in their order.
pub fn give_all(supervisor: &mut Supervisor, events: &[Timed]) -> Result<(), NoMemory>
    requires seats { All (λ (e : Timed). HasSeat e (run_with no_places supervisor.old)) events.now }
    ensures given { (places : Places)
        → OnOk result (run_with places supervisor.new ≡ with_all_events events.now (run_with places supervisor.old)) }
    ensures texts { supervisor.new.texts ≡ supervisor.old.texts }
    ensures ended { supervisor.new.ended ≡ supervisor.old.ended }
    ensures entries { supervisor.new.entries ≡ supervisor.old.entries }
{
    for event in events {
        supervisor.take(*event)?;
    }
    Ok(())
}

/// A supervisor and what lies behind its users' sessions, after the run of its script, and how that ended.
#[derive(Drop)]
pub struct ScriptRun<'a, 'd, D: Medium, F: Medium> {
    pub supervisor: Supervisor,
    pub behind: Behind<'a, 'd, D, F>,
    pub ended: Result<(), RunFault>,
}

/// The run of a script: all its events are given, and it goes to the script's end, unless drum or disk fails or memory lacks. Where the
/// first files can't be written it never begins.
pub fn run_script<'a, 'd, D: Medium, F: Medium>(
    new: NewRun,
    script: &Script,
    drum: &'a mut D,
    disk: &'d mut F,
) -> ScriptRun<'a, 'd, D, F>
    requires new { IsNew script.now new }
    requires lawful { IsLawful script.now }
    requires drum { ServesSlots (D.contents drum.old) (D.record_count drum.old) (D.words_each drum.old) 3840 }
    requires disk { ServesTracks (F.contents disk.old) (F.record_count disk.old) (F.words_each disk.old) 10000 }
    ensures drum { (state result.behind.cores).drum.name ≡ (drum_seen D.Medium drum.entry).name }
    ensures disk { (disk_of result.behind.files).ghost_name ≡ disk.entry.ghost_name }
    ensures usable { Lasts result.ended
        (⟦<Behind<'a, 'd, D, F> as user_cores::Backing>⟧.Usable result.behind) }
    ensures ran { IsScriptRun script.now (media_seen D.Medium F.Medium drum.old disk.old) result.ended
        (whole_of result.supervisor
        (⟦<Behind<'a, 'd, D, F> as user_cores::Backing>⟧.state result.behind)) }
{
    let Begun { run, wrote } = begin(new, script, drum, disk);
    let (mut supervisor, mut behind) = run.into_parts();
    match wrote {
        Ok(()) => {}
        Err(StepFault::Disk) => {
            return ScriptRun {
                supervisor,
                behind,
                ended: Err(RunFault::Disk),
            };
        }
        Err(StepFault::NoMemory) => {
            return ScriptRun {
                supervisor,
                behind,
                ended: Err(RunFault::NoMemory),
            };
        }
    }
    if give_all(&mut supervisor, script.events.as_slice()).is_err() {
        return ScriptRun {
            supervisor,
            behind,
            ended: Err(RunFault::NoMemory),
        };
    }
    let ended = supervisor.advance(&mut behind, script.end);
    ScriptRun {
        supervisor,
        behind,
        ended,
    }
}

/// The record of a script, unless drum or disk fails.
pub fn record_script<D: Medium, F: Medium>(
    alloc: Global,
    script: &Script,
    drum: &mut D,
    disk: &mut F,
) -> Result<Played, NoMemory>
    requires lawful { IsLawful script.now }
    requires drum { ServesSlots (D.contents drum.old) (D.record_count drum.old) (D.words_each drum.old) 3840 }
    requires disk { ServesTracks (F.contents disk.old) (F.record_count disk.old) (F.words_each disk.old) 10000 }
    ensures played { IfOk result (IsPlayed script.now (media_seen D.Medium F.Medium drum.old disk.old)
        (media_seen D.Medium F.Medium drum.new disk.new)) }
    ensures spent { OnErr result (HasSpent script.now (media_seen D.Medium F.Medium drum.old disk.old)
        (media_seen D.Medium F.Medium drum.new disk.new)) }
{
    let new = NewRun::new(alloc, script)?;
    let ScriptRun {
        supervisor,
        mut behind,
        ended,
    } = run_script(new, script, drum, disk);
    let played = finish(alloc, supervisor, &mut behind, ended);
    let (cores, files) = behind.into_parts();
    let _ = cores.back();
    let _ = files.back();
    played
}
