//! A run that is looked at after each step that tells of a load.
ghost use Rattle.std.specs.Prelude.{◌≡◌, ◌<◌, ◌≤◌, ◌++◌, map, drop, true, IfOk, OnOk};
ghost use Rattle.text_model.specs.Lawful.{IsLawful};
ghost use Rattle.system_model.specs.Record.{start_of};
ghost use Rattle.supervisor.specs.Whole.{whole_of, Agrees};
ghost use Rattle.live_run.specs.Calls.{run_over};
ghost use Rattle.picture_model.specs.Cores.{load_ticks, owner_in, owners_of};
ghost use Rattle.run_picture.specs.Watching.{Steps};

use crate::core_maps::note::note_loads;
use ctss_types::{NoMemory, RunFault, Script};
use image_map::Image;
use medium::Medium;
use schedule_figures::chart::CoreMaps;
use std::alloc::Global;
use supervisor::Supervisor;
use track_directories::TrackDirectories;
use user_cores::Behind;

/// One step below a limit, and such as write no entry.
fn go_once<'a, 'd, D: Medium, F: Medium>(
    supervisor: &mut Supervisor,
    behind: &mut Behind<'a, 'd, D, F>,
    limit: u64,
) -> Result<(), RunFault>
    requires usable { ⟦<Behind<'a, 'd, D, F> as user_cores::Backing>⟧.Usable behind.old }
    requires agrees { Agrees (whole_of supervisor.old
        (⟦<Behind<'a, 'd, D, F> as user_cores::Backing>⟧.state behind.old)) }
    requires tells { (⟦<Behind<'a, 'd, D, F> as user_cores::Backing>⟧.state
        behind.old).held.tells
        ≡ true }
    requires in_time { supervisor.old.clock < limit }
    requires limit { limit ≤ 100000000 }
    ensures usable { OnOk result
        (⟦<Behind<'a, 'd, D, F> as user_cores::Backing>⟧.Usable behind.new) }
    ensures steps { OnOk result (Steps limit (whole_of supervisor.old
        (⟦<Behind<'a, 'd, D, F> as user_cores::Backing>⟧.state behind.old))
        (whole_of supervisor.new
        (⟦<Behind<'a, 'd, D, F> as user_cores::Backing>⟧.state behind.new))) }
{
    supervisor.advance_once(behind, limit)
}

/// What lies behind users' sessions, as it was, and whose each place of its core is.
fn look<'a, 'd, D: Medium, F: Medium>(
    behind: Behind<'a, 'd, D, F>,
) -> (Behind<'a, 'd, D, F>, [u8; 128])
    ensures same { result.0 ≡ behind.entry }
    ensures owners { owner_in result.1
        ≡ (⟦<Behind<'a, 'd, D, F> as user_cores::Backing>⟧.state
        behind.entry).held.places.owner }
{
    let (cores, files) = behind.into_parts();
    let owners = cores.owners();
    (Behind::new(cores, files), owners)
}

/// Notes whose each place of core is for each load of which the schedule tells from a place on.
fn note_step<'a, 'd, D: Medium, F: Medium>(
    maps: &mut CoreMaps,
    supervisor: &Supervisor,
    before: usize,
    behind: Behind<'a, 'd, D, F>,
) -> Result<Behind<'a, 'd, D, F>, NoMemory>
    ensures same { IfOk result (λ same. same ≡ behind.entry) }
    ensures maps { OnOk result (map owner_in maps.new ≡ map owner_in maps.old
        ++ map (λ tick. (⟦<Behind<'a, 'd, D, F> as user_cores::Backing>⟧.state
        behind.entry).held.places.owner) (load_ticks (drop before supervisor.now.entries))) }
{
    let entries = supervisor.entries();
    if entries.len() <= before {
        return Ok(behind);
    }
    let (same, owners) = look(behind);
    note_loads(maps, &entries[before..], &owners)?;
    Ok(same)
}

/// The owners of all places after each load, of a run that stands at its script's start.
pub(crate) fn watch<'a, 'd, D: Medium, F: Medium>(
    alloc: Global,
    supervisor: &mut Supervisor,
    behind: Behind<'a, 'd, D, F>,
    script: &Script,
) -> Result<CoreMaps, NoMemory>
    requires lawful { IsLawful script.now }
    requires usable { ⟦<Behind<'a, 'd, D, F> as user_cores::Backing>⟧.Usable behind }
    requires agrees { Agrees (whole_of supervisor.old
        (⟦<Behind<'a, 'd, D, F> as user_cores::Backing>⟧.state behind)) }
    requires tells { (⟦<Behind<'a, 'd, D, F> as user_cores::Backing>⟧.state behind).held.tells
        ≡ true }
    requires start { run_over (whole_of supervisor.old
        (⟦<Behind<'a, 'd, D, F> as user_cores::Backing>⟧.state behind)) ≡ start_of script.now }
    ensures { IfOk result (λ maps. map owner_in maps ≡ owners_of script.now) }
{
    let mut maps = CoreMaps::new(alloc);
    let mut behind = behind;
    'steps: while supervisor.clock() < script.end {
        let before = supervisor.entries().len();
        match go_once(supervisor, &mut behind, script.end) {
            Ok(()) => {}
            // A drum and a disk in memory don't fail: what lacked is memory.
            Err(_) => return Err(NoMemory),
        }
        behind = note_step(&mut maps, supervisor, before, behind)?;
    }
    Ok(maps)
}
