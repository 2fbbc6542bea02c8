//! The run of a script, with its core looked at.
ghost use Rattle.std.specs.Prelude.{◌≡◌, map, true, IfOk};
ghost use Rattle.drum_slots.specs.Kept.{ServesSlots};
ghost use Rattle.track_store.specs.Tracks.{ServesTracks};
ghost use Rattle.text_model.specs.Lawful.{IsLawful};
ghost use Rattle.live_run.specs.Media.{media_seen};
ghost use Rattle.picture_model.specs.Cores.{owner_in, owners_of};

use crate::core_maps::watch::watch;
use ctss_modes::give_all;
use ctss_types::{NoMemory, Script};
use live_run::{Begun, NewRun, begin};
use medium::{Medium, PlainMedium};
use schedule_figures::chart::CoreMaps;
use std::alloc::Global;

/// The same over a drum and a disk.
fn maps_over<D: Medium, F: Medium>(
    alloc: Global,
    script: &Script,
    drum: &mut D,
    disk: &mut F,
) -> Result<CoreMaps, NoMemory>
    requires lawful { IsLawful script.now }
    requires drum { ServesSlots (D.contents drum.old) (D.record_count drum.old) (D.words_each drum.old) 3840 }
    requires disk { ServesTracks (F.contents disk.old) (F.record_count disk.old) (F.words_each disk.old) 10000 }
    requires tells { (media_seen D.Medium F.Medium drum.old disk.old).tells ≡ true }
    ensures { IfOk result (λ maps. map owner_in maps ≡ owners_of script.now) }
{
    let new = NewRun::new(alloc, script)?;
    let Begun { run, wrote } = begin(new, script, drum, disk);
    let (mut supervisor, behind) = run.into_parts();
    match wrote {
        Ok(()) => {}
        // A disk in memory doesn't fail.
        Err(_) => return Err(NoMemory),
    }
    give_all(&mut supervisor, script.events.as_slice())?;
    watch(alloc, &mut supervisor, behind, script)
}

/// Whose each place of core is after each load of a script's run, which is done over a drum and a disk in memory.
pub fn core_maps(alloc: Global, script: &Script) -> Result<CoreMaps, NoMemory>
    requires { IsLawful script.now }
    ensures { IfOk result (λ maps. map owner_in maps ≡ owners_of script.now) }
{
    let mut drum = PlainMedium::new(alloc, 3840, 256)?;
    let mut disk = PlainMedium::new(alloc, 10000, 432)?;
    maps_over(alloc, script, &mut drum, &mut disk)
}
