//! The owners after a step, noted for each load of which it tells.
ghost use Rattle.std.specs.Prelude.{◌≡◌, ◌++◌, map, OnOk};
ghost use Rattle.picture_model.specs.Cores.{load_tick, load_ticks, owner_in};

use ctss_types::{Entry, NoMemory};
use schedule_figures::chart::CoreMaps;

/// Notes the owners, if an entry tells of a load.
fn note_load(maps: &mut CoreMaps, entry: &Entry, owners: &[u8; 128]) -> Result<(), NoMemory>
    ensures { OnOk result (map owner_in maps.new
        ≡ map owner_in maps.old ++ map (λ tick. owner_in owners.now) (load_tick entry.now)) }
{
    if let Entry::Swap { .. } = entry {
        maps.push(owners)?;
    }
    Ok(())
}

/// Notes the owners once for each entry that tells of a load.
pub(crate) fn note_loads(
    maps: &mut CoreMaps,
    entries: &[Entry],
    owners: &[u8; 128],
) -> Result<(), NoMemory>
    ensures { OnOk result (map owner_in maps.new
        ≡ map owner_in maps.old ++ map (λ tick. owner_in owners.now) (load_ticks entries.now)) }
{
    for entry in entries {
        note_load(maps, entry, owners)?;
    }
    Ok(())
}
