//! Calls on a directory that change a file's name or its mode.
ghost use Rattle.std.specs.Prelude.{ℕ, List, map, IsErrOf};
ghost use Rattle.std.specs.List.{IsDistinct};
ghost use Rattle.file_model.specs.Files.{same_name, renamed, moded};
ghost use Rattle.file_map.specs.Answers.{Leaves};
ghost use Rattle.file_tracks.specs.Stored.{files_on};
ghost use Rattle.file_tracks.specs.Tracked.{Retells};
ghost use Rattle.file_tracks.specs.declared.table.Filed.{Filed};

use crate::table::TrackTable;
use ctss_types::{FileName, Refusal};
use file_map::PortFault;

/// Gives a file another name, in its place.
pub(crate) fn rename_in(
    table: &mut TrackTable,
    name: FileName,
    to: FileName,
) -> Result<(), PortFault>
    requires { IsDistinct same_name (map (λ (f : Filed). f.name) table.old.files.items) }
    ensures left { (contents : List (List ℕ))
        → Leaves result (renamed name to (files_on contents table.old.files.items))
        (files_on contents table.old.files.items) (files_on contents table.new.files.items) }
    ensures retells { Retells table.old table.new }
    ensures disk { ¬ IsErrOf result PortFault.Disk }
    ensures memory { ¬ IsErrOf result PortFault.NoMemory }
{
    let Some(at) = table.place(name) else {
        return Err(PortFault::Refused(Refusal::NoFile));
    };
    let file = &table.files[at];
    if file.mode >= 2 {
        return Err(PortFault::Refused(Refusal::ReadOnly));
    }
    if to == name {
        return Ok(());
    }
    if table.has(to) {
        return Err(PortFault::Refused(Refusal::NameUsed));
    }
    let file = &mut table.files[at];
    file.name = to;
    Ok(())
}

/// Gives a file another mode.
pub(crate) fn chmode_in(table: &mut TrackTable, name: FileName, mode: u8) -> Result<(), PortFault>
    requires { IsDistinct same_name (map (λ (f : Filed). f.name) table.old.files.items) }
    ensures left { (contents : List (List ℕ))
        → Leaves result (moded name mode (files_on contents table.old.files.items))
        (files_on contents table.old.files.items) (files_on contents table.new.files.items) }
    ensures retells { Retells table.old table.new }
    ensures disk { ¬ IsErrOf result PortFault.Disk }
    ensures memory { ¬ IsErrOf result PortFault.NoMemory }
{
    let Some(at) = table.place(name) else {
        return Err(PortFault::Refused(Refusal::NoFile));
    };
    let file = &table.files[at];
    if file.mode == 3 {
        return Err(PortFault::Refused(Refusal::ReadOnly));
    }
    if mode > 3 {
        return Err(PortFault::Refused(Refusal::BadMode));
    }
    let file = &mut table.files[at];
    file.mode = mode;
    Ok(())
}
