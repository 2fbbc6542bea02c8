//! The files of several directories.
ghost use Rattle.std.specs.Prelude.{◌≡◌, map, IfOk, IsErrOf};
ghost use Rattle.std.specs.List.{All};
ghost use Rattle.faults.specs.Faults.{WhereTold};
ghost use Rattle.file_tracks.specs.Stored.{files_on};
ghost use Rattle.file_tracks.specs.Tracked.{tracked, IsServed, IsOn, KeepsTracks};
ghost use Rattle.file_tracks.specs.declared.table.TrackTable.{TrackTable};

use ctss_types::{FileList, StepFault};
use file_tracks::TrackTable;
use medium::Medium;
use std::alloc::Global;
use track_store::TrackStore;

/// The files of each of these directories, with their words.
pub(crate) fn lists_on<F: Medium>(
    alloc: Global,
    tables: &[TrackTable],
    store: &mut TrackStore<'_, F>,
) -> Result<Vec<FileList>, StepFault>
    requires usable { All (λ (t : TrackTable). IsOn (tracked F.Medium store.old) t) tables.now }
    requires serves { IsServed (tracked F.Medium store.old) }
    ensures files { WhereTold (F.contents store.old.disk.now) (λ contents. IfOk result (λ lists. lists.items
        ≡ map (λ (t : TrackTable). files_on contents t.files.items) tables.now)) }
    ensures keeps { KeepsTracks F.Medium (IsErrOf result StepFault.Disk) store.old store.new }
    ensures contents { ¬ IsErrOf result StepFault.Disk → F.contents store.new.disk.now ≡ F.contents store.old.disk.now }
{
    let mut lists = Vec::new(alloc);
    'listing: for table in tables {
        let files = table.read_all(alloc, store)?;
        if lists.push(files).is_err() {
            return Err(StepFault::NoMemory);
        }
    }
    Ok(lists)
}
