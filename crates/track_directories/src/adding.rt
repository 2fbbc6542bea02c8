//! A file that is put into a directory with its mode.
ghost use Rattle.std.specs.Prelude.{◌≡◌, ◌≤◌, ◌++◌, ◌∷◌, [], None, Ok, IsOk, OnOk};
ghost use Rattle.file_model.specs.Files.{file_named, with_new, moded, tracks_of};
ghost use Rattle.file_map.specs.Known.{known};
ghost use Rattle.file_tracks.specs.Seen.{tells_of};
ghost use Rattle.file_tracks.specs.Tracked.{tracked, files_in, IsReady};
ghost use Rattle.track_directories.specs.Calls.{LeavesOne};

use ctss_types::{FileBody, FileName, StepFault};
use file_map::{FilePort, PortFault};
use file_tracks::{TrackPort, TrackTable};
use medium::Medium;
use std::alloc::Global;
use track_store::TrackStore;

/// Puts a file behind those of a directory, with mode 1.
fn put_over<F: Medium>(
    alloc: Global,
    table: &mut TrackTable,
    store: &mut TrackStore<'_, F>,
    file: &FileBody,
) -> Result<(), StepFault>
    requires ready { IsReady (tracked F.Medium store.old) table.old }
    requires absent { file_named file.now.name (files_in (tracked F.Medium store.old) table.old) ≡ None }
    requires fits { tracks_of (with_new file.now.name file.now.words (files_in (tracked F.Medium store.old) table.old))
        ≤ table.old.quota }
    ensures made { OnOk result (files_in (tracked F.Medium store.new) table.new
        ≡ known (tells_of (F.contents store.old.disk.now))
        (with_new file.now.name file.now.words (files_in (tracked F.Medium store.old) table.old))) }
    ensures one { LeavesOne result (tracked F.Medium store.old) (tracked F.Medium store.new) table.old table.new }
    ensures same { store.new.disk.ghost_name ≡ store.old.disk.ghost_name }
{
    let mut port = TrackPort {
        alloc,
        table,
        store,
        has_failed: false,
    };
    match port.put(file.name, file.words.as_slice()) {
        Ok(()) => Ok(()),
        Err(PortFault::NoMemory) => Err(StepFault::NoMemory),
        Err(PortFault::Disk) => Err(StepFault::Disk),
        Err(PortFault::Refused(_)) => unreachable!(),
    }
}

/// Gives a file of a directory another mode.
fn mode_over<F: Medium>(
    alloc: Global,
    table: &mut TrackTable,
    store: &mut TrackStore<'_, F>,
    name: FileName,
    mode: u8,
)
    requires ready { IsReady (tracked F.Medium store.old) table.old }
    requires can { IsOk (moded name mode (files_in (tracked F.Medium store.old) table.old)) }
    ensures moded { moded name mode (files_in (tracked F.Medium store.old) table.old)
        ≡ Ok (files_in (tracked F.Medium store.new) table.new) }
    ensures one { LeavesOne (Ok (tt {0})) (tracked F.Medium store.old) (tracked F.Medium store.new)
        table.old table.new }
    ensures same { store.new.disk.ghost_name ≡ store.old.disk.ghost_name }
{
    let mut port = TrackPort {
        alloc,
        table,
        store,
        has_failed: false,
    };
    match port.chmode(name, mode) {
        Ok(()) => {}
        Err(PortFault::Disk | PortFault::NoMemory | PortFault::Refused(_)) => unreachable!(),
    }
}

/// Puts a file behind those of a directory.
pub(crate) fn add_over<F: Medium>(
    alloc: Global,
    table: &mut TrackTable,
    store: &mut TrackStore<'_, F>,
    file: &FileBody,
) -> Result<(), StepFault>
    requires ready { IsReady (tracked F.Medium store.old) table.old }
    requires absent { file_named file.now.name (files_in (tracked F.Medium store.old) table.old) ≡ None }
    requires fits { tracks_of (files_in (tracked F.Medium store.old) table.old ++ file.now ∷ []) ≤ table.old.quota }
    requires mode { file.now.mode ≤ 3 }
    ensures added { OnOk result (files_in (tracked F.Medium store.new) table.new
        ≡ known (tells_of (F.contents store.old.disk.now))
        (files_in (tracked F.Medium store.old) table.old ++ file.now ∷ [])) }
    ensures one { LeavesOne result (tracked F.Medium store.old) (tracked F.Medium store.new) table.old table.new }
    ensures same { store.new.disk.ghost_name ≡ store.old.disk.ghost_name }
{
    put_over(alloc, table, store, file)?;
    mode_over(alloc, table, store, file.name, file.mode);
    Ok(())
}
