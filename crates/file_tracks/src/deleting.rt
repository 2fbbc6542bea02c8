//! Calls on a directory that take files out.
ghost use Rattle.std.specs.Prelude.{◌≡◌, ◌<◌, ◌^◌, ℕ, List, length, nat_eq, if◌then◌else◌, slice_index_or, IsErrOf};
ghost use Rattle.std.specs.List.{remove};
ghost use Rattle.file_model.specs.Files.{deleted, lasting};
ghost use Rattle.file_map.specs.Answers.{Leaves};
ghost use Rattle.file_tracks.specs.Stored.{files_on};
ghost use Rattle.file_tracks.specs.Tracked.{tracked, IsOn, Frees};
ghost use Rattle.file_tracks.specs.declared.table.Filed.{Filed};

use crate::spans::give_all;
use crate::table::TrackTable;
use ctss_types::{FileName, Refusal};
use file_map::PortFault;
use medium::Medium;
use track_store::TrackStore;

/// Takes the file at a place out, and gives its tracks back.
fn remove_at<F: Medium>(table: &mut TrackTable, store: &mut TrackStore<'_, F>, at: usize)
    requires usable { IsOn (tracked F.Medium store.old) table.old }
    requires at { at < length table.old.files.items }
    requires small { table.old.used < 2 ^ 32 }
    ensures items { table.new.files.items ≡ remove table.old.files.items at }
    ensures frees { Frees (tracked F.Medium store.old) (tracked F.Medium store.new) table.old table.new }
    ensures same { store.new.disk.ghost_name ≡ store.old.disk.ghost_name }
    ensures now { store.new.disk.now ≡ store.old.disk.now }
{
    let file = &table.files[at];
    let tracks = file.tracks.len() as u32;
    give_all(store, &file.tracks);
    let _ = table.files.remove(at);
    table.used -= tracks;
}

/// Takes a file out. No call of the disk is made.
pub(crate) fn delete_in<F: Medium>(
    table: &mut TrackTable,
    store: &mut TrackStore<'_, F>,
    name: FileName,
) -> Result<(), PortFault>
    requires usable { IsOn (tracked F.Medium store.old) table.old }
    requires small { table.old.used < 2 ^ 32 }
    ensures left { (contents : List (List ℕ)) → Leaves result (deleted name (files_on contents table.old.files.items))
        (files_on contents table.old.files.items) (files_on contents table.new.files.items) }
    ensures frees { Frees (tracked F.Medium store.old) (tracked F.Medium store.new) table.old table.new }
    ensures same { store.new.disk.ghost_name ≡ store.old.disk.ghost_name }
    ensures now { store.new.disk.now ≡ store.old.disk.now }
    ensures disk { ¬ IsErrOf result PortFault.Disk }
    ensures memory { ¬ IsErrOf result PortFault.NoMemory }
{
    let Some(at) = table.place(name) else {
        return Err(PortFault::Refused(Refusal::NoFile));
    };
    let file = &table.files[at];
    if file.mode >= 2 {
        return Err(PortFault::Refused(Refusal::ReadOnly));
    }
    remove_at(table, store, at);
    Ok(())
}

/// Takes the file at a place out if it is temporary.
fn drop_at<F: Medium>(table: &mut TrackTable, store: &mut TrackStore<'_, F>, at: usize)
    requires usable { IsOn (tracked F.Medium store.old) table.old }
    requires at { at < length table.old.files.items }
    requires small { table.old.used < 2 ^ 32 }
    ensures items { (d : Filed) → table.new.files.items
        ≡ (if nat_eq (slice_index_or table.old.files.items at d).mode 0
        then remove table.old.files.items at else table.old.files.items) }
    ensures frees { Frees (tracked F.Medium store.old) (tracked F.Medium store.new) table.old table.new }
    ensures same { store.new.disk.ghost_name ≡ store.old.disk.ghost_name }
    ensures now { store.new.disk.now ≡ store.old.disk.now }
{
    let file = &table.files[at];
    if file.mode != 0 {
        return;
    }
    remove_at(table, store, at);
}

impl TrackTable {
    /// Takes the files of mode 0 out. No call of the disk is made.
    pub fn drop_temporary<F: Medium>(&mut self, store: &mut TrackStore<'_, F>)
        requires usable { IsOn (tracked F.Medium store.old) self.old }
        requires small { self.old.used < 2 ^ 32 }
        ensures left { (contents : List (List ℕ)) → files_on contents self.new.files.items
            ≡ lasting (files_on contents self.old.files.items) }
        ensures frees { Frees (tracked F.Medium store.old) (tracked F.Medium store.new) self.old self.new }
        ensures same { store.new.disk.ghost_name ≡ store.old.disk.ghost_name }
        ensures now { store.new.disk.now ≡ store.old.disk.now }
    {
        // From the last place on, so that the places before stay.
        let count = self.files.len();
        'dropping: for k in 0..count {
            drop_at(self, store, count - 1 - k);
        }
    }
}
