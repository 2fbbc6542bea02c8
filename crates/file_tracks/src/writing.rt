//! Calls on a directory that write words.
ghost use Rattle.std.specs.Prelude.{◌≡◌, ◌<◌, ◌++◌, ◌∷◌, [], ℕ, List, length, vec_len, vec_capacity, None, OnOk, IsErrOf};
ghost use Rattle.ctss_types.specs.declared.file.Refusal.{Refusal};
ghost use Rattle.file_model.specs.Files.{file_named, put, written, appended, if_they_fit, with_new};
ghost use Rattle.file_tracks.specs.Stored.{IsAt, files_on};
ghost use Rattle.file_tracks.specs.Tracked.{tracked, IsReady, Writes};

use crate::patches::{rewritten, written_over};
use crate::table::{Filed, TrackTable};
use crate::words::{tracks_for, used_after};
use ctss_types::{FileName, NoMemory, Refusal, StepFault};
use file_map::PortFault;
use medium::Medium;
use std::alloc::Global;
use track_store::TrackStore;
use word36::Word;

/// A file of a table that was found: its name, and which one it is.
#[derive(Clone, Copy)]
struct Found {
    name: FileName,
    at: usize,
}

/// Other words for a file, in other tracks.
fn replace_in<F: Medium>(
    alloc: Global,
    table: &mut TrackTable,
    store: &mut TrackStore<'_, F>,
    found: Found,
    words: &[Word],
) -> Result<(), PortFault>
    requires ready { IsReady (tracked F.Medium store.old) table.old }
    requires at { found.at < length table.old.files.items }
    requires found { IsAt found.name found.at table.old.files.items }
    ensures writes { Writes (put found.name words.now table.old.quota) result
        (tracked F.Medium store.old) (tracked F.Medium store.new) table.old table.new }
    ensures refused { (r : Refusal) → IsErrOf result (PortFault.Refused r)
        → store.new.disk.now ≡ store.old.disk.now }
    ensures same { store.new.disk.ghost_name ≡ store.old.disk.ghost_name }
{
    let file = &table.files[found.at];
    if file.mode >= 2 {
        return Err(PortFault::Refused(Refusal::ReadOnly));
    }
    let before = file.tracks.len() as u64;
    let after = tracks_for(words.len() as u64);
    let Some(used) = used_after(table.used, table.quota, before, after) else {
        return Err(PortFault::Refused(Refusal::Quota));
    };
    let tracks = match rewritten(alloc, store, &file.tracks, after as usize, words) {
        Ok(tracks) => tracks,
        Err(StepFault::NoMemory) => return Err(PortFault::NoMemory),
        Err(StepFault::Disk) => return Err(PortFault::Disk),
    };
    let file = &mut table.files[found.at];
    file.words = words.len() as u64;
    file.tracks = tracks;
    table.used = used;
    Ok(())
}

/// Words written into a file, from one of its words on, or behind its end.
fn write_at<F: Medium>(
    alloc: Global,
    table: &mut TrackTable,
    store: &mut TrackStore<'_, F>,
    found: Found,
    place: u64,
    words: &[Word],
) -> Result<(), PortFault>
    requires ready { IsReady (tracked F.Medium store.old) table.old }
    requires at { found.at < length table.old.files.items }
    requires found { IsAt found.name found.at table.old.files.items }
    ensures writes { Writes (written found.name place words.now table.old.quota) result
        (tracked F.Medium store.old) (tracked F.Medium store.new) table.old table.new }
    ensures refused { (r : Refusal) → IsErrOf result (PortFault.Refused r)
        → store.new.disk.now ≡ store.old.disk.now }
    ensures same { store.new.disk.ghost_name ≡ store.old.disk.ghost_name }
{
    let file = &table.files[found.at];
    if file.mode >= 2 {
        return Err(PortFault::Refused(Refusal::ReadOnly));
    }
    if place > file.words {
        return Err(PortFault::Refused(Refusal::PastEnd));
    }
    let before = file.tracks.len() as u64;
    let len = file.words.max(place + words.len() as u64);
    let after = tracks_for(len);
    let Some(used) = used_after(table.used, table.quota, before, after) else {
        return Err(PortFault::Refused(Refusal::Quota));
    };
    let tracks = match written_over(alloc, store, &file.tracks, after as usize, place, words) {
        Ok(tracks) => tracks,
        Err(StepFault::NoMemory) => return Err(PortFault::NoMemory),
        Err(StepFault::Disk) => return Err(PortFault::Disk),
    };
    let file = &mut table.files[found.at];
    file.words = len;
    file.tracks = tracks;
    table.used = used;
    Ok(())
}

/// Room for a file more. The files stay, whatever the answer.
fn room_for_file(table: &mut TrackTable) -> Result<(), NoMemory>
    ensures files { table.new.files.items ≡ table.old.files.items }
    ensures quota { table.new.quota ≡ table.old.quota }
    ensures used { table.new.used ≡ table.old.used }
    ensures room { OnOk result (vec_len table.new.files < vec_capacity table.new.files) }
{
    table.files.reserve(1)?;
    Ok(())
}

/// Puts a file behind the others. There is room for it.
fn add_file(table: &mut TrackTable, file: Filed, used: u32)
    requires { vec_len table.old.files < vec_capacity table.old.files }
    ensures files { table.new.files.items ≡ table.old.files.items ++ file ∷ [] }
    ensures quota { table.new.quota ≡ table.old.quota }
    ensures used { table.new.used ≡ used }
{
    let _ = table.files.push(file);
    table.used = used;
}

/// A new file of mode 1 behind the others.
fn make<F: Medium>(
    alloc: Global,
    table: &mut TrackTable,
    store: &mut TrackStore<'_, F>,
    name: FileName,
    words: &[Word],
) -> Result<(), PortFault>
    requires ready { IsReady (tracked F.Medium store.old) table.old }
    requires absent { (contents : List (List ℕ)) → file_named name (files_on contents table.old.files.items) ≡ None }
    ensures writes { Writes (λ files. if_they_fit table.old.quota (with_new name words.now files)) result
        (tracked F.Medium store.old) (tracked F.Medium store.new) table.old table.new }
    ensures refused { (r : Refusal) → IsErrOf result (PortFault.Refused r)
        → store.new.disk.now ≡ store.old.disk.now }
    ensures same { store.new.disk.ghost_name ≡ store.old.disk.ghost_name }
{
    let after = tracks_for(words.len() as u64);
    let Some(used) = used_after(table.used, table.quota, 0, after) else {
        return Err(PortFault::Refused(Refusal::Quota));
    };
    let Ok(()) = room_for_file(table) else {
        return Err(PortFault::NoMemory);
    };
    let tracks = match rewritten(alloc, store, &[], after as usize, words) {
        Ok(tracks) => tracks,
        Err(StepFault::NoMemory) => return Err(PortFault::NoMemory),
        Err(StepFault::Disk) => return Err(PortFault::Disk),
    };
    let file = Filed {
        name,
        mode: 1,
        words: words.len() as u64,
        tracks,
    };
    add_file(table, file, used);
    Ok(())
}

/// Replaces a file's content. An absent file is made.
pub(crate) fn put_in<F: Medium>(
    alloc: Global,
    table: &mut TrackTable,
    store: &mut TrackStore<'_, F>,
    name: FileName,
    words: &[Word],
) -> Result<(), PortFault>
    requires ready { IsReady (tracked F.Medium store.old) table.old }
    ensures writes { Writes (put name words.now table.old.quota) result
        (tracked F.Medium store.old) (tracked F.Medium store.new) table.old table.new }
    ensures refused { (r : Refusal) → IsErrOf result (PortFault.Refused r)
        → store.new.disk.now ≡ store.old.disk.now }
    ensures same { store.new.disk.ghost_name ≡ store.old.disk.ghost_name }
{
    let Some(at) = table.place(name) else {
        return make(alloc, table, store, name, words);
    };
    replace_in(alloc, table, store, Found { name, at }, words)
}

/// Writes words from a place on. At place 0 an absent file is made.
pub(crate) fn write_in<F: Medium>(
    alloc: Global,
    table: &mut TrackTable,
    store: &mut TrackStore<'_, F>,
    name: FileName,
    place: u64,
    words: &[Word],
) -> Result<(), PortFault>
    requires ready { IsReady (tracked F.Medium store.old) table.old }
    ensures writes { Writes (written name place words.now table.old.quota) result
        (tracked F.Medium store.old) (tracked F.Medium store.new) table.old table.new }
    ensures refused { (r : Refusal) → IsErrOf result (PortFault.Refused r)
        → store.new.disk.now ≡ store.old.disk.now }
    ensures same { store.new.disk.ghost_name ≡ store.old.disk.ghost_name }
{
    let Some(at) = table.place(name) else {
        if place == 0 {
            return make(alloc, table, store, name, words);
        }
        return Err(PortFault::Refused(Refusal::NoFile));
    };
    write_at(alloc, table, store, Found { name, at }, place, words)
}

/// Writes words behind a file's end. An absent file is made.
pub(crate) fn append_in<F: Medium>(
    alloc: Global,
    table: &mut TrackTable,
    store: &mut TrackStore<'_, F>,
    name: FileName,
    words: &[Word],
) -> Result<(), PortFault>
    requires ready { IsReady (tracked F.Medium store.old) table.old }
    ensures writes { Writes (appended name words.now table.old.quota) result
        (tracked F.Medium store.old) (tracked F.Medium store.new) table.old table.new }
    ensures refused { (r : Refusal) → IsErrOf result (PortFault.Refused r)
        → store.new.disk.now ≡ store.old.disk.now }
    ensures same { store.new.disk.ghost_name ≡ store.old.disk.ghost_name }
{
    let Some(at) = table.place(name) else {
        return make(alloc, table, store, name, words);
    };
    let end = table.files[at].words;
    write_at(alloc, table, store, Found { name, at }, end, words)
}
