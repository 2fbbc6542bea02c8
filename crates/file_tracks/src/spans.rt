//! Words of several tracks at once, and tracks taken and given back.
ghost use Rattle.std.specs.Prelude.{◌≡◌, ◌<◌, ◌≤◌, ◌+◌, ◌*◌, ◌++◌, ◌∷◌, [], ℕ, length, true, take, replicate, vec_len, vec_capacity, IfOk, OnOk, IsErr, IsErrOf};
ghost use Rattle.std.specs.List.{All};
ghost use Rattle.faults.specs.Faults.{WhereTold};
ghost use Rattle.medium.specs.Medium.{AreWords};
ghost use Rattle.track_store.specs.Tracks.{count_taken, is_taken};
ghost use Rattle.track_store.specs.Words.{tracks_joined, with_words, Gave};
ghost use Rattle.file_tracks.specs.Places.{count_in, bit};
ghost use Rattle.file_tracks.specs.Tracked.{tracked, IsServed, KeepsTracks};
ghost use Rattle.file_tracks.specs.Written.{AreRetaken};

use ctss_types::StepFault;
use medium::Medium;
use std::alloc::Global;
use track_store::{DiskFault, TrackStore};

/// Room for so many words.
fn room_for(alloc: Global, words: usize) -> Result<Vec<u64>, StepFault>
    ensures items { IfOk result (λ v. v.items ≡ []) }
    ensures err { ¬ IsErrOf result StepFault.Disk }
{
    match Vec::with_capacity(alloc, words) {
        Ok(v) => Ok(v),
        Err(_) => Err(StepFault::NoMemory),
    }
}

/// So many zeros.
fn zeros(alloc: Global, count: usize) -> Result<Vec<u64>, StepFault>
    ensures items { IfOk result (λ v. v.items ≡ replicate count 0) }
    ensures err { ¬ IsErrOf result StepFault.Disk }
{
    match vec![in alloc; 0u64; count] {
        Ok(v) => Ok(v),
        Err(_) => Err(StepFault::NoMemory),
    }
}

fn push_all(words: &mut Vec<u64>, from: &[u64]) -> Result<(), StepFault>
    ensures items { OnOk result (words.new.items ≡ words.old.items ++ from.now) }
    ensures err { ¬ IsErrOf result StepFault.Disk }
{
    if words.extend_from_slice(from).is_err() {
        return Err(StepFault::NoMemory);
    }
    Ok(())
}

/// The words of these tracks, one after another.
#[tactic(auto, using(crate::proofs::Gives::gave_none, crate::proofs::Gives::gave_more))]
pub(crate) fn read_span<F: Medium>(
    alloc: Global,
    store: &mut TrackStore<'_, F>,
    tracks: &[u16],
) -> Result<Vec<u64>, StepFault>
    requires taken { All (λ t. is_taken store.old.tracks.taken.items t ≡ true) tracks.now }
    requires serves { IsServed (tracked F.Medium store.old) }
    ensures keeps { KeepsTracks F.Medium (IsErrOf result StepFault.Disk) store.old store.new }
    ensures contents { ¬ IsErrOf result StepFault.Disk → F.contents store.new.disk.now ≡ F.contents store.old.disk.now }
    ensures words { IfOk result (λ words. AreWords words.items) }
    ensures len { IfOk result (λ words. length words.items ≡ 432 * length tracks.now) }
    ensures given { IfOk result (λ words. WhereTold (F.contents store.old.disk.now)
        (λ contents. words.items ≡ tracks_joined contents tracks.now)) }
    ensures gave { IfOk result (λ words. Gave (F.calls store.old.disk.now) (F.calls store.new.disk.now) words.items) }
{
    let mut track_words = zeros(alloc, 432)?;
    let buffer = track_words.as_mut_slice();
    let mut words = room_for(alloc, 0)?;
    'reading: for track in tracks {
        let Ok(()) = store.read_track(*track, buffer) else {
            return Err(StepFault::Disk);
        };
        push_all(&mut words, buffer)?;
    }
    Ok(words)
}

/// Writes words into these tracks, 432 each.
#[tactic(auto, using(crate::proofs::Gives::with_words_more))]
pub(crate) fn write_span<F: Medium>(
    store: &mut TrackStore<'_, F>,
    tracks: &[u16],
    words: &[u64],
) -> Result<(), DiskFault>
    requires taken { All (λ t. is_taken store.old.tracks.taken.items t ≡ true) tracks.now }
    requires whole { length words.now ≡ 432 * length tracks.now }
    requires words { AreWords words.now }
    requires serves { IsServed (tracked F.Medium store.old) }
    ensures keeps { KeepsTracks F.Medium (IsErr result) store.old store.new }
    ensures contents { OnOk result (F.contents store.new.disk.now
        ≡ with_words (F.contents store.old.disk.now) tracks.now words.now) }
{
    'writing: for i in 0..tracks.len() {
        let from = 432 * i;
        if store
            .write_track(tracks[i], &words[from..from + 432])
            .is_err()
        {
            return Err(DiskFault);
        }
    }
    Ok(())
}

/// Takes so many tracks more. There is room for them, on the disk and in the list.
pub(crate) fn take_more<F: Medium>(
    store: &mut TrackStore<'_, F>,
    tracks: &mut Vec<u16>,
    count: usize,
)
    requires room { vec_len tracks.old + count ≤ vec_capacity tracks.old }
    requires free { count_taken store.old.tracks.taken.items + count ≤ length store.old.tracks.taken.items }
    ensures same { store.new.disk.ghost_name ≡ store.old.disk.ghost_name }
    ensures now { store.new.disk.now ≡ store.old.disk.now }
    ensures many { length store.new.tracks.taken.items ≡ length store.old.tracks.taken.items }
    ensures front { take (length tracks.old.items) tracks.new.items ≡ tracks.old.items }
    ensures more { AreRetaken store.old.tracks.taken.items store.new.tracks.taken.items
        tracks.old.items tracks.new.items (length tracks.old.items + count) }
{
    'taking: for _k in 0..count {
        take_one(store, tracks);
    }
}

/// Takes a track more.
#[tactic(auto, using(crate::proofs::Bits::bits_taken))]
fn take_one<F: Medium>(store: &mut TrackStore<'_, F>, tracks: &mut Vec<u16>)
    requires room { vec_len tracks.old < vec_capacity tracks.old }
    requires free { count_taken store.old.tracks.taken.items < length store.old.tracks.taken.items }
    ensures same { store.new.disk.ghost_name ≡ store.old.disk.ghost_name }
    ensures now { store.new.disk.now ≡ store.old.disk.now }
    ensures many { length store.new.tracks.taken.items ≡ length store.old.tracks.taken.items }
    ensures capacity { vec_capacity tracks.old ≤ vec_capacity tracks.new }
    ensures front { (t : ℕ) × (tracks.new.items ≡ tracks.old.items ++ t ∷ []) }
    ensures more { AreRetaken store.old.tracks.taken.items store.new.tracks.taken.items
        tracks.old.items tracks.new.items (length tracks.old.items + 1) }
{
    let Ok(track) = store.take() else {
        unreachable!()
    };
    let _ = tracks.push(track);
}

/// Gives these tracks back.
pub(crate) fn give_all<F: Medium>(store: &mut TrackStore<'_, F>, tracks: &[u16])
    requires bits { (t : ℕ) → count_in t tracks.now ≤ bit store.old.tracks.taken.items t }
    ensures same { store.new.disk.ghost_name ≡ store.old.disk.ghost_name }
    ensures now { store.new.disk.now ≡ store.old.disk.now }
    ensures many { length store.new.tracks.taken.items ≡ length store.old.tracks.taken.items }
    ensures counts { count_taken store.new.tracks.taken.items + length tracks.now
        ≡ count_taken store.old.tracks.taken.items }
    ensures bits { (t : ℕ) → count_in t tracks.now + bit store.new.tracks.taken.items t
        ≡ bit store.old.tracks.taken.items t }
{
    'giving: for track in tracks {
        give_one(store, *track);
    }
}

/// Gives a track back.
#[tactic(auto, using(crate::proofs::Bits::bits_given))]
fn give_one<F: Medium>(store: &mut TrackStore<'_, F>, track: u16)
    requires taken { bit store.old.tracks.taken.items track ≡ 1 }
    ensures same { store.new.disk.ghost_name ≡ store.old.disk.ghost_name }
    ensures now { store.new.disk.now ≡ store.old.disk.now }
    ensures many { length store.new.tracks.taken.items ≡ length store.old.tracks.taken.items }
    ensures counts { count_taken store.new.tracks.taken.items + 1 ≡ count_taken store.old.tracks.taken.items }
    ensures bits { (t : ℕ) → count_in t (track ∷ []) + bit store.new.tracks.taken.items t
        ≡ bit store.old.tracks.taken.items t }
{
    store.give(track);
}
