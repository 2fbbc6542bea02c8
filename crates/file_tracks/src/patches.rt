//! Tracks of a file that are given back, taken and written.
ghost use Rattle.std.specs.Prelude.{◌≡◌, ◌≤◌, ◌+◌, ◌-◌, ◌*◌, ◌++◌, ◌^◌, ◌<◌, ℕ, length, true, take, replicate, IfOk, IsErrOf};
ghost use Rattle.std.specs.List.{All};
ghost use Rattle.faults.specs.Faults.{WhereTold};
ghost use Rattle.medium.specs.Medium.{AreWords};
ghost use Rattle.file_model.specs.Files.{overwritten};
ghost use Rattle.track_store.specs.Tracks.{is_taken};
ghost use Rattle.track_store.specs.Words.{tracks_joined};
ghost use Rattle.file_tracks.specs.Tracked.{tracked, IsServed, KeepsTracks, Retakes};
ghost use Rattle.file_tracks.specs.Written.{CanRetake, AreRetaken, AreWritten, FitsOver, AreWrittenOver};

use crate::spans::{give_all, read_span, take_more, write_span};
use crate::words::{copied, overlay, padded, room_for_tracks};
use ctss_types::StepFault;
use medium::Medium;
use std::alloc::Global;
use track_store::TrackStore;
use word36::Word;

/// Gives tracks back, and takes so many, into which words are written with zeros behind them. Where memory lacks,
/// nothing is done.
#[tactic(auto, using(crate::proofs::Found::all_taken))]
pub(crate) fn rewritten<F: Medium>(
    alloc: Global,
    store: &mut TrackStore<'_, F>,
    old: &[u16],
    tracks: usize,
    words: &[Word],
) -> Result<Vec<u16>, StepFault>
    requires can { CanRetake store.old.tracks.taken.items old.now tracks }
    requires fits { length words.now ≤ 432 * tracks }
    requires small { 432 * tracks < 2 ^ 64 }
    requires serves { IsServed (tracked F.Medium store.old) }
    ensures store { Retakes F.Medium result store.old store.new }
    ensures retaken { IfOk result (λ v. AreRetaken store.old.tracks.taken.items store.new.tracks.taken.items
        old.now v.items tracks) }
    ensures written { IfOk result (λ v. AreWritten words.now v.items
        (F.contents store.old.disk.now) (F.contents store.new.disk.now)) }
{
    let bits = padded(alloc, words, tracks)?;
    let mut fresh = room_for_tracks(alloc, tracks)?;
    give_all(store, old);
    take_more(store, &mut fresh, tracks);
    let Ok(()) = write_span(store, &fresh, &bits) else {
        return Err(StepFault::Disk);
    };
    Ok(fresh)
}

/// The words of these tracks, with zeros behind them up to so many tracks, and words written over them from a place on.
fn patched<F: Medium>(
    alloc: Global,
    store: &mut TrackStore<'_, F>,
    tracks: &[u16],
    count: usize,
    place: usize,
    words: &[Word],
) -> Result<Vec<u64>, StepFault>
    requires taken { All (λ t. is_taken store.old.tracks.taken.items t ≡ true) tracks.now }
    requires serves { IsServed (tracked F.Medium store.old) }
    requires over { FitsOver place words.now tracks.now count }
    ensures keeps { KeepsTracks F.Medium (IsErrOf result StepFault.Disk) store.old store.new }
    ensures contents { ¬ IsErrOf result StepFault.Disk → F.contents store.new.disk.now ≡ F.contents store.old.disk.now }
    ensures words { IfOk result (λ v. AreWords v.items) }
    ensures len { IfOk result (λ v. length v.items ≡ 432 * count) }
    ensures told { IfOk result (λ v. WhereTold (F.contents store.old.disk.now) (λ contents.
        v.items ≡ overwritten place words.now
        (tracks_joined contents tracks.now ++ replicate (432 * count - 432 * length tracks.now) 0))) }
{
    let mut span = read_span(alloc, store, tracks)?;
    if span.resize(432 * count, 0).is_err() {
        return Err(StepFault::NoMemory);
    }
    overlay(&mut span, place, words);
    Ok(span)
}

/// These tracks and more behind them, so many together, with words written from a place on over what they held, or over
/// zeros.
#[tactic(auto, using(crate::proofs::Writes::part_taken))]
pub(crate) fn written_over<F: Medium>(
    alloc: Global,
    store: &mut TrackStore<'_, F>,
    tracks: &[u16],
    after: usize,
    place: u64,
    words: &[Word],
) -> Result<Vec<u16>, StepFault>
    requires can { CanRetake store.old.tracks.taken.items tracks.now after }
    requires over { FitsOver place words.now tracks.now after }
    requires place { place ≤ 432 * length tracks.now }
    requires serves { IsServed (tracked F.Medium store.old) }
    ensures store { Retakes F.Medium result store.old store.new }
    ensures retaken { IfOk result (λ v. AreRetaken store.old.tracks.taken.items store.new.tracks.taken.items
        tracks.now v.items after) }
    ensures front { IfOk result (λ v. take (length tracks.now) v.items ≡ tracks.now) }
    ensures written { IfOk result (λ v. AreWrittenOver place words.now tracks.now v.items
        (F.contents store.old.disk.now) (F.contents store.new.disk.now)) }
{
    let from = (place / 432) as usize;
    let to = (place + words.len() as u64).div_ceil(432) as usize;
    let kept = to.min(tracks.len());
    let first = place as usize - 432 * from;
    let mut all = copied(alloc, tracks, after)?;
    let patch = patched(alloc, store, &tracks[from..kept], to - from, first, words)?;
    take_more(store, &mut all, after - tracks.len());
    let Ok(()) = write_span(store, &all[from..to], &patch) else {
        return Err(StepFault::Disk);
    };
    Ok(all)
}
