//! Calls on a directory that leave its files as they are.
ghost use Rattle.std.specs.Prelude.{◌≡◌, ◌<◌, ◌≤◌, ◌++◌, ◌^◌, ◌%◌, ℕ, List, length, map, take, drop, None, Ok, IfOk, IsErrOf};
ghost use Rattle.std.specs.List.{All};
ghost use Rattle.file_model.specs.Files.{stat, read, got};
ghost use Rattle.file_map.specs.Answers.{Answers};
ghost use Rattle.file_map.specs.Listing.{listing_of};
ghost use Rattle.track_store.specs.Words.{Gave};
ghost use Rattle.file_tracks.specs.Stored.{files_on, row_for, HasTracks, IsWhole, MayBe};
ghost use Rattle.file_tracks.specs.Directories.{IsOne};
ghost use Rattle.file_tracks.specs.Tracked.{tracked, IsReady, KeepsTracks};

use crate::spans::read_span;
use crate::table::{Filed, TrackTable};
use crate::words::{as_words, is_past};
use ctss_types::{FileName, NoMemory, Refusal, Sequence, StepFault, WordList};
use file_map::{Listing, ListingRow, PortFault};
use file_model::Stat;
use medium::Medium;
use std::alloc::Global;
use track_store::TrackStore;

/// How many words a file has, and its mode.
pub(crate) fn stat_in(table: &TrackTable, name: FileName) -> Result<Stat, PortFault>
    requires sound { IsOne None table.now }
    ensures answer { (contents : List (List ℕ)) → All (IsWhole contents) table.now.files.items
        → Answers result (stat name (files_on contents table.now.files.items)) }
    ensures mode { IfOk result (λ s. s.mode ≤ 3) }
    ensures words { IfOk result (λ s. s.words < 2 ^ 32) }
    ensures disk { ¬ IsErrOf result PortFault.Disk }
    ensures memory { ¬ IsErrOf result PortFault.NoMemory }
{
    // The quota is read for its range, which bounds a file's words.
    let _quota = table.quota;
    let Some(at) = table.place(name) else {
        return Err(PortFault::Refused(Refusal::NoFile));
    };
    let file = &table.files[at];
    Ok(Stat {
        words: file.words,
        mode: file.mode,
    })
}

/// All words of a file.
#[tactic(auto, using(crate::proofs::Found::all_taken))]
pub(crate) fn get_in<F: Medium>(
    alloc: Global,
    table: &TrackTable,
    store: &mut TrackStore<'_, F>,
    name: FileName,
) -> Result<WordList, PortFault>
    requires ready { IsReady (tracked F.Medium store.old) table.now }
    ensures any { (contents : List (List ℕ)) × (MayBe (F.contents store.old.disk.now) contents
        × (All (IsWhole contents) table.now.files.items
        × Answers result (got name (files_on contents table.now.files.items)))) }
    ensures bound { IfOk result (λ words. length words < 2 ^ 32) }
    ensures gave { IfOk result (λ ws. (more : List ℕ)
        × Gave (F.calls store.old.disk.now) (F.calls store.new.disk.now) (ws ++ more)) }
    ensures keeps { KeepsTracks F.Medium (IsErrOf result PortFault.Disk) store.old store.new }
    ensures contents { ¬ IsErrOf result PortFault.Disk → F.contents store.new.disk.now ≡ F.contents store.old.disk.now }
{
    let Some(at) = table.place(name) else {
        return Err(PortFault::Refused(Refusal::NoFile));
    };
    let file = &table.files[at];
    let span = match read_span(alloc, store, &file.tracks) {
        Ok(span) => span,
        Err(StepFault::NoMemory) => return Err(PortFault::NoMemory),
        Err(StepFault::Disk) => return Err(PortFault::Disk),
    };
    let len = span.len().min(file.words as usize);
    let Ok(words) = as_words(alloc, &span[..len]) else {
        return Err(PortFault::NoMemory);
    };
    Ok(Sequence::from_vec(words))
}

/// So many words of a file from a place on.
pub(crate) fn read_in<F: Medium>(
    alloc: Global,
    table: &TrackTable,
    store: &mut TrackStore<'_, F>,
    name: FileName,
    place: u64,
    count: u16,
) -> Result<WordList, PortFault>
    requires ready { IsReady (tracked F.Medium store.old) table.now }
    ensures any { (contents : List (List ℕ)) × (MayBe (F.contents store.old.disk.now) contents
        × (All (IsWhole contents) table.now.files.items
        × Answers result (read name place count (files_on contents table.now.files.items)))) }
    ensures gave { IfOk result (λ ws. (d : List ℕ)
        × (Gave (F.calls store.old.disk.now) (F.calls store.new.disk.now) d
        × (ws ≡ take count (drop (place % 432) d)))) }
    ensures len { IfOk result (λ ws. length ws ≡ count) }
    ensures keeps { KeepsTracks F.Medium (IsErrOf result PortFault.Disk) store.old store.new }
    ensures contents { ¬ IsErrOf result PortFault.Disk → F.contents store.new.disk.now ≡ F.contents store.old.disk.now }
{
    let Some(at) = table.place(name) else {
        return Err(PortFault::Refused(Refusal::NoFile));
    };
    let file = &table.files[at];
    if is_past(place, count, file.words) {
        return Err(PortFault::Refused(Refusal::PastEnd));
    }
    let end = place + u64::from(count);
    let from = (place / 432) as usize;
    let to = end.div_ceil(432) as usize;
    let span = match read_span(alloc, store, &file.tracks[from..to]) {
        Ok(span) => span,
        Err(StepFault::NoMemory) => return Err(PortFault::NoMemory),
        Err(StepFault::Disk) => return Err(PortFault::Disk),
    };
    let first = (place % 432) as usize;
    let Ok(words) = as_words(alloc, &span[first..first + count as usize]) else {
        return Err(PortFault::NoMemory);
    };
    Ok(Sequence::from_vec(words))
}

/// A row for each of these files.
fn rows_for(alloc: Global, files: &[Filed]) -> Result<Listing, NoMemory>
    ensures { IfOk result (λ rows. rows ≡ map row_for files.now) }
{
    let mut rows = Sequence::new(alloc);
    for file in files {
        rows.push(ListingRow {
            name: file.name,
            mode: file.mode,
            words: file.words,
        })?;
    }
    Ok(rows)
}

/// A row for each file, in order.
pub(crate) fn list_in(alloc: Global, table: &TrackTable) -> Result<Listing, PortFault>
    requires { All HasTracks table.now.files.items }
    ensures answer { (contents : List (List ℕ)) → All (IsWhole contents) table.now.files.items
        → Answers result (Ok (listing_of (files_on contents table.now.files.items))) }
    ensures disk { ¬ IsErrOf result PortFault.Disk }
{
    let Ok(rows) = rows_for(alloc, &table.files) else {
        return Err(PortFault::NoMemory);
    };
    Ok(rows)
}
