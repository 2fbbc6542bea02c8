//! All files of a directory, with their words.
ghost use Rattle.std.specs.Prelude.{◌≡◌, true, IfOk, IsErrOf};
ghost use Rattle.std.specs.List.{All};
ghost use Rattle.faults.specs.Faults.{WhereTold};
ghost use Rattle.track_store.specs.Tracks.{is_taken};
ghost use Rattle.file_tracks.specs.Stored.{body_on, files_on, HasTracks};
ghost use Rattle.file_tracks.specs.Tracked.{tracked, IsServed, IsOn, KeepsTracks};

use crate::spans::read_span;
use crate::table::{Filed, TrackTable};
use crate::words::as_words;
use ctss_types::{FileBody, FileList, Sequence, StepFault};
use medium::Medium;
use std::alloc::Global;
use track_store::TrackStore;

/// A file with all its words.
fn read_file<F: Medium>(
    alloc: Global,
    file: &Filed,
    store: &mut TrackStore<'_, F>,
) -> Result<FileBody, StepFault>
    requires taken { All (λ t. is_taken store.old.tracks.taken.items t ≡ true) file.now.tracks.items }
    requires tracks { HasTracks file.now }
    requires serves { IsServed (tracked F.Medium store.old) }
    ensures file { WhereTold (F.contents store.old.disk.now)
        (λ contents. IfOk result (λ f. f ≡ body_on contents file.now)) }
    ensures keeps { KeepsTracks F.Medium (IsErrOf result StepFault.Disk) store.old store.new }
    ensures contents { ¬ IsErrOf result StepFault.Disk → F.contents store.new.disk.now ≡ F.contents store.old.disk.now }
{
    let span = read_span(alloc, store, &file.tracks)?;
    let len = span.len().min(file.words as usize);
    let words = as_words(alloc, &span[..len])?;
    Ok(FileBody {
        name: file.name,
        mode: file.mode,
        words: Sequence::from_vec(words),
    })
}

impl TrackTable {
    /// All files with their words, in order of making: each track is read once.
    pub fn read_all<F: Medium>(
        &self,
        alloc: Global,
        store: &mut TrackStore<'_, F>,
    ) -> Result<FileList, StepFault>
        requires usable { IsOn (tracked F.Medium store.old) self.now }
        requires serves { IsServed (tracked F.Medium store.old) }
        ensures files { WhereTold (F.contents store.old.disk.now)
            (λ contents. IfOk result (λ files. files ≡ files_on contents self.now.files.items)) }
        ensures keeps { KeepsTracks F.Medium (IsErrOf result StepFault.Disk) store.old store.new }
        ensures contents { ¬ IsErrOf result StepFault.Disk
            → F.contents store.new.disk.now ≡ F.contents store.old.disk.now }
    {
        let mut files = Sequence::new(alloc);
        'reading: for file in &self.files {
            files.push(read_file(alloc, file, store)?)?;
        }
        Ok(files)
    }
}
