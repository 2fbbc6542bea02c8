//! A directory whose files lie on tracks.
ghost use Rattle.std.specs.Prelude.{◌≡◌, ◌<◌, ℕ, List, [], length, is_some, None, MatchOption};
ghost use Rattle.file_model.specs.Files.{file_named};
ghost use Rattle.file_tracks.specs.Stored.{IsAt, files_on};

use ctss_types::FileName;
use std::alloc::Global;

/// A file: its names, its mode 0 to 3, how many words it has, and its tracks in order. What stands on its last track
/// behind its words is no part of it.
#[derive(Drop)]
pub struct Filed {
    pub name: FileName,
    pub mode: u8,
    pub words: u64,
    pub tracks: Vec<u16>,
}

/// A directory's files in order of making, with its quota and how many tracks are in use.
#[derive(Drop)]
pub struct TrackTable {
    pub files: Vec<Filed>,
    pub quota: u16,
    pub used: u32,
}

/// The place of the file of a name.
#[tactic(auto, using(crate::proofs::Found::named_more, crate::proofs::Found::named_none))]
fn find(files: &[Filed], name: FileName) -> Option<usize>
    ensures { MatchOption result
        ((contents : List (List ℕ)) → file_named name (files_on contents files.now) ≡ None)
        (λ i. (i < length files.now) × IsAt name i files.now) }
{
    'finding: for at in 0..files.len() {
        if files[at].name == name {
            return Some(at);
        }
    }
    None
}

impl TrackTable {
    /// A directory without files.
    pub fn new(alloc: Global, quota: u16) -> TrackTable
        ensures files { result.files.items ≡ [] }
        ensures quota { result.quota ≡ quota }
        ensures used { result.used ≡ 0 }
    {
        TrackTable {
            files: Vec::new(alloc),
            quota,
            used: 0,
        }
    }

    /// The place of the file of a name.
    pub(crate) fn place(&self, name: FileName) -> Option<usize>
        ensures { MatchOption result
            ((contents : List (List ℕ)) → file_named name (files_on contents self.now.files.items) ≡ None)
            (λ i. (i < length self.now.files.items) × IsAt name i self.now.files.items) }
    {
        find(&self.files, name)
    }

    /// Whether there is a file of a name.
    pub(crate) fn has(&self, name: FileName) -> bool
        ensures { (contents : List (List ℕ)) → result
            ≡ is_some (file_named name (files_on contents self.now.files.items)) }
    {
        self.place(name).is_some()
    }
}
