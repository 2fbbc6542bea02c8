//! A directory on tracks, as a port.
ghost use Rattle.std.specs.Prelude.{◌≡◌, ◌<◌, ◌^◌, true, false, length, IfOk, IsErrOf};
ghost use Rattle.faults.specs.Faults.{Rose};
ghost use Rattle.file_model.specs.Files.{got, read};
ghost use Rattle.file_map.specs.Known.{AnswersOver};
ghost use Rattle.file_tracks.specs.Ported.{files_in, tells_in, calls_in, faults_in, StaysUsable, GaveFirst, GavePart};
ghost use Rattle.file_tracks.specs.Ported.{Usable as Sound, Keeps as Stands};

use crate::deleting::delete_in;
use crate::naming::{chmode_in, rename_in};
use crate::reading::{get_in, list_in, read_in, stat_in};
use crate::table::TrackTable;
use crate::writing::{append_in, put_in, write_in};
use ctss_types::{FileName, WordList};
use file_map::{FilePort, Listing, PortFault};
use file_model::Stat;
use medium::Medium;
use std::alloc::Global;
use track_store::TrackStore;
use word36::Word;

/// A directory on tracks: its table, and the store of the disk's tracks, both lent.
///
/// A call that writes tests the definition's refusals first, then takes its memory, and then calls the disk; so a
/// refused call makes no call of the disk. As long as none has failed there, the tracks that stand elsewhere are as
/// they were.
#[derive(Drop)]
pub struct TrackPort<'a, 'd, F: Medium> {
    pub alloc: Global,
    pub table: &'a mut TrackTable,
    pub store: &'a mut TrackStore<'d, F>,
    /// Whether a call has failed at the disk: not at first.
    pub has_failed: bool,
}

/// Whether a call failed at the disk.
fn is_disk<T>(answer: &Result<T, PortFault>) -> bool
    ensures yes { result ≡ true → IsErrOf answer.now PortFault.Disk }
    ensures no { result ≡ false → ¬ IsErrOf answer.now PortFault.Disk }
{
    matches!(answer, Err(PortFault::Disk))
}

impl<F: Medium> FilePort for TrackPort<'_, '_, F> {
    ghost use Rattle.std.specs.Prelude.{◌≡◌, refl};
    ghost use Rattle.std.proofs.Common.{◌∙◌};
    ghost use Rattle.file_tracks.specs.Seen.{seen_is_known};
    ghost use Rattle.file_tracks.specs.Kept.{goes_stays, goes_both};
    ghost use Rattle.file_tracks.specs.Ported.{files_in, tells_in, faults_in, Usable as Sound, Keeps as Stands};

    ghost files = { λ p. files_in F.Medium p };

    ghost quota = { λ p. p.table.now.quota };

    ghost tells = { λ p. tells_in F.Medium p };

    ghost faults = { λ p. faults_in F.Medium p };

    ghost Usable = { λ p. Sound F.Medium p };

    ghost Keeps = { λ a b. Stands F.Medium a b };

    fn stat(&self, name: FileName) -> Result<Stat, PortFault> {
        stat_in(self.table, name)
    }

    fn read(&mut self, name: FileName, place: u64, count: u16) -> Result<WordList, PortFault>
        requires usable { Sound F.Medium self.old }
        ensures answer { AnswersOver (tells_in F.Medium self.old) (files_in F.Medium self.old) result
            (read name place count) }
        ensures stays { StaysUsable F.Medium result self.old self.new }
        ensures keeps { Stands F.Medium self.old self.new }
        ensures cause { IsErrOf result PortFault.Disk
            → Rose (faults_in F.Medium self.old) (faults_in F.Medium self.new) }

        // The words are those that the disk's reads gave in this call.
        ensures gave { IfOk result (GavePart place (calls_in F.Medium self.old) (calls_in F.Medium self.new)) }
    {
        let answer = read_in(self.alloc, self.table, self.store, name, place, count);
        self.has_failed = is_disk(&answer);
        answer
    }

    fn get(&mut self, name: FileName) -> Result<WordList, PortFault>
        requires usable { Sound F.Medium self.old }
        ensures answer { AnswersOver (tells_in F.Medium self.old) (files_in F.Medium self.old) result (got name) }
        ensures bound { IfOk result (λ words. length words < 2 ^ 32) }
        ensures stays { StaysUsable F.Medium result self.old self.new }
        ensures keeps { Stands F.Medium self.old self.new }
        ensures cause { IsErrOf result PortFault.Disk
            → Rose (faults_in F.Medium self.old) (faults_in F.Medium self.new) }

        // The words are those that the disk's reads gave in this call.
        ensures gave { IfOk result (GaveFirst (calls_in F.Medium self.old) (calls_in F.Medium self.new)) }
    {
        let answer = get_in(self.alloc, self.table, self.store, name);
        self.has_failed = is_disk(&answer);
        answer
    }

    fn write(&mut self, name: FileName, place: u64, words: &[Word]) -> Result<(), PortFault> {
        let answer = write_in(self.alloc, self.table, self.store, name, place, words);
        self.has_failed = is_disk(&answer);
        answer
    }

    fn append(&mut self, name: FileName, words: &[Word]) -> Result<(), PortFault> {
        let answer = append_in(self.alloc, self.table, self.store, name, words);
        self.has_failed = is_disk(&answer);
        answer
    }

    fn put(&mut self, name: FileName, words: &[Word]) -> Result<(), PortFault> {
        let answer = put_in(self.alloc, self.table, self.store, name, words);
        self.has_failed = is_disk(&answer);
        answer
    }

    fn rename(&mut self, name: FileName, to: FileName) -> Result<(), PortFault> {
        rename_in(self.table, name, to)
    }

    fn delete(&mut self, name: FileName) -> Result<(), PortFault> {
        delete_in(self.table, self.store, name)
    }

    fn chmode(&mut self, name: FileName, mode: u8) -> Result<(), PortFault> {
        chmode_in(self.table, name, mode)
    }

    fn list(&self) -> Result<Listing, PortFault> {
        list_in(self.alloc, self.table)
    }

    fn quota(&self) -> u16 {
        self.table.quota
    }

    fn tracks(&self) -> u32 {
        self.table.used
    }

    fn drop_temporary(&mut self) {
        self.table.drop_temporary(self.store);
    }

    ghost is_known = { λ a usable. seen_is_known (F.contents a.store.now.disk.now) a.table.now.files.items };

    ghost stays = { λ a. (
      refl,
      refl,
      refl,
      goes_stays (F.contents a.store.now.disk.now) a.store.now.tracks.taken.items (F.faults a.store.now.disk.now)
          a.table.now a.has_failed,
    ) };

    ghost goes_on = { λ a b c one two. (one.0 ∙ two.0, one.1 ∙ two.1, one.2 ∙ two.2, goes_both one.3 two.3) };

    ghost same_quota = { λ a b keeps. keeps.3.quota };

    ghost rises = { λ a b keeps. keeps.3.rises };
}
