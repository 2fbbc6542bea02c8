//! The words of a disk's tracks, and which tracks are taken.
ghost use Rattle.std.specs.Prelude.{◌≡◌, ◌<◌, ◌+◌, length, true, false, replicate, slice_set, IfOk, OnOk, OnErr};
ghost use Rattle.medium.specs.Medium.{AreWords};
ghost use Rattle.track_store.specs.Calls.{IsServed, ReadsTrack, WritesTrack};
ghost use Rattle.track_store.specs.Tracks.{count_taken, is_taken, ServesTracks};

use crate::tracks::{NoTrack, Tracks};
use faults::NoMemory;
use medium::{Failed, Medium};
use std::alloc::Global;
use std::error::Error;
use std::fmt;

/// A call of the disk failed.
#[derive(Clone, Copy, Debug, PartialEq, Eq, Hash)]
pub struct DiskFault;

impl fmt::Display for DiskFault {
    ghost use Rattle.std.specs.Prelude.{Some, codes};

    ghost output = { λ _. Some (codes "the disk failed") };

    fn fmt<W: fmt::Write>(&self, f: &mut fmt::Formatter<W>) -> fmt::Result {
        f.write_str("the disk failed")
    }
}

impl Error for DiskFault {}

impl From<Failed> for DiskFault {
    fn from(_: Failed) -> DiskFault {
        DiskFault
    }
}

/// Tracks of 432 words on the first records of a disk, which are numbered from 0. Each is free or taken.
///
/// A call of the disk is made only to read or to write a track.
#[derive(Drop)]
pub struct TrackStore<'a, F: Medium> {
    disk: &'a mut F,
    tracks: Tracks,
}

impl<'a, F: Medium> TrackStore<'a, F> {
    /// So many tracks of a disk, all free.
    ///
    /// After an error the clauses say nothing of the disk. Where that matters, make `Tracks` first and then the
    /// store with `over`.
    pub fn new(alloc: Global, disk: &'a mut F, tracks: u16) -> Result<TrackStore<'a, F>, NoMemory>
        requires serves { ServesTracks (F.contents disk.old) (F.record_count disk.old) (F.words_each disk.old) tracks }
        ensures same { IfOk result (λ s. s.disk.ghost_name ≡ disk.entry.ghost_name) }
        ensures now { IfOk result (λ s. s.disk.now ≡ disk.old) }
        ensures taken { IfOk result (λ s. s.tracks.taken.items ≡ replicate tracks false) }
    {
        let tracks = Tracks::new(alloc, tracks)?;
        Ok(TrackStore::over(disk, tracks))
    }

    /// Tracks that were made before, on a disk.
    pub fn over(disk: &'a mut F, tracks: Tracks) -> TrackStore<'a, F>
        ensures same { result.disk.ghost_name ≡ disk.entry.ghost_name }
        ensures now { result.disk.now ≡ disk.old }
        ensures tracks { result.tracks ≡ tracks }
    {
        TrackStore { disk, tracks }
    }

    /// Ends the store and gives the disk back.
    pub fn back(self) -> &'a mut F
        ensures same { result.ghost_name ≡ self.entry.disk.ghost_name }
        ensures now { result.now ≡ self.entry.disk.now }
    {
        let TrackStore { disk, tracks } = self;
        drop(tracks);
        disk
    }

    /// Takes the first free track, whose words are those that stand there.
    pub fn take(&mut self) -> Result<u16, NoTrack>
        ensures same { self.new.disk.ghost_name ≡ self.old.disk.ghost_name }
        ensures now { self.new.disk.now ≡ self.old.disk.now }
        ensures inside { IfOk result (λ t. t < length self.old.tracks.taken.items) }
        ensures free { IfOk result (λ t. is_taken self.old.tracks.taken.items t ≡ false) }
        ensures taken { IfOk result (λ t. self.new.tracks.taken.items ≡ slice_set self.old.tracks.taken.items t true) }
        ensures count { OnOk result (count_taken self.new.tracks.taken.items
            ≡ count_taken self.old.tracks.taken.items + 1) }
        ensures full { OnErr result (count_taken self.old.tracks.taken.items ≡ length self.old.tracks.taken.items) }
        ensures err { OnErr result (self.new.tracks ≡ self.old.tracks) }
    {
        self.tracks.take()
    }

    /// Gives a track back. Its words stay.
    pub fn give(&mut self, track: u16)
        requires { is_taken self.old.tracks.taken.items track ≡ true }
        ensures same { self.new.disk.ghost_name ≡ self.old.disk.ghost_name }
        ensures now { self.new.disk.now ≡ self.old.disk.now }
        ensures taken { self.new.tracks.taken.items ≡ slice_set self.old.tracks.taken.items track false }
        ensures count { count_taken self.old.tracks.taken.items ≡ count_taken self.new.tracks.taken.items + 1 }
    {
        self.tracks.give(track);
    }

    /// Reads a track that is taken. After a fault its words are unknown.
    #[tactic(auto, using(crate::proofs::Taken::taken_below))]
    pub fn read_track(&mut self, track: u16, into: &mut [u64]) -> Result<(), DiskFault>
        requires taken { is_taken self.old.tracks.taken.items track ≡ true }
        requires whole { length into.old ≡ 432 }
        requires words { AreWords into.old }
        requires serves { IsServed F.Medium self.old }
        ensures { ReadsTrack F.Medium track into.new result self.old self.new }
    {
        self.disk.read(track, into)?;
        Ok(())
    }

    /// Writes a track that is taken. After a fault its words are unknown.
    #[tactic(auto, using(crate::proofs::Taken::taken_below))]
    pub fn write_track(&mut self, track: u16, from: &[u64]) -> Result<(), DiskFault>
        requires taken { is_taken self.old.tracks.taken.items track ≡ true }
        requires whole { length from.now ≡ 432 }
        requires words { AreWords from.now }
        requires serves { IsServed F.Medium self.old }
        ensures { WritesTrack F.Medium track from.now result self.old self.new }
    {
        self.disk.write(track, from)?;
        Ok(())
    }
}
