//! Directories without files.
ghost use Rattle.std.specs.Prelude.{◌≡◌, ◌≤◌, ◌+◌, ◌∷◌, sum, map, length, IfOk};
ghost use Rattle.track_store.specs.Tracks.{ServesTracks};
ghost use Rattle.file_tracks.specs.Seen.{tells_of};
ghost use Rattle.track_directories.specs.Tables.{disk_of, shown, Sound};
ghost use Rattle.track_directories.specs.Firsts.{HaveNone};

use crate::all::TrackDirectories;
use ctss_types::{Account, NoMemory};
use file_tracks::TrackTable;
use medium::Medium;
use std::alloc::Global;
use std::marker::Model;
use track_store::{TrackStore, Tracks};

/// Directories without files, which lie on no disk yet.
#[derive(Drop)]
pub struct EmptyDirectories {
    alloc: Global,
    tables: Vec<TrackTable>,
    tracks: Tracks,
}

impl Model for EmptyDirectories {
    ghost use Rattle.std.specs.Prelude.{length, map};
    ghost use Rattle.track_directories.specs.Firsts.{Empty, AreEmpty};

    ghost Value = { Empty };

    ghost view = { λ d. record {
      tracks = length d.tracks.taken.items;
      quotas = map (λ t. t.quota) d.tables.items;
    } };

    ghost invariant = { λ d. AreEmpty d.tracks.taken.items d.tables.items };
}

impl EmptyDirectories {
    /// The directories of the common files and of these accounts, of so many tracks in all.
    pub fn new(
        alloc: Global,
        tracks: u16,
        common: u16,
        accounts: &[Account],
    ) -> Result<EmptyDirectories, NoMemory>
        requires fits { common + sum (map (λ a. a.tracks) accounts.now) ≤ tracks }
        ensures tracks { IfOk result (λ d. d.tracks ≡ tracks) }
        ensures quotas { IfOk result (λ d. d.quotas ≡ common ∷ map (λ a. a.tracks) accounts.now) }
    {
        let mut tables = Vec::new(alloc);
        tables.push(TrackTable::new(alloc, common))?;
        for account in accounts {
            tables.push(TrackTable::new(alloc, account.tracks))?;
        }
        let tracks = Tracks::new(alloc, tracks)?;
        Ok(EmptyDirectories {
            alloc,
            tables,
            tracks,
        })
    }

    /// Lays them on the first records of a disk.
    pub fn over<'d, F: Medium>(self, disk: &'d mut F) -> TrackDirectories<'d, F>
        requires serves { ServesTracks (F.contents disk.old) (F.record_count disk.old) (F.words_each disk.old)
            self.tracks }
        ensures same { (disk_of result).ghost_name ≡ disk.entry.ghost_name }
        ensures now { (disk_of result).now ≡ disk.old }
        ensures sound { Sound F.Medium result }
        ensures none { HaveNone self.quotas (tells_of (F.contents disk.old)) (F.faults disk.old)
            (shown F.Medium result) }
    {
        let EmptyDirectories {
            alloc,
            tables,
            tracks,
        } = self;
        let store = TrackStore::over(disk, tracks);
        TrackDirectories {
            alloc,
            tables,
            store,
        }
    }
}
