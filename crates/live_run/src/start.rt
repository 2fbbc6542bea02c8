//! The start of a run.
ghost use Rattle.std.specs.Prelude.{◌≡◌, ◌≤◌, IfOk, OnOk, IsErrOf, is_some, map};
ghost use Rattle.faults.specs.Faults.{Rose};
ghost use Rattle.drum_slots.specs.Kept.{ServesSlots};
ghost use Rattle.track_store.specs.Tracks.{ServesTracks};
ghost use Rattle.track_directories.specs.Tables.{disk_of, shown, Sound};
ghost use Rattle.image_map.specs.Image.{state, drum_seen};
ghost use Rattle.text_model.specs.Lawful.{IsLawful};
ghost use Rattle.supervisor.specs.Whole.{whole_of};
ghost use Rattle.live_run.specs.Media.{media_seen};
ghost use Rattle.live_run.specs.Starts.{AreFor, HasFirstFiles, IsNew, IsBegun};

use crate::run::LiveRun;
use core_bank::Bank;
use ctss_types::{Account, NoMemory, Script, StepFault};
use drum_slots::Slots;
use image_map::{Image, no_sizes};
use medium::Medium;
use std::alloc::Global;
use supervisor::Supervisor;
use track_directories::{EmptyDirectories, TrackDirectories};
use user_cores::{Behind, first_cores};

/// How many blocks each account may have.
pub fn quotas_of(alloc: Global, accounts: &[Account]) -> Result<Vec<u8>, NoMemory>
    ensures { IfOk result (λ q. q.items ≡ map (λ a. a.blocks) accounts.now) }
{
    let mut quotas = Vec::new(alloc);
    for account in accounts {
        quotas.push(account.blocks)?;
    }
    Ok(quotas)
}

/// All of a run that takes memory before its drum and its disk are called, so that want of memory leaves both as they were.
#[derive(Drop)]
pub struct NewRun {
    supervisor: Supervisor,
    slots: Slots,
    bank: Bank,
    sizes: Vec<u8>,
    files: EmptyDirectories,
}

impl NewRun {
    /// For the accounts of a script.
    pub fn new(alloc: Global, script: &Script) -> Result<NewRun, NoMemory>
        requires lawful { IsLawful script.now }
        ensures { IfOk result (IsNew script.now) }
    {
        let params = &script.params;
        let accounts = script.accounts.as_slice();
        let quotas = quotas_of(alloc, accounts)?;
        Ok(NewRun {
            supervisor: Supervisor::new(alloc, script)?,
            slots: Slots::new(alloc, params.drum, &quotas)?,
            bank: Bank::new(alloc)?,
            sizes: no_sizes(alloc, accounts.len())?,
            files: EmptyDirectories::new(alloc, params.disk, params.common, accounts)?,
        })
    }
}

/// Directories behind the writing of their first files, and how that ended.
#[derive(Drop)]
struct FirstFiles<'d, F: Medium> {
    files: TrackDirectories<'d, F>,
    wrote: Result<(), StepFault>,
}

/// The directories of a script's accounts, with their first files, and of the common files, of which there is none yet.
fn directories_of<'d, F: Medium>(
    empty: EmptyDirectories,
    script: &Script,
    disk: &'d mut F,
) -> FirstFiles<'d, F>
    requires lawful { IsLawful script.now }
    requires empty { AreFor script.now empty }
    requires serves { ServesTracks (F.contents disk.old) (F.record_count disk.old) (F.words_each disk.old) 10000 }
    ensures disk { (disk_of result.files).ghost_name ≡ disk.entry.ghost_name }
    ensures usable { ¬ IsErrOf result.wrote StepFault.Disk
        → Sound F.Medium result.files }
    ensures first { OnOk result.wrote (HasFirstFiles script.now.params.common script.now.accounts script.now.files
        (is_some (F.contents disk.old)) (shown F.Medium result.files)) }
    ensures rises { F.faults disk.old ≤
        (shown F.Medium result.files).faults }
    ensures cause { IsErrOf result.wrote StepFault.Disk → Rose (F.faults disk.old)
        (shown F.Medium result.files).faults }
{
    let mut files = empty.over(disk);
    let wrote = files.add_files(script.files.as_slice());
    FirstFiles { files, wrote }
}

/// A run before its first event, and whether its first files could be written.
#[derive(Drop)]
pub struct Begun<'a, 'd, D: Medium, F: Medium> {
    pub run: LiveRun<Behind<'a, 'd, D, F>>,
    pub wrote: Result<(), StepFault>,
}

/// The run of a script's accounts and files, before its first event, over a drum of at least 3840 records of 256 words and a disk of at
/// least 10000 records of 432 words, which the first files are written on. If that fails the run can only be stopped.
pub fn begin<'a, 'd, D: Medium, F: Medium>(
    new: NewRun,
    script: &Script,
    drum: &'a mut D,
    disk: &'d mut F,
) -> Begun<'a, 'd, D, F>
    requires new { IsNew script.now new }
    requires lawful { IsLawful script.now }
    requires drum { ServesSlots (D.contents drum.old) (D.record_count drum.old) (D.words_each drum.old) 3840 }
    requires disk { ServesTracks (F.contents disk.old) (F.record_count disk.old) (F.words_each disk.old) 10000 }
    ensures drum { (state result.run.cores.cores).drum.name ≡ (drum_seen D.Medium drum.entry).name }
    ensures disk { (disk_of result.run.cores.files).ghost_name ≡ disk.entry.ghost_name }
    ensures usable { ¬ IsErrOf result.wrote StepFault.Disk
        → ⟦<Behind<'a, 'd, D, F> as user_cores::Backing>⟧.Usable result.run.cores }
    ensures begun { IsBegun script.now (media_seen D.Medium F.Medium drum.old disk.old) result.wrote
        (whole_of result.run.supervisor
        (⟦<Behind<'a, 'd, D, F> as user_cores::Backing>⟧.state result.run.cores)) }
{
    let NewRun {
        supervisor,
        slots,
        bank,
        sizes,
        files,
    } = new;
    let cores = first_cores(drum, slots, bank, sizes);
    let FirstFiles { files, wrote } = directories_of(files, script, disk);
    let run = LiveRun::new(supervisor, Behind::new(cores, files));
    Begun { run, wrote }
}
