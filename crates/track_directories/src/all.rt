//! All directories on tracks of one disk.
ghost use Rattle.std.specs.Prelude.{◌≡◌, ◌<◌, ◌≤◌, ◌^◌, true, IfOk, OnOk, IsErrOf};
ghost use Rattle.faults.specs.Faults.{Rose, WhereTold};
ghost use Rattle.ctss_types.specs.declared.file.CommonOp.{CommonOp};
ghost use Rattle.file_model.specs.Commons.{ReplyFits};
ghost use Rattle.file_tracks.specs.Lying.{LieOn};
ghost use Rattle.user_session.specs.Calls.{KeepsCore, KeepsUser};
ghost use Rattle.user_session.specs.Stores.{stored, Over, IsToMake};
ghost use Rattle.user_session.specs.Turns.{IsReplied, IsTurn};
ghost use Rattle.track_directories.specs.Calls.{CanServe, HasServed};
ghost use Rattle.track_directories.specs.Directories.{ServesUser, Shares, Drops, lists_from};
ghost use Rattle.track_directories.specs.Tables.{disk_of, shown, Sound};
ghost use Rattle.track_directories.specs.Firsts.{AreFirst, Adds, CanAdd, IsAdded};

use crate::adding::add_over;
use crate::listing::lists_on;
use crate::one::{reply_over, share_over, turn_over};
use cpu_regs::MemoryPort;
use ctss_types::{CommonOp, FileList, OwnedFile, Reply, StepFault, UserNo};
use file_tracks::TrackTable;
use medium::Medium;
use std::alloc::Global;
use track_store::TrackStore;
use user_session::{Session, Step, Turn};

/// All files: each user's in order of making, that of user 1 first, and the common ones.
#[derive(Drop)]
pub struct Lists {
    pub own: Vec<FileList>,
    pub common: FileList,
}

/// The directories of the common files, which have number 0, and of users, who count from 1: their tables, and the tracks of the
/// disk on which their files lie.
#[derive(Drop)]
pub struct TrackDirectories<'d, F: Medium> {
    pub(crate) alloc: Global,
    pub(crate) tables: Vec<TrackTable>,
    pub(crate) store: TrackStore<'d, F>,
}

impl<'d, F: Medium> TrackDirectories<'d, F> {
    /// Puts the first files of users into directories that have none.
    pub fn add_files(&mut self, files: &[OwnedFile]) -> Result<(), StepFault>
        requires sound { Sound F.Medium self.old }
        requires first { AreFirst files.now (shown F.Medium self.old) }
        ensures sound { ¬ IsErrOf result StepFault.Disk → Sound F.Medium self.new }
        ensures same { (disk_of self.new).ghost_name ≡ (disk_of self.old).ghost_name }
        ensures adds { Adds files.now result (shown F.Medium self.old) (shown F.Medium self.new) }
    {
        'adding: for file in files {
            self.add(file)?;
        }
        Ok(())
    }

    /// Puts a file behind the others of its owner.
    fn add(&mut self, file: &OwnedFile) -> Result<(), StepFault>
        requires sound { Sound F.Medium self.old }
        requires can { CanAdd file.now (shown F.Medium self.old) }
        ensures sound { ¬ IsErrOf result StepFault.Disk → Sound F.Medium self.new }
        ensures same { (disk_of self.new).ghost_name ≡ (disk_of self.old).ghost_name }
        ensures serves { ServesUser file.now.owner result (shown F.Medium self.old) (shown F.Medium self.new) }
        ensures added { OnOk result (IsAdded file.now (shown F.Medium self.old) (shown F.Medium self.new)) }
    {
        let table = &mut self.tables[file.owner.number() as usize];
        add_over(self.alloc, table, &mut self.store, &file.body)
    }

    /// Ends the directories and gives the disk back.
    pub fn back(self) -> &'d mut F
        ensures same { result.ghost_name ≡ (disk_of self.entry).ghost_name }
        ensures now { result.now ≡ (disk_of self.entry).now }
    {
        let TrackDirectories {
            alloc: _,
            tables,
            store,
        } = self;
        drop(tables);
        store.back()
    }
}

impl<F: Medium> TrackDirectories<'_, F> {
    /// A step of a user's session, over the words of its program and its directory.
    pub fn turn<M: MemoryPort>(
        &mut self,
        user: UserNo,
        session: &mut Session,
        core: &mut M,
        now: u64,
    ) -> Result<Turn, StepFault>
        requires can { CanServe F.Medium user session.old (M.words core.old) self.old }
        requires time { now < 2 ^ 35 }
        ensures turn { IfOk result (λ turn. Over (shown F.Medium self.old).tells
            (stored (M.words core.old) ((shown F.Medium self.old).own user))
            (stored (M.words core.new) ((shown F.Medium self.new).own user))
            (IsTurn turn now session.old session.new)) }
        ensures user { KeepsUser result session.old session.new }
        ensures core { KeepsCore M.MemoryPort result core.old core.new }
        ensures served { HasServed F.Medium user result self.old self.new }
    {
        let table = &mut self.tables[user.number() as usize];
        turn_over(table, &mut self.store, session, core, now)
    }

    /// A step of a user's session, which made a common operation, goes on with its reply.
    pub fn take_reply<M: MemoryPort>(
        &mut self,
        user: UserNo,
        session: &mut Session,
        core: &mut M,
        reply: &Reply,
        now: u64,
    ) -> Result<Step, StepFault>
        requires can { CanServe F.Medium user session.old (M.words core.old) self.old }
        requires asks { (op : CommonOp) × IsToMake (shown F.Medium self.old).tells
            (stored (M.words core.old) ((shown F.Medium self.old).own user)) op session.old }
        requires reply_fits { ReplyFits reply.now }
        ensures step { (op : CommonOp) → IsToMake (shown F.Medium self.old).tells
            (stored (M.words core.old) ((shown F.Medium self.old).own user)) op session.old
            → IfOk result (λ s. Over (shown F.Medium self.old).tells
            (stored (M.words core.old) ((shown F.Medium self.old).own user))
            (stored (M.words core.new) ((shown F.Medium self.new).own user))
            (IsReplied s op reply.now now session.old session.new)) }
        ensures user { KeepsUser result session.old session.new }
        ensures core { KeepsCore M.MemoryPort result core.old core.new }
        ensures served { HasServed F.Medium user result self.old self.new }
    {
        let table = &mut self.tables[user.number() as usize];
        reply_over(table, &mut self.store, session, core, reply, now)
    }

    /// An operation on the common files: its reply, which may be a refusal.
    pub fn share(&mut self, op: &CommonOp) -> Result<Reply, StepFault>
        requires sound { Sound F.Medium self.old }
        ensures shares { Shares op.now result (shown F.Medium self.old) (shown F.Medium self.new) }
        ensures sound { ¬ IsErrOf result StepFault.Disk → Sound F.Medium self.new }
        ensures same { (disk_of self.new).ghost_name ≡ (disk_of self.old).ghost_name }
    {
        share_over(&mut self.tables[0], &mut self.store, op)
    }

    /// A user's files of mode 0 go. It takes no memory, and makes no call of the disk.
    pub fn drop_temporary(&mut self, user: UserNo)
        requires sound { Sound F.Medium self.old }
        requires user { user ≤ (shown F.Medium self.old).count }
        ensures drops { Drops user (shown F.Medium self.old) (shown F.Medium self.new) }
        ensures sound { Sound F.Medium self.new }
        ensures same { (disk_of self.new).ghost_name ≡ (disk_of self.old).ghost_name }
    {
        self.tables[user.number() as usize].drop_temporary(&mut self.store);
    }

    /// All files. Nothing may be asked after it.
    pub fn take_lists(&mut self, alloc: Global) -> Result<Lists, StepFault>
        requires sound { Sound F.Medium self.old }
        ensures lists { (shown F.Medium self.old).tells ≡ true → IfOk result (λ lists. lists.own.items
            ≡ lists_from 1 (shown F.Medium self.old).count (shown F.Medium self.old).own) }
        ensures common { (shown F.Medium self.old).tells ≡ true
            → IfOk result (λ lists. lists.common ≡ (shown F.Medium self.old).common) }
        ensures lies { IfOk result (λ lists. WhereTold (F.contents (disk_of self.new).now)
            (λ contents. LieOn contents lists.own.items lists.common)) }
        ensures same { (disk_of self.new).ghost_name ≡ (disk_of self.old).ghost_name }
        ensures cause { IsErrOf result StepFault.Disk
            → Rose (shown F.Medium self.old).faults (shown F.Medium self.new).faults }
    {
        let [common, own @ ..] = self.tables.as_slice() else {
            unreachable!()
        };
        let own = lists_on(alloc, own, &mut self.store)?;
        let common = common.read_all(alloc, &mut self.store)?;
        Ok(Lists { own, common })
    }
}
