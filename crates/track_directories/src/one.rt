//! Calls on one directory, over its table and the store of all tracks.
ghost use Rattle.std.specs.Prelude.{◌<◌, ◌^◌, IfOk};
ghost use Rattle.ctss_types.specs.declared.file.CommonOp.{CommonOp};
ghost use Rattle.file_model.specs.Commons.{ReplyFits};
ghost use Rattle.file_map.specs.Applied.{IsApplied};
ghost use Rattle.user_session.specs.Stores.{stored, Over, IsToMake};
ghost use Rattle.user_session.specs.Turns.{IsReplied, IsTurn};
ghost use Rattle.file_tracks.specs.Seen.{tells_of};
ghost use Rattle.file_tracks.specs.Tracked.{tracked, files_in, IsReady};
ghost use Rattle.user_session.specs.Calls.{CanStep, KeepsCore, KeepsUser};
ghost use Rattle.track_directories.specs.Calls.{IsReadyFor, LeavesOneOn};

use cpu_regs::MemoryPort;
use ctss_types::{CommonOp, Reply, StepFault};
use file_map::PortFault;
use file_map::common::apply;
use file_tracks::{TrackPort, TrackTable};
use medium::Medium;
use std::alloc::Global;
use track_store::TrackStore;
use user_session::{Session, Step, Turn};

/// The allocator of a directory's table.
fn allocator_of(table: &TrackTable) -> Global {
    *table.files.allocator()
}

/// A step of a user's session over its directory.
pub(crate) fn turn_over<M: MemoryPort, F: Medium>(
    table: &mut TrackTable,
    store: &mut TrackStore<'_, F>,
    session: &mut Session,
    core: &mut M,
    now: u64,
) -> Result<Turn, StepFault>
    requires ready { IsReadyFor F.Medium session.old store.old table.old }
    requires can { CanStep session.old (M.words core.old) }
    requires time { now < 2 ^ 35 }
    ensures turn { IfOk result (λ turn. Over (tells_of (F.contents store.old.disk.now))
        (stored (M.words core.old) (files_in (tracked F.Medium store.old) table.old))
        (stored (M.words core.new) (files_in (tracked F.Medium store.new) table.new))
        (IsTurn turn now session.old session.new)) }
    ensures user { KeepsUser result session.old session.new }
    ensures core { KeepsCore M.MemoryPort result core.old core.new }
    ensures leaves { LeavesOneOn F.Medium result store.old store.new table.old table.new }
{
    let alloc = allocator_of(table);
    let mut port = TrackPort {
        alloc,
        table,
        store,
        has_failed: false,
    };
    session.step(core, &mut port, now)
}

/// A step of a user's session goes on with the reply to its common operation.
pub(crate) fn reply_over<M: MemoryPort, F: Medium>(
    table: &mut TrackTable,
    store: &mut TrackStore<'_, F>,
    session: &mut Session,
    core: &mut M,
    reply: &Reply,
    now: u64,
) -> Result<Step, StepFault>
    requires ready { IsReadyFor F.Medium session.old store.old table.old }
    requires asks { (op : CommonOp) × IsToMake (tells_of (F.contents store.old.disk.now))
        (stored (M.words core.old) (files_in (tracked F.Medium store.old) table.old)) op session.old }
    requires can { CanStep session.old (M.words core.old) }
    requires reply_fits { ReplyFits reply.now }
    ensures step { (op : CommonOp) → IsToMake (tells_of (F.contents store.old.disk.now))
        (stored (M.words core.old) (files_in (tracked F.Medium store.old) table.old)) op session.old
        → IfOk result (λ s. Over (tells_of (F.contents store.old.disk.now))
        (stored (M.words core.old) (files_in (tracked F.Medium store.old) table.old))
        (stored (M.words core.new) (files_in (tracked F.Medium store.new) table.new))
        (IsReplied s op reply.now now session.old session.new)) }
    ensures user { KeepsUser result session.old session.new }
    ensures core { KeepsCore M.MemoryPort result core.old core.new }
    ensures leaves { LeavesOneOn F.Medium result store.old store.new table.old table.new }
{
    let alloc = allocator_of(table);
    let mut port = TrackPort {
        alloc,
        table,
        store,
        has_failed: false,
    };
    session.take_reply(core, &mut port, reply, now)
}

/// An operation on the common files.
pub(crate) fn share_over<F: Medium>(
    table: &mut TrackTable,
    store: &mut TrackStore<'_, F>,
    op: &CommonOp,
) -> Result<Reply, StepFault>
    requires { IsReady (tracked F.Medium store.old) table.old }
    ensures done { IfOk result
        (λ reply. IsApplied (tells_of (F.contents store.old.disk.now)) table.old.quota op.now reply
        (files_in (tracked F.Medium store.old) table.old) (files_in (tracked F.Medium store.new) table.new)) }
    ensures fits { IfOk result ReplyFits }
    ensures leaves { LeavesOneOn F.Medium result store.old store.new table.old table.new }
{
    let alloc = allocator_of(table);
    let mut port = TrackPort {
        alloc,
        table,
        store,
        has_failed: false,
    };
    match apply(op, &mut port) {
        Ok(reply) => Ok(reply),
        Err(PortFault::NoMemory) => Err(StepFault::NoMemory),
        Err(PortFault::Disk) => Err(StepFault::Disk),
        Err(PortFault::Refused(_)) => unreachable!(),
    }
}
