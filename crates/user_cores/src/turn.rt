//! A step of a session over some blocks of a bank. Who lends the bank learns what came of it, as it is handed to a function.
ghost use Rattle.std.specs.Prelude.{◌≤◌, ◌+◌, ◌<◌, ◌^◌, IfOk};
ghost use Rattle.ctss_types.specs.declared.file.CommonOp.{CommonOp};
ghost use Rattle.file_model.specs.Commons.{ReplyFits};
ghost use Rattle.core_bank.specs.Bank.{AreWords};
ghost use Rattle.image_map.specs.Windows.{window};
ghost use Rattle.track_directories.specs.Calls.{HasDirectory, HasServed};
ghost use Rattle.track_directories.specs.Tables.{shown};
ghost use Rattle.user_model.specs.Runs.{HaveGone};
ghost use Rattle.user_session.specs.Calls.{KeepsUser};
ghost use Rattle.user_session.specs.Stores.{stored, Over, IsToMake};
ghost use Rattle.user_session.specs.Turns.{IsReplied, IsTurn};
ghost use Rattle.user_cores.specs.Lent.{CanLend, KeepsCoreOf, StaysAround};

use core_bank::Bank;
use ctss_types::{Reply, StepFault, UserNo};
use image_map::Port;
use medium::Medium;
use track_directories::TrackDirectories;
use user_session::{Session, Step, Turn};

/// A user's part of a bank: whose it is, the block that it begins at, and how many blocks it has.
#[derive(Clone, Copy)]
pub(crate) struct Part {
    pub(crate) user: UserNo,
    pub(crate) base: u8,
    pub(crate) blocks: u8,
}

/// A step of a session over its directory, whose program's words are so many blocks of a bank from a place on.
pub(crate) fn turn_in<F: Medium>(
    bank: &mut Bank,
    part: Part,
    session: &mut Session,
    files: &mut TrackDirectories<'_, F>,
    now: u64,
) -> Result<Turn, StepFault>
    requires lends { CanLend part.base part.blocks session.old bank.old }
    requires directory { HasDirectory F.Medium part.user session.old files.old }
    requires time { now < 2 ^ 35 }
    ensures turn { IfOk result (λ turn. Over (shown F.Medium files.old).tells
        (stored (window bank.old part.base part.blocks) ((shown F.Medium files.old).own part.user))
        (stored (window bank.new part.base part.blocks) ((shown F.Medium files.new).own part.user))
        (IsTurn turn now session.old session.new)) }
    ensures user { KeepsUser result session.old session.new }
    ensures core { KeepsCoreOf part.base part.blocks result bank.old bank.new }
    ensures served { HasServed F.Medium part.user result files.old files.new }
{
    let mut port = Port::over(bank, part.base, part.blocks);
    files.turn(part.user, session, &mut port, now)
}

/// A step of a session that made a common operation goes on with its reply, over its directory and so many blocks of a bank from a
/// place on.
pub(crate) fn reply_in<F: Medium>(
    bank: &mut Bank,
    part: Part,
    session: &mut Session,
    files: &mut TrackDirectories<'_, F>,
    reply: &Reply,
    now: u64,
) -> Result<Step, StepFault>
    requires lends { CanLend part.base part.blocks session.old bank.old }
    requires directory { HasDirectory F.Medium part.user session.old files.old }
    requires asks { (op : CommonOp) × IsToMake (shown F.Medium files.old).tells
        (stored (window bank.old part.base part.blocks) ((shown F.Medium files.old).own part.user)) op session.old }
    requires reply_fits { ReplyFits reply.now }
    ensures step { (op : CommonOp) → IsToMake (shown F.Medium files.old).tells
        (stored (window bank.old part.base part.blocks) ((shown F.Medium files.old).own part.user)) op session.old
        → IfOk result (λ s. Over (shown F.Medium files.old).tells
        (stored (window bank.old part.base part.blocks) ((shown F.Medium files.old).own part.user))
        (stored (window bank.new part.base part.blocks) ((shown F.Medium files.new).own part.user))
        (IsReplied s op reply.now now session.old session.new)) }
    ensures user { KeepsUser result session.old session.new }
    ensures core { KeepsCoreOf part.base part.blocks result bank.old bank.new }
    ensures served { HasServed F.Medium part.user result files.old files.new }
{
    let mut port = Port::over(bank, part.base, part.blocks);
    files.take_reply(part.user, session, &mut port, reply, now)
}

/// Instructions of a session whose program's words are so many blocks of a bank from a place on: as many as go on, at most
/// so many. It stands apart, so that what goes on around the loop of instructions takes none of its registers.
#[inline(never)]
pub(crate) fn advance_in(bank: &mut Bank, part: Part, session: &mut Session, most: u64) -> u64
    requires inside { part.base + part.blocks ≤ 128 }
    requires words { AreWords bank.old }
    requires fits { session.old.own + most < 2 ^ 64 }
    ensures most { result ≤ most }
    ensures gone { HaveGone result session.old session.new (window bank.old part.base part.blocks)
        (window bank.new part.base part.blocks) }
    ensures around { StaysAround part.base part.blocks bank.old bank.new }
{
    let mut port = Port::over(bank, part.base, part.blocks);
    session.advance(&mut port, most)
}
