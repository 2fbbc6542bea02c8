//! A user whose program is run alone.
ghost use Rattle.std.specs.Prelude.{IfOk, [], codes, fold, length, map, replicate, slice_get, take, true, ℕ, ◌*◌, ◌++◌, ◌+◌, ◌-◌, ◌<◌, ◌^◌, ◌∷◌, ◌≡◌, ◌≤◌};
ghost use Rattle.ctss_types.specs.declared.file.CommonOp.{CommonOp};
ghost use Rattle.user_model.specs.Inner.{recut, zeros};
ghost use Rattle.user_model.specs.Session.{first_state, works_in};
ghost use Rattle.user_model.specs.User.{can_step, core_after, opened, typed};
ghost use Rattle.user_session.specs.Calls.{CanStep};
ghost use Rattle.user_session.specs.Stores.{stored, IsToMake};
ghost use Rattle.user_session.specs.Turns.{IsReplied};
ghost use Rattle.file_model.specs.Commons.{ReplyFits, files_after, reply_to};
ghost use Rattle.program_model.specs.Lines.{with_words};
ghost use Rattle.program_trace.specs.Lone.{begun, deck_files, tracer, track_quota};
ghost use Rattle.program_trace.specs.Traces.{regs_left};
ghost use Rattle.program_trace.specs.Steps.{IsTurnBeside};

use cpu_regs::plain::PlainCore;
use cpu_regs::{MemoryPort, Regs};
use ctss_types::{Account, CommonOp, Ending, FileName, Item, LineText, NoMemory, Reply, name_word};
use file_map::common::apply;
use file_map::{FilePort, Files, PortFault};
use std::alloc::Global;
use std::marker::Model;
use tia_entry::store_fitting;
use user_session::{Put, Session, Step, Turn};
use word36::Word;

/// How many tracks the user's files may take, and how many the common ones.
const TRACK_QUOTA: u16 = 1000;

/// A user whose program is run alone: the session, the words of the program, the user's files, and common files that
/// nobody else has. It is let go by calls of `drop`: the proof of a function goes through all its parts wherever it is let
/// go without a call.
#[derive(Drop)]
pub(crate) struct ProgramAlone {
    pub(crate) session: Session,
    pub(crate) core: PlainCore,
    pub(crate) files: Files,
    pub(crate) common: Files,
}

impl Model for ProgramAlone {
    ghost use Rattle.std.specs.Prelude.{◌≡◌, ◌*◌, length};
    ghost use Rattle.program_trace.specs.Lone.{TracedUser, tracer, track_quota};
    ghost use Rattle.program_trace.specs.Steps.{alone_with};

    ghost Value = { TracedUser };

    ghost view = { λ a. alone_with a.session a.core a.files.files a.common.files };

    ghost invariant = { λ a. (length a.core ≡ 256 * a.session.inner.blocks) × (a.session.inner.account ≡ tracer)
        × (a.files.quota ≡ track_quota) × (a.common.quota ≡ track_quota) };
}

/// The user's account.
fn tracer() -> Account
    ensures { result ≡ tracer }
{
    Account {
        name: name_word(b"TRACER"),
        password: name_word(b"TRACER"),
        blocks: 128,
        tracks: TRACK_QUOTA,
    }
}

/// The user's files: that of the deck, if it fits.
fn deck_files(alloc: Global, deck: &[Word]) -> Result<Files, NoMemory>
    ensures { IfOk result (λ files. files ≡ record { files = deck_files deck.now; quota = track_quota }) }
{
    let mut files = Files::new(alloc, TRACK_QUOTA);
    let name = FileName::new(name_word(b"PROGRM"), name_word(b"BSS"));
    match files.put(name, deck) {
        Ok(()) => Ok(files),
        Err(PortFault::Refused(_)) => Ok(files),
        Err(_) => Err(NoMemory),
    }
}

/// A core cut to so many blocks, or extended to them.
#[tactic(auto, using(crate::proofs::Sessions::recut_by_words))]
fn recut_core(alloc: Global, core: &PlainCore, blocks: u8) -> Result<PlainCore, NoMemory>
    requires { blocks ≤ 128 }
    ensures { IfOk result (λ new. new ≡ recut blocks core.now) }
{
    let mut new = PlainCore::new(alloc, blocks)?;
    store_fitting(&mut new, 0, core.words());
    Ok(new)
}

/// The core behind a step that ended so, with so many blocks.
pub(crate) fn settled(
    alloc: Global,
    core: PlainCore,
    ending: Ending,
    blocks: u8,
) -> Result<PlainCore, NoMemory>
    requires { blocks ≤ 128 }
    ensures { IfOk result (λ new. new ≡ core_after ending blocks core) }
{
    match ending {
        Ending::Replaced => Ok(PlainCore::new(alloc, blocks)?),
        _ if core.size() == blocks => Ok(core),
        _ => recut_core(alloc, &core, blocks),
    }
}

/// The reply to an operation on the common files.
fn reply_to(files: &mut Files, op: &CommonOp) -> Result<Reply, NoMemory>
    requires { files.old.quota ≡ track_quota }
    ensures reply { IfOk result (λ r. r ≡ reply_to track_quota files.old.files op.now) }
    ensures fits { IfOk result ReplyFits }
    ensures left { IfOk result (λ _. files.new.files ≡ files_after track_quota files.old.files op.now) }
    ensures quota { files.new.quota ≡ files.old.quota }
{
    match apply(op, files) {
        Ok(reply) => Ok(reply),
        Err(_) => Err(NoMemory),
    }
}

/// A step of a session with the reply of these common files, if one can be done.
pub(crate) fn step_beside(
    session: &mut Session,
    core: &mut PlainCore,
    files: &mut Files,
    common: &mut Files,
    now: u64,
) -> Result<Option<Step>, NoMemory>
    requires can { CanStep session.old core.old }
    requires account { session.old.inner.account ≡ tracer }
    requires quotas { (files.old.quota ≡ track_quota) × (common.old.quota ≡ track_quota) }
    requires early { now < 2 ^ 35 }
    ensures turn { IfOk result (λ s. IsTurnBeside s now session.old session.new
        (stored core.old files.old.files) (stored core.new files.new.files) common.old.files common.new.files) }
    ensures size { length core.new ≡ length core.old }
    ensures account { session.new.inner.account ≡ tracer }
    ensures quotas { (files.new.quota ≡ track_quota) × (common.new.quota ≡ track_quota) }
{
    let Ok(turn) = session.step(core, files, now) else {
        return Err(NoMemory);
    };
    match turn {
        Turn::Waits => Ok(None),
        Turn::Done(step) => Ok(Some(step)),
        Turn::Asks(op) => {
            let reply = reply_to(common, op.get())?;
            let Ok(step) = session.take_reply(core, files, &reply, now) else {
                return Err(NoMemory);
            };
            Ok(Some(step))
        }
    }
}

/// A line is typed, of which a session takes 2048.
fn type_line(session: &mut Session, line: LineText)
    requires { session.old.lines < 2048 }
    ensures { session.new ≡ typed line session.old }
{
    match session.line(line) {
        Put::Kept => {}
        Put::Spent => unreachable!(),
    }
}

/// A session in which LOADGO was typed.
fn asked_session(alloc: Global) -> Result<Session, NoMemory>
    ensures { IfOk result (λ s. s ≡ typed (codes "LOADGO PROGRM") (opened (first_state tracer []))) }
{
    let mut session = Session::new(alloc, &tracer())?;
    let Ok(()) = session.login() else {
        drop(session);
        return Err(NoMemory);
    };
    type_line(&mut session, LineText::of(b"LOADGO PROGRM"));
    Ok(session)
}

impl ProgramAlone {
    /// A session in which LOADGO was typed, and these lines behind it.
    pub(crate) fn begin(
        alloc: Global,
        deck: &[Word],
        lines: &[LineText],
    ) -> Result<ProgramAlone, NoMemory>
        requires { length lines.now ≤ 2047 }
        ensures { IfOk result (λ a. a ≡ begun deck.now lines.now) }
    {
        let core = PlainCore::new(alloc, 0)?;
        let files = deck_files(alloc, deck)?;
        let Ok(mut session) = asked_session(alloc) else {
            drop(files);
            return Err(NoMemory);
        };
        for line in lines {
            type_line(&mut session, *line);
        }
        Ok(ProgramAlone {
            session,
            core,
            files,
            common: Files::new(alloc, TRACK_QUOTA),
        })
    }

    /// Whether the program works.
    pub(crate) fn works(&self) -> bool
        ensures { result ≡ works_in self.now.user.inner.state }
    {
        self.session.works()
    }

    /// The registers of the program.
    pub(crate) fn regs(&self) -> Regs
        ensures { result ≡ self.now.user.inner.regs }
    {
        self.session.regs()
    }

    /// The registers, where a program is left.
    pub(crate) fn regs_left(&self) -> Option<Regs>
        ensures { result ≡ regs_left self.now.user.inner.blocks self.now.user.inner.regs }
    {
        if self.session.blocks() == 0 {
            None
        } else {
            Some(self.session.regs())
        }
    }

    /// The word at a place, if it lies within the core.
    pub(crate) fn word(&self, place: u16) -> Option<Word>
        ensures { result ≡ slice_get self.now.user.inner.core place }
    {
        self.core.load(place).ok()
    }

    /// What was read and written.
    pub(crate) fn items(&self) -> &[Item]
        ensures { result.now ≡ self.now.user.transcript }
    {
        self.session.items()
    }
}
