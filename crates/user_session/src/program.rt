//! Steps of a program that works, and one step of a user.
ghost use Rattle.std.specs.Prelude.{◌≡◌, ◌<◌, ◌≤◌, ◌+◌, ◌-◌, ◌^◌, ℕ, List, true, false, None, Some, IfOk, OnOk, OnErr};
ghost use Rattle.program_model.specs.Fills.{StartsInCore};
ghost use Rattle.program_model.specs.declared.Fill.{Fill};
ghost use Rattle.user_model.specs.Session.{works_in};
ghost use Rattle.user_model.specs.Runs.{HaveGone, IsAtWork};
ghost use Rattle.ctss_types.specs.declared.file.CommonOp.{CommonOp};
ghost use Rattle.ctss_types.specs.declared.file.FileBody.{FileBody};
ghost use Rattle.user_session.specs.Changes.{IsStored, IsEntryFor};
ghost use Rattle.user_model.specs.Inner.{Stored};
ghost use Rattle.user_session.specs.Stores.{stored, Over, OfSome, IsToMake, Reads};
ghost use Rattle.user_session.specs.Turns.{IsReplied, IsTurn, Instructs, Runs};
ghost use Rattle.user_model.specs.Answers.{DidBreak, marked};
ghost use Rattle.user_model.specs.Programs.{at_break};
ghost use Rattle.file_model.specs.Commons.{ReplyFits};
ghost use Rattle.user_session.specs.Calls.{CanStep, IsCoreOf, IsAtInstruction, IsDirectoryOf, KeepsCore, KeepsUser, Leaves};

use crate::entry::STOPPED;
use crate::file_entry::WENT;
use crate::session::{Session, works_in};
use crate::turn::Instructed;
use crate::{Step, Turn};
use cmd_program::fill;
use cpu_regs::MemoryPort;
use cpu_step::{Stepped, run, step};
use ctss_types::{NoMemory, Reply, StepFault};
use dialogue::command_table::command_of;
use file_map::FilePort;
use program_model::Fill;
use tia_entry::read_call;

impl Session {
    /// A program is filled with the words of its file.
    fn store<M: MemoryPort, P: FilePort>(
        &mut self,
        core: &mut M,
        files: &mut P,
        with: Fill,
    ) -> Result<(), StepFault>
        requires start { StartsInCore with }
        requires port { P.Usable files.old }
        requires fits { self.old.own < 2 ^ 64 - 1 }
        ensures ok { OnOk result (OfSome (P.tells files.old) (P.files files.old)
            (λ fs. IsStored with fs self.old self.new (M.words core.old) (M.words core.new))) }
        ensures err { OnErr result (self.new ≡ self.old) }
        ensures core { KeepsCore M.MemoryPort result core.old core.new }
        ensures reads { Reads P.FilePort result files.old files.new }
    {
        fill(&with, &mut self.regs, core, files)?;
        self.fill = None;
        self.own += 1;
        Ok(())
    }

    /// A program that has its core is filled.
    #[inline(never)]
    fn fill_core<M: MemoryPort, P: FilePort>(
        &mut self,
        core: &mut M,
        files: &mut P,
        with: Fill,
    ) -> Result<Turn, StepFault>
        requires on { self.old.on ≡ true }
        requires works { works_in self.old.inner.state ≡ true }
        requires waits { self.old.inner.fill ≡ Some with }
        requires start { StartsInCore with }
        requires can { CanStep self.old (M.words core.old) }
        requires port { P.Usable files.old }
        ensures turn { (now : ℕ) → IfOk result (λ turn. Over (P.tells files.old)
            (stored (M.words core.old) (P.files files.old)) (stored (M.words core.new) (P.files files.new))
            (IsTurn turn now self.old self.new)) }
        ensures leaves { Leaves M.MemoryPort P.FilePort result self.old self.new core.old core.new files.old files.new }
    {
        self.store(core, files, with)?;
        Ok(Turn::Done(WENT))
    }

    /// The next instruction of a program. A supervisor entry is not done yet.
    #[inline(always)]
    fn instruct<M: MemoryPort>(&mut self, core: &mut M) -> Result<Instructed, NoMemory>
        requires ready { IsAtInstruction self.old }
        requires can { CanStep self.old (M.words core.old) }
        ensures does { (fs : List FileBody) (now : ℕ) → IfOk result (λ done. Instructs done now self.old self.new
            (stored (M.words core.old) fs) (stored (M.words core.new) fs)) }
        ensures user { KeepsUser result self.old self.new }
        ensures core { KeepsCore M.MemoryPort result core.old core.new }
    {
        self.talk.reserve(2)?;
        let place = self.regs.ic;
        let n = self.own + 1 - self.own_at_command;
        match step(&mut self.regs, core) {
            Stepped::Went => {
                self.own += 1;
                Ok(Instructed::Done(WENT))
            }
            Stepped::Entry(name) => Ok(Instructed::Entry(name)),
            Stepped::Halt => {
                self.talk.say_stop(b"HALT", place, n);
                self.stop();
                Ok(Instructed::Done(STOPPED))
            }
            Stepped::Illegal => {
                self.talk.say_stop(b"ILLEGAL", place, n);
                self.stop();
                Ok(Instructed::Done(STOPPED))
            }
            Stepped::Outside(_) => {
                self.talk.say_stop(b"PROTECTION", place, n);
                self.stop();
                Ok(Instructed::Done(STOPPED))
            }
        }
    }

    /// The next instruction of a program, and the supervisor entry that it comes to. An open debugger doesn't know of it yet.
    #[inline(always)]
    fn go_on<M: MemoryPort, P: FilePort>(
        &mut self,
        core: &mut M,
        files: &mut P,
        now: u64,
    ) -> Result<Turn, StepFault>
        requires ready { IsAtInstruction self.old }
        requires can { CanStep self.old (M.words core.old) }
        requires own { IsDirectoryOf P.FilePort self.old files.old }
        requires time { now < 2 ^ 35 }
        ensures turn { IfOk result (λ turn. Over (P.tells files.old)
            (stored (M.words core.old) (P.files files.old)) (stored (M.words core.new) (P.files files.new))
            (Runs turn now self.old self.new)) }
        ensures leaves { Leaves M.MemoryPort P.FilePort result self.old self.new core.old core.new files.old files.new }
    {
        match self.instruct(core)? {
            Instructed::Done(step) => Ok(Turn::Done(step)),
            Instructed::Entry(name) => self.enter(core, files, name, now),
        }
    }

    /// Whether a program is to stop before its next instruction.
    fn is_at_break(&self) -> bool
        ensures { result ≡ at_break self.now.inner }
    {
        match &self.debugger {
            Some(debugger) => debugger.meets(self.regs.ic),
            None => false,
        }
    }

    /// A break: the program stops before its next instruction.
    #[tactic(auto, using(user_model::proofs::CoreLaws::recut_same))]
    fn make_break(&mut self) -> Result<Step, NoMemory>
        requires fits { self.old.own < 2 ^ 64 - 1 }
        ensures row { (store : Stored) → IsCoreOf self.old store.core → IfOk result (λ s.
            DidBreak s.ending s.clock self.old self.new store store) }
        ensures user { KeepsUser result self.old self.new }
    {
        self.talk.reserve(2)?;
        let n = self.own + 1 - self.own_at_command;
        self.talk.say_stop(b"BREAK", self.regs.ic, n);
        self.stop();
        Ok(STOPPED)
    }

    /// The program has done an own step: an open debugger knows.
    fn mark(&mut self)
        ensures { self.new ≡ marked self.old }
    {
        if let Some(debugger) = &mut self.debugger {
            debugger.stepped();
        }
    }

    /// The next step of a program under the debugger: a break, or an instruction with the supervisor entry that it comes to. It stands
    /// apart, so that other programs don't pay for the room of its answers.
    #[inline(never)]
    fn run_debugged<M: MemoryPort, P: FilePort>(
        &mut self,
        core: &mut M,
        files: &mut P,
        now: u64,
    ) -> Result<Turn, StepFault>
        requires on { self.old.on ≡ true }
        requires works { works_in self.old.inner.state ≡ true }
        requires filled { self.old.inner.fill ≡ None }
        requires can { CanStep self.old (M.words core.old) }
        requires own { IsDirectoryOf P.FilePort self.old files.old }
        requires time { now < 2 ^ 35 }
        ensures turn { IfOk result (λ turn. Over (P.tells files.old)
            (stored (M.words core.old) (P.files files.old)) (stored (M.words core.new) (P.files files.new))
            (IsTurn turn now self.old self.new)) }
        ensures leaves { Leaves M.MemoryPort P.FilePort result self.old self.new core.old core.new files.old files.new }
    {
        if self.is_at_break() {
            let broken = self.make_break()?;
            return Ok(Turn::Done(broken));
        }
        match self.go_on(core, files, now)? {
            Turn::Done(step) => {
                self.mark();
                Ok(Turn::Done(step))
            }
            other => Ok(other),
        }
    }

    /// The next step of a program that has its core, with the supervisor entry that it comes to. Without the debugger, as mostly, there is
    /// nothing to look for before it and nothing to note after it.
    #[inline(always)]
    fn run<M: MemoryPort, P: FilePort>(
        &mut self,
        core: &mut M,
        files: &mut P,
        now: u64,
    ) -> Result<Turn, StepFault>
        requires on { self.old.on ≡ true }
        requires works { works_in self.old.inner.state ≡ true }
        requires filled { self.old.inner.fill ≡ None }
        requires can { CanStep self.old (M.words core.old) }
        requires own { IsDirectoryOf P.FilePort self.old files.old }
        requires time { now < 2 ^ 35 }
        ensures turn { IfOk result (λ turn. Over (P.tells files.old)
            (stored (M.words core.old) (P.files files.old)) (stored (M.words core.new) (P.files files.new))
            (IsTurn turn now self.old self.new)) }
        ensures leaves { Leaves M.MemoryPort P.FilePort result self.old self.new core.old core.new files.old files.new }
    {
        if self.is_debugged() {
            return self.run_debugged(core, files, now);
        }
        self.go_on(core, files, now)
    }

    /// Whether a program works without the debugger, with nothing that is still to be stored.
    fn is_at_work(&self) -> bool
        ensures { result ≡ true → IsAtWork self.now }
    {
        self.on && works_in(self.state) && self.fill.is_none() && self.debugger.is_none()
    }

    /// Does as many instructions of a program that works as go on, at most so many, and says how many steps they were.
    #[tactic(auto, using(user_model::proofs::RunLaws::gone_still))]
    pub fn advance<M: MemoryPort>(&mut self, core: &mut M, most: u64) -> u64
        requires fits { self.old.own + most < 2 ^ 64 }
        ensures most { result ≤ most }
        ensures gone { HaveGone result self.old self.new (M.words core.old) (M.words core.new) }
        ensures keeps { M.Keeps core.old core.new }
    {
        if !self.is_at_work() {
            return 0;
        }
        let done = run(&mut self.regs, core, most);
        self.own += done;
        done
    }

    /// A program's call that made a common operation goes on with its reply.
    fn entry_replied<M: MemoryPort>(&mut self, core: &mut M, reply: &Reply) -> Step
        requires ready { IsAtInstruction self.old }
        requires asks { (op : CommonOp) × IsEntryFor op self.old (M.words core.old) }
        requires can { CanStep self.old (M.words core.old) }
        requires reply_fits { ReplyFits reply.now }
        ensures step { (op : CommonOp) (fs : List FileBody) (now : ℕ) → IsEntryFor op self.old (M.words core.old)
            → IsReplied result op reply.now now self.old self.new (stored (M.words core.old) fs)
            (stored (M.words core.new) fs) }
        ensures account { self.new.inner.account ≡ self.old.inner.account }
        ensures keeps { M.Keeps core.old core.new }
    {
        // The entry is looked for anew; the step that finds it changes nothing.
        let mut regs = self.regs;
        let Stepped::Entry(name) = step(&mut regs, core) else {
            unreachable!()
        };
        let Ok(call) = read_call(&self.regs, core, name) else {
            unreachable!()
        };
        let step = self.call_replied(core, call, reply);
        self.mark();
        step
    }

    /// A step that made a common operation goes on with its reply, and is done.
    pub fn take_reply<M: MemoryPort, P: FilePort>(
        &mut self,
        core: &mut M,
        files: &mut P,
        reply: &Reply,
        now: u64,
    ) -> Result<Step, StepFault>
        requires asks { (op : CommonOp) × IsToMake (P.tells files.old)
            (stored (M.words core.old) (P.files files.old)) op self.old }
        requires can { CanStep self.old (M.words core.old) }
        requires own { IsDirectoryOf P.FilePort self.old files.old }
        requires reply_fits { ReplyFits reply.now }
        ensures step { (op : CommonOp) → IsToMake (P.tells files.old)
            (stored (M.words core.old) (P.files files.old)) op self.old
            → IfOk result (λ s. Over (P.tells files.old)
            (stored (M.words core.old) (P.files files.old)) (stored (M.words core.new) (P.files files.new))
            (IsReplied s op reply.now now self.old self.new)) }
        ensures leaves { Leaves M.MemoryPort P.FilePort result self.old self.new core.old core.new files.old files.new }
    {
        if self.works() {
            return Ok(self.entry_replied(core, reply));
        }
        let Some(line) = self.first_line() else {
            unreachable!()
        };
        self.copy_replied(files, line, command_of(&line), reply, now)
    }

    /// A step at a tick of a user of whom no program works. It stands apart, so that programs don't pay for the room
    /// of its answers.
    #[inline(never)]
    fn listen<M: MemoryPort, P: FilePort>(
        &mut self,
        core: &mut M,
        files: &mut P,
        now: u64,
    ) -> Result<Turn, StepFault>
        requires on { self.old.on ≡ true }
        requires idle { works_in self.old.inner.state ≡ false }
        requires can { CanStep self.old (M.words core.old) }
        requires own { IsDirectoryOf P.FilePort self.old files.old }
        requires time { now < 2 ^ 35 }
        ensures turn { IfOk result (λ turn. Over (P.tells files.old)
            (stored (M.words core.old) (P.files files.old)) (stored (M.words core.new) (P.files files.new))
            (IsTurn turn now self.old self.new)) }
        ensures leaves { Leaves M.MemoryPort P.FilePort result self.old self.new core.old core.new files.old files.new }
    {
        if self.is_debugged() {
            let turn = self.debug(core)?;
            return Ok(turn);
        }
        self.take_line(core, files, now)
    }

    /// The next step of a program that works without the debugger, with the supervisor entry that it comes to.
    #[inline(always)]
    fn work<M: MemoryPort, P: FilePort>(
        &mut self,
        core: &mut M,
        files: &mut P,
        now: u64,
    ) -> Result<Turn, StepFault>
        requires work { IsAtWork self.old }
        requires can { CanStep self.old (M.words core.old) }
        requires own { IsDirectoryOf P.FilePort self.old files.old }
        requires time { now < 2 ^ 35 }
        ensures turn { IfOk result (λ turn. Over (P.tells files.old)
            (stored (M.words core.old) (P.files files.old)) (stored (M.words core.new) (P.files files.new))
            (IsTurn turn now self.old self.new)) }
        ensures leaves { Leaves M.MemoryPort P.FilePort result self.old self.new core.old core.new files.old files.new }
    {
        self.go_on(core, files, now)
    }

    /// A step at a tick of a user of whom no program works without the debugger, or of whom one is still to be
    /// stored. It stands apart, so that the others don't pay for the room of its answers.
    #[inline(never)]
    fn step_apart<M: MemoryPort, P: FilePort>(
        &mut self,
        core: &mut M,
        files: &mut P,
        now: u64,
    ) -> Result<Turn, StepFault>
        requires can { CanStep self.old (M.words core.old) }
        requires own { IsDirectoryOf P.FilePort self.old files.old }
        requires time { now < 2 ^ 35 }
        ensures turn { IfOk result (λ turn. Over (P.tells files.old)
            (stored (M.words core.old) (P.files files.old)) (stored (M.words core.new) (P.files files.new))
            (IsTurn turn now self.old self.new)) }
        ensures leaves { Leaves M.MemoryPort P.FilePort result self.old self.new core.old core.new files.old files.new }
    {
        if !self.is_open() {
            return Ok(Turn::Waits);
        }
        if !self.works() {
            return self.listen(core, files, now);
        }
        match self.fill {
            Some(fill) => self.fill_core(core, files, fill),
            None => self.run(core, files, now),
        }
    }

    /// A step at a tick, if one can be done: the first unread line as a command or in INPUT, or the next step of a program.
    ///
    /// One port is to the words of the user's program, the other to its directory. Where a step gives the program another size or another program,
    /// `blocks` is the new size, and the caller cuts, extends or clears the words.
    #[inline(never)]
    pub fn step<M: MemoryPort, P: FilePort>(
        &mut self,
        core: &mut M,
        files: &mut P,
        now: u64,
    ) -> Result<Turn, StepFault>
        requires can { CanStep self.old (M.words core.old) }
        requires own { IsDirectoryOf P.FilePort self.old files.old }
        requires time { now < 2 ^ 35 }
        ensures turn { IfOk result (λ turn. Over (P.tells files.old)
            (stored (M.words core.old) (P.files files.old)) (stored (M.words core.new) (P.files files.new))
            (IsTurn turn now self.old self.new)) }
        ensures leaves { Leaves M.MemoryPort P.FilePort result self.old self.new core.old core.new files.old files.new }
    {
        if self.is_at_work() {
            return self.work(core, files, now);
        }
        self.step_apart(core, files, now)
    }
}
