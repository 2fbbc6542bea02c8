//! The debugger: it is opened on a program that stopped, and takes lines until it is closed.
ghost use Rattle.std.specs.Prelude.{◌≡◌, ◌<◌, ◌≤◌, ◌-◌, ◌^◌, ◌++◌, ◌∷◌, [], ℕ, List, suc, true, false, None, Some, drop, length, nat_lt, IfOk, OnOk, OnErr};
ghost use Rattle.std.specs.List.{list_all};
ghost use Rattle.bcd48.specs.Characters.{is_character};
ghost use Rattle.ctss_types.specs.declared.file.FileBody.{FileBody};
ghost use Rattle.program_model.specs.Stops.{Stops, is_full};
ghost use Rattle.program_model.specs.declared.DebugLine.{DebugLine};
ghost use Rattle.time_sharing.specs.Machine.{In};
ghost use Rattle.time_sharing.specs.Rows.{out_all};
ghost use Rattle.user_model.specs.declared.Command.{Command};
ghost use Rattle.user_model.specs.Answers.{DidCommand};
ghost use Rattle.user_model.specs.Session.{works_in};
ghost use Rattle.user_model.specs.Inner.{Stored};
ghost use Rattle.user_session.specs.Stores.{stored};
ghost use Rattle.user_session.specs.Turns.{IsTurn, Debugs};
ghost use Rattle.user_session.specs.Calls.{CanStep, IsCoreOf, KeepsCore, KeepsUser};

use crate::entry::STOPPED;
use crate::file_command::DONE;
use crate::session::Session;
use crate::{Step, Turn};
use cmd_program::{register_lines, word_line};
use cpu_regs::MemoryPort;
use ctss_types::{Ending, LineText, NoMemory};
use dialogue::fap_debug::{Debug, parse};
use dialogue::session_text::ready_text;
use program_model::{DebugLine, ProgramState};
use word36::Word;

/// What the debugger does that lets the program go.
const LET_GO: Step = Step {
    ending: Ending::Resized,
    clock: false,
};

/// Whether a place lies in a program's core.
fn is_inside<M: MemoryPort>(core: &M, at: u16) -> bool
    ensures { result ≡ nat_lt at (length (M.words core.now)) }
{
    core.load(at).is_ok()
}

impl Session {
    /// FAPDBG: the debugger is opened, without a breakpoint.
    #[tactic(auto, using(user_model::proofs::CoreLaws::recut_same))]
    pub(crate) fn open_debugger(&mut self, line: LineText, now: u64) -> Result<Step, NoMemory>
        requires fits { self.old.own < 2 ^ 64 - 1 }
        ensures row { (store : Stored) → IsCoreOf self.old store.core → IfOk result (λ s.
            DidCommand line Command.Debug s.ending s.clock now self.old self.new store store) }
        ensures user { KeepsUser result self.old self.new }
    {
        if !self.is_dormant() {
            self.say_why(line, b"NO PROGRAM", now)?;
            return Ok(DONE);
        }
        self.talk.reserve(2)?;
        self.talk.begin(line, now);
        self.count_command();
        self.debugger = Some(Debug::new());
        Ok(DONE)
    }

    /// A line of the debugger is taken, with these texts.
    fn tell(&mut self, line: LineText, lines: &[LineText]) -> Result<(), NoMemory>
        requires fits { self.old.own < 2 ^ 64 - 1 }
        ensures ok { OnOk result (self.new ≡ record self.old {
          unread = drop 1 self.old.unread;
          fed = self.old.fed - 1;
          transcript = self.old.transcript ++ In line ∷ out_all lines.now;
          own = suc self.old.own;
          own_at_command = self.old.own;
        }) }
        ensures err { OnErr result (self.new ≡ self.old) }
    {
        self.talk.reserve(lines.len() + 2)?;
        self.talk.answer_debugger(line, lines);
        self.count_command();
        Ok(())
    }

    /// A line of the debugger is taken, with one text.
    fn tell_why(&mut self, line: LineText, why: &[u8]) -> Result<Step, NoMemory>
        requires short { length why.now ≤ 84 }
        requires characters { list_all is_character why.now ≡ true }
        requires fits { self.old.own < 2 ^ 64 - 1 }
        ensures ok { IfOk result (λ s. (s ≡ STOPPED) × (self.new ≡ record self.old {
          unread = drop 1 self.old.unread;
          fed = self.old.fed - 1;
          transcript = self.old.transcript ++ In line ∷ out_all (why.now ∷ []);
          own = suc self.old.own;
          own_at_command = self.old.own;
        })) }
        ensures err { OnErr result (self.new ≡ self.old) }
    {
        self.tell(line, &[LineText::of(why)])?;
        Ok(STOPPED)
    }

    /// Whether eight breakpoints besides this place are set.
    fn has_no_room(&self, at: u16) -> bool
        ensures { (s : Stops) → self.now.inner.debugger ≡ Some s → result ≡ is_full s.breaks at }
    {
        match &self.debugger {
            Some(debugger) => debugger.is_full(at),
            None => false,
        }
    }

    /// BREAK: a breakpoint is set.
    #[tactic(auto, using(user_model::proofs::CoreLaws::recut_same))]
    fn break_at<M: MemoryPort>(
        &mut self,
        core: &M,
        line: LineText,
        at: u16,
    ) -> Result<Step, NoMemory>
        requires can { CanStep self.old (M.words core.now) }
        requires debugger { (s : Stops) × (self.old.inner.debugger ≡ Some s) }
        ensures row { Debugs line (DebugLine.Break at) result self.old self.new
            (M.words core.now) (M.words core.now) }
        ensures user { KeepsUser result self.old self.new }
    {
        if self.has_no_room(at) {
            return self.tell_why(line, b"BAD ARGUMENTS");
        }
        if !is_inside(core, at) {
            return self.tell_why(line, b"PROTECTION");
        }
        self.tell(line, &[])?;
        if let Some(debugger) = &mut self.debugger {
            // There is room, so it is set.
            let _ = debugger.set_break(at);
        }
        Ok(STOPPED)
    }

    /// CLEAR: a breakpoint is removed.
    #[tactic(auto, using(user_model::proofs::CoreLaws::recut_same))]
    fn clear_at<M: MemoryPort>(
        &mut self,
        core: &M,
        line: LineText,
        at: u16,
    ) -> Result<Step, NoMemory>
        requires can { CanStep self.old (M.words core.now) }
        requires debugger { (s : Stops) × (self.old.inner.debugger ≡ Some s) }
        ensures row { Debugs line (DebugLine.Clear at) result self.old self.new
            (M.words core.now) (M.words core.now) }
        ensures user { KeepsUser result self.old self.new }
    {
        if !is_inside(core, at) {
            return self.tell_why(line, b"PROTECTION");
        }
        self.tell(line, &[])?;
        if let Some(debugger) = &mut self.debugger {
            debugger.clear_break(at);
        }
        Ok(STOPPED)
    }

    /// GO: the program goes on.
    #[tactic(auto, using(user_model::proofs::CoreLaws::recut_same))]
    fn let_go(&mut self, line: LineText) -> Result<Step, NoMemory>
        requires fits { self.old.own < 2 ^ 64 - 1 }
        requires debugger { (s : Stops) × (self.old.inner.debugger ≡ Some s) }
        ensures row { (core : List ℕ) → IsCoreOf self.old core
            → Debugs line DebugLine.Go result self.old self.new core core }
        ensures user { KeepsUser result self.old self.new }
    {
        self.tell(line, &[])?;
        self.state = ProgramState::Working;
        if let Some(debugger) = &mut self.debugger {
            debugger.go();
        }
        Ok(LET_GO)
    }

    /// LOOK: the word at a place.
    #[tactic(auto, using(user_model::proofs::CoreLaws::recut_same))]
    fn look_at<M: MemoryPort>(
        &mut self,
        core: &M,
        line: LineText,
        at: u16,
    ) -> Result<Step, NoMemory>
        requires can { CanStep self.old (M.words core.now) }
        requires debugger { (s : Stops) × (self.old.inner.debugger ≡ Some s) }
        ensures row { Debugs line (DebugLine.Look at) result self.old self.new
            (M.words core.now) (M.words core.now) }
        ensures user { KeepsUser result self.old self.new }
    {
        let text = word_line(core, at);
        self.tell(line, &[text])?;
        Ok(STOPPED)
    }

    /// REGS: the registers.
    #[tactic(auto, using(user_model::proofs::CoreLaws::recut_same))]
    fn look_at_registers(&mut self, line: LineText) -> Result<Step, NoMemory>
        requires fits { self.old.own < 2 ^ 64 - 1 }
        requires debugger { (s : Stops) × (self.old.inner.debugger ≡ Some s) }
        ensures row { (core : List ℕ) → IsCoreOf self.old core
            → Debugs line DebugLine.Regs result self.old self.new core core }
        ensures user { KeepsUser result self.old self.new }
    {
        let lines = register_lines(&self.regs);
        self.tell(line, &lines)?;
        Ok(STOPPED)
    }

    /// SET: a word is stored.
    #[tactic(auto, using(user_model::proofs::CoreLaws::recut_same))]
    fn set_word<M: MemoryPort>(
        &mut self,
        core: &mut M,
        line: LineText,
        at: u16,
        word: Word,
    ) -> Result<Step, NoMemory>
        requires can { CanStep self.old (M.words core.old) }
        requires debugger { (s : Stops) × (self.old.inner.debugger ≡ Some s) }
        ensures row { Debugs line (DebugLine.Set at word) result self.old self.new
            (M.words core.old) (M.words core.new) }
        ensures user { KeepsUser result self.old self.new }
        ensures core { KeepsCore M.MemoryPort result core.old core.new }
    {
        if !is_inside(core, at) {
            return self.tell_why(line, b"PROTECTION");
        }
        self.tell(line, &[])?;
        // The place lies inside, so the word is stored.
        let _ = core.store(at, word);
        Ok(STOPPED)
    }

    /// END: the debugger is closed.
    #[tactic(auto, using(user_model::proofs::CoreLaws::recut_same))]
    fn end_debugger(&mut self, line: LineText) -> Result<Step, NoMemory>
        requires fits { self.old.own < 2 ^ 64 - 1 }
        requires debugger { (s : Stops) × (self.old.inner.debugger ≡ Some s) }
        ensures row { (core : List ℕ) → IsCoreOf self.old core
            → Debugs line DebugLine.End result self.old self.new core core }
        ensures user { KeepsUser result self.old self.new }
    {
        self.tell(line, &[ready_text(1)])?;
        self.debugger = None;
        Ok(STOPPED)
    }

    /// What a line asks of the debugger is done.
    fn obey_debugger<M: MemoryPort>(
        &mut self,
        core: &mut M,
        line: LineText,
        asked: DebugLine,
    ) -> Result<Step, NoMemory>
        requires can { CanStep self.old (M.words core.old) }
        requires debugger { (s : Stops) × (self.old.inner.debugger ≡ Some s) }
        ensures row { Debugs line asked result self.old self.new
            (M.words core.old) (M.words core.new) }
        ensures user { KeepsUser result self.old self.new }
        ensures core { KeepsCore M.MemoryPort result core.old core.new }
    {
        match asked {
            DebugLine::Break(at) => self.break_at(core, line, at),
            DebugLine::Clear(at) => self.clear_at(core, line, at),
            DebugLine::Go => self.let_go(line),
            DebugLine::Look(at) => self.look_at(core, line, at),
            DebugLine::Regs => self.look_at_registers(line),
            DebugLine::Set(at, word) => self.set_word(core, line, at, word),
            DebugLine::End => self.end_debugger(line),
            DebugLine::Bad => self.tell_why(line, b"BAD ARGUMENTS"),
        }
    }

    /// The first unread line is taken by the debugger.
    #[inline(never)]
    pub(crate) fn debug<M: MemoryPort>(&mut self, core: &mut M) -> Result<Turn, NoMemory>
        requires on { self.old.on ≡ true }
        requires works { works_in self.old.inner.state ≡ false }
        requires debugger { (s : Stops) × (self.old.inner.debugger ≡ Some s) }
        requires can { CanStep self.old (M.words core.old) }
        ensures turn { (fs : List FileBody) (now : ℕ) → IfOk result (λ turn. IsTurn turn now self.old self.new
            (stored (M.words core.old) fs) (stored (M.words core.new) fs)) }
        ensures user { KeepsUser result self.old self.new }
        ensures core { KeepsCore M.MemoryPort result core.old core.new }
    {
        let Some(line) = self.first_line() else {
            return Ok(Turn::Waits);
        };
        let done = self.obey_debugger(core, line, parse(&line))?;
        Ok(Turn::Done(done))
    }
}
