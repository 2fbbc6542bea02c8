//! Supervisor entries of a program.
ghost use Rattle.std.specs.Prelude.{◌≡◌, ◌<◌, ◌≤◌, ◌+◌, ◌-◌, ◌*◌, ◌^◌, ◌++◌, ◌∷◌, [], ◌||◌, ℕ, List, suc, nat_eq, nat_lt, true, false, Ok, Err, None, Some, length, IfOk, IfSome, OnOk, OnErr};
ghost use Rattle.std.specs.List.{list_all};
ghost use Rattle.bcd48.specs.Characters.{is_character};
ghost use Rattle.machine_model.specs.Machine.{step_of};
ghost use Rattle.machine_model.specs.Step.{entry};
ghost use Rattle.program_model.specs.declared.Call.{Call};
ghost use Rattle.program_model.specs.Calls.{is_line_count, answered};
ghost use Rattle.program_model.specs.declared.ProgramState.TheVariants as program;
ghost use Rattle.time_sharing.specs.Machine.{Out};
ghost use Rattle.tia_entry.specs.Buffers.{HasBuffer};
ghost use Rattle.user_model.specs.Texts.{ready_text, stop_text};
ghost use Rattle.ctss_types.specs.declared.file.FileBody.{FileBody};
ghost use Rattle.user_model.specs.Inner.{Stored};
ghost use Rattle.user_session.specs.Stores.{stored, Over};
ghost use Rattle.user_session.specs.Turns.{Enters, Runs};
ghost use Rattle.user_session.specs.Calls.{CanStep, IsCoreOf, IsAtInstruction, IsDirectoryOf, KeepsCore, KeepsUser, Leaves};

use crate::file_entry::{Buffer, WENT};
use crate::session::Session;
use crate::{Step, Turn};
use cpu_regs::{MemoryPort, Regs};
use ctss_types::{Ending, NoMemory, StepFault};
use dialogue::session_text::ready_text;
use file_map::FilePort;
use program_model::{Call, EntryFault, ProgramState};
use tia_entry::{
    answer, is_get_memory, is_get_time, is_line_count, line_in, read_call, store_line,
};
use word36::Word;

/// A step of a program that stops.
pub(crate) const STOPPED: Step = Step {
    ending: Ending::Stopped,
    clock: false,
};

impl Session {
    /// The program stops, and stays.
    pub(crate) fn stop(&mut self)
        requires { self.old.own < 2 ^ 64 - 1 }
        ensures { self.new ≡ record self.old {
          inner = record self.old.inner { state = program.Dormant };
          own = suc
              self.old.own;
        } }
    {
        self.own += 1;
        self.state = ProgramState::Dormant;
    }

    /// The program stops at its call, with the reason.
    fn stop_at_call(&mut self, why: &[u8]) -> Result<(), NoMemory>
        requires short { length why.now ≤ 70 }
        requires characters { list_all is_character why.now ≡ true }
        requires fits { self.old.own < 2 ^ 64 - 1 }
        ensures ok { OnOk result (self.new ≡ record self.old {
          inner = record self.old.inner { state = program.Dormant };
          transcript = self.old.transcript ++ Out (stop_text why.now self.old.inner.regs.ic)
              ∷ Out (ready_text (suc self.old.own - self.old.own_at_command)) ∷ [];
          own = suc self.old.own;
        }) }
        ensures err { OnErr result (self.new ≡ self.old) }
    {
        self.talk.reserve(2)?;
        let n = self.own + 1 - self.own_at_command;
        self.talk.say_stop(why, self.regs.ic, n);
        self.stop();
        Ok(())
    }

    /// A program that stops at a call that can't be done.
    #[tactic(auto, using(user_model::proofs::CoreLaws::recut_same))]
    fn refuse(&mut self, fault: EntryFault) -> Result<Turn, NoMemory>
        requires fits { self.old.own < 2 ^ 64 - 1 }
        ensures row { (store : Stored) (now : ℕ) → IsCoreOf self.old store.core → IfOk result (λ turn.
            Enters (Err fault) turn now self.old self.new store store) }
        ensures user { KeepsUser result self.old self.new }
    {
        match fault {
            EntryFault::NoSuchEntry => {
                self.stop_at_call(b"NO ENTRY")?;
                Ok(Turn::Done(STOPPED))
            }
            EntryFault::Outside(_) => {
                self.stop_at_call(b"PROTECTION")?;
                Ok(Turn::Done(STOPPED))
            }
        }
    }

    /// An answer to a call with so many arguments, and the program goes on.
    pub(crate) fn reply(&mut self, arguments: u8, reply: u8, value: Option<u64>)
        requires arguments { arguments ≤ 3 }
        requires reply { reply ≤ 7 }
        requires value { IfSome value (λ v. v < 2 ^ 35) }
        requires fits { self.old.own < 2 ^ 64 - 1 }
        ensures user { self.new ≡ record self.old {
          inner = record self.old.inner {
            regs = answered
                self.old.inner.regs arguments reply value;
          };
          own = suc self.old.own;
        } }
    {
        answer(&mut self.regs, arguments, reply, value);
        self.own += 1;
    }

    /// Whether a program of the user can't have so many blocks: none, or more than the quota.
    fn is_no_size(&self, blocks: u16) -> bool
        ensures value { result ≡ (nat_eq blocks 0 || nat_lt self.now.inner.account.blocks blocks) }
        ensures few { result ≡ false → blocks ≤ 128 }
    {
        blocks == 0 || u16::from(self.account.blocks) < blocks
    }

    /// RDFLX: the next line goes to a buffer.
    #[tactic(auto, using(user_model::proofs::CoreLaws::recut_same))]
    fn read_line<M: MemoryPort>(
        &mut self,
        core: &mut M,
        at: u16,
        count: u16,
    ) -> Result<Turn, NoMemory>
        requires can { CanStep self.old (M.words core.old) }
        requires within { HasBuffer (length (M.words core.old)) (Call.ReadLine at count) }
        ensures row { (fs : List FileBody) (now : ℕ) → IfOk result (λ turn.
            Enters (Ok (Call.ReadLine at count)) turn now self.old self.new
            (stored (M.words core.old) fs) (stored (M.words core.new) fs)) }
        ensures user { KeepsUser result self.old self.new }
        ensures core { KeepsCore M.MemoryPort result core.old core.new }
    {
        if !is_line_count(count) {
            self.reply(1, 7, None);
            return Ok(Turn::Done(WENT));
        }
        match self.first_line() {
            None => Ok(Turn::Waits),
            Some(line) => {
                self.talk.reserve(1)?;
                self.talk.read(line);
                store_line(core, at, count, line.as_slice());
                self.reply(1, 0, Some(u64::from(line.len())));
                Ok(Turn::Done(WENT))
            }
        }
    }

    /// WRFLX: a buffer is written as a line.
    #[tactic(auto, using(user_model::proofs::CoreLaws::recut_same))]
    fn write_line<M: MemoryPort>(&mut self, core: &M, at: u16, count: u16) -> Result<Turn, NoMemory>
        requires can { CanStep self.old (M.words core.now) }
        requires within { HasBuffer (length (M.words core.now)) (Call.WriteLine at count) }
        ensures row { (fs : List FileBody) (now : ℕ) → IfOk result (λ turn.
            Enters (Ok (Call.WriteLine at count)) turn now self.old self.new
            (stored (M.words core.now) fs) (stored (M.words core.now) fs)) }
        ensures user { KeepsUser result self.old self.new }
    {
        if !is_line_count(count) {
            self.reply(1, 7, None);
            return Ok(Turn::Done(WENT));
        }
        self.talk.reserve(1)?;
        self.talk.write(line_in(core, at, count));
        self.reply(1, 0, None);
        Ok(Turn::Done(WENT))
    }

    /// SETMEM: another size, from 1 block to the quota.
    #[tactic(auto, using(user_model::proofs::CoreLaws::recut_same))]
    fn set_memory(&mut self, blocks: u16) -> Turn
        requires fits { self.old.own < 2 ^ 64 - 1 }
        ensures row { (store : Stored) (now : ℕ) → IsCoreOf self.old store.core
            → Enters (Ok (Call.SetMemory blocks)) result now self.old self.new store store }
        ensures account { self.new.inner.account ≡ self.old.inner.account }
    {
        if self.is_no_size(blocks) {
            self.reply(1, 3, None);
            return Turn::Done(WENT);
        }
        if blocks == u16::from(self.blocks()) {
            self.reply(1, 0, None);
            return Turn::Done(WENT);
        }
        answer(&mut self.regs, 1, 0, None);
        self.blocks = blocks as u8;
        self.own += 1;
        Turn::Done(Step {
            ending: Ending::Resized,
            clock: false,
        })
    }

    /// GETTM: the clock.
    #[tactic(auto, using(user_model::proofs::CoreLaws::recut_same))]
    fn tell_time(&mut self, now: u64) -> Turn
        requires fits { self.old.own < 2 ^ 64 - 1 }
        requires time { now < 2 ^ 35 }
        ensures row { (store : Stored) → IsCoreOf self.old store.core
            → Enters (Ok Call.GetTime) result now self.old self.new store store }
        ensures account { self.new.inner.account ≡ self.old.inner.account }
    {
        self.reply(0, 0, Some(now));
        Turn::Done(Step {
            ending: Ending::Went,
            clock: true,
        })
    }

    /// GETMEM: the size in words.
    #[tactic(auto, using(user_model::proofs::CoreLaws::recut_same))]
    fn tell_memory(&mut self) -> Turn
        requires fits { self.old.own < 2 ^ 64 - 1 }
        ensures row { (store : Stored) (now : ℕ) → IsCoreOf self.old store.core
            → Enters (Ok Call.GetMemory) result now self.old self.new store store }
        ensures account { self.new.inner.account ≡ self.old.inner.account }
    {
        let words = 256 * u64::from(self.blocks());
        self.reply(0, 0, Some(words));
        Turn::Done(WENT)
    }

    /// DEAD: the program is over and goes.
    #[tactic(auto, using(user_model::proofs::CoreLaws::recut_none))]
    fn end_dead(&mut self) -> Result<Turn, NoMemory>
        requires fits { self.old.own < 2 ^ 64 - 1 }
        ensures row { (store : Stored) (now : ℕ) → IfOk result (λ turn.
            Enters (Ok Call.Dead) turn now self.old self.new store store) }
        ensures user { KeepsUser result self.old self.new }
    {
        self.talk.reserve(1)?;
        let n = self.own + 1 - self.own_at_command;
        self.talk.write(ready_text(n));
        self.own += 1;
        self.drop_program();
        Ok(Turn::Done(STOPPED))
    }

    /// DORMNT: the program is over and stays.
    #[tactic(auto, using(user_model::proofs::CoreLaws::recut_same))]
    fn end_dormant(&mut self) -> Result<Turn, NoMemory>
        requires fits { self.old.own < 2 ^ 64 - 1 }
        ensures row { (store : Stored) (now : ℕ) → IsCoreOf self.old store.core → IfOk result (λ turn.
            Enters (Ok Call.Dormant) turn now self.old self.new store store) }
        ensures user { KeepsUser result self.old self.new }
    {
        self.talk.reserve(1)?;
        let n = self.own + 1 - self.own_at_command;
        self.talk.write(ready_text(n));
        answer(&mut self.regs, 0, 0, None);
        self.stop();
        Ok(Turn::Done(STOPPED))
    }

    /// A call that can be done.
    fn answer_call<M: MemoryPort, P: FilePort>(
        &mut self,
        core: &mut M,
        files: &mut P,
        call: Call,
        now: u64,
    ) -> Result<Turn, StepFault>
        requires can { CanStep self.old (M.words core.old) }
        requires own { IsDirectoryOf P.FilePort self.old files.old }
        requires within { HasBuffer (length (M.words core.old)) call }
        requires time { now < 2 ^ 35 }
        ensures row { IfOk result (λ turn. Over (P.tells files.old)
            (stored (M.words core.old) (P.files files.old)) (stored (M.words core.new) (P.files files.new))
            (Enters (Ok call) turn now self.old self.new)) }
        ensures leaves { Leaves M.MemoryPort P.FilePort result self.old self.new core.old core.new files.old files.new }
    {
        match call {
            Call::ReadLine { at, count } => Ok(self.read_line(core, at, count)?),
            Call::WriteLine { at, count } => Ok(self.write_line(core, at, count)?),
            Call::GetTime => Ok(self.tell_time(now)),
            Call::GetMemory => Ok(self.tell_memory()),
            Call::SetMemory { blocks } => Ok(self.set_memory(blocks)),
            Call::FileStat { name } => Ok(self.tell_file(files, name)),
            Call::ReadFile {
                name,
                at,
                count,
                place,
            } => self.read_file(core, files, name, Buffer { at, count }, place),
            Call::WriteFile {
                name,
                at,
                count,
                place,
            } => self.write_file(core, files, name, Buffer { at, count }, place),
            Call::DeleteFile { name } => self.delete_file(files, name),
            Call::RenameFile { name, to } => self.rename_file(files, name, to),
            Call::ChangeMode { name, mode } => self.change_mode(files, name, mode),
            Call::Common(call) => Ok(self.ask_common(core, call)?),
            Call::Dead => Ok(self.end_dead()?),
            Call::Dormant => Ok(self.end_dormant()?),
        }
    }

    /// A supervisor entry that asks for more than a number. It stands apart, so that the others don't pay for the
    /// room of its call.
    #[inline(never)]
    #[tactic(auto, using(crate::proofs::Enters::entered))]
    fn enter_apart<M: MemoryPort, P: FilePort>(
        &mut self,
        core: &mut M,
        files: &mut P,
        name: Word,
        now: u64,
    ) -> Result<Turn, StepFault>
        requires ready { IsAtInstruction self.old }
        requires at { step_of self.old.inner.regs (M.words core.old) ≡ entry name }
        requires can { CanStep self.old (M.words core.old) }
        requires own { IsDirectoryOf P.FilePort self.old files.old }
        requires time { now < 2 ^ 35 }
        ensures turn { IfOk result (λ turn. Over (P.tells files.old)
            (stored (M.words core.old) (P.files files.old)) (stored (M.words core.new) (P.files files.new))
            (Runs turn now self.old self.new)) }
        ensures leaves { Leaves M.MemoryPort P.FilePort result self.old self.new core.old core.new files.old files.new }
    {
        match read_call(&self.regs, core, name) {
            Err(fault) => Ok(self.refuse(fault)?),
            Ok(call) => self.answer_call(core, files, call, now),
        }
    }

    /// A supervisor entry.
    #[inline(always)]
    #[tactic(auto, using(crate::proofs::Enters::entered))]
    pub(crate) fn enter<M: MemoryPort, P: FilePort>(
        &mut self,
        core: &mut M,
        files: &mut P,
        name: Word,
        now: u64,
    ) -> Result<Turn, StepFault>
        requires ready { IsAtInstruction self.old }
        requires at { step_of self.old.inner.regs (M.words core.old) ≡ entry name }
        requires can { CanStep self.old (M.words core.old) }
        requires own { IsDirectoryOf P.FilePort self.old files.old }
        requires time { now < 2 ^ 35 }
        ensures turn { IfOk result (λ turn. Over (P.tells files.old)
            (stored (M.words core.old) (P.files files.old)) (stored (M.words core.new) (P.files files.new))
            (Runs turn now self.old self.new)) }
        ensures leaves { Leaves M.MemoryPort P.FilePort result self.old self.new core.old core.new files.old files.new }
    {
        if is_get_time(name) {
            return Ok(self.tell_time(now));
        }
        if is_get_memory(name) {
            return Ok(self.tell_memory());
        }
        self.enter_apart(core, files, name, now)
    }
}
