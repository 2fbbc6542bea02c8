//! Supervisor entries for a user's files.
ghost use Rattle.std.specs.Prelude.{◌≡◌, ◌<◌, ◌+◌, ◌-◌, ◌*◌, ◌^◌, ℕ, List, false, Ok, Err, None, Some, length, IfOk};
ghost use Rattle.program_model.specs.declared.Call.{Call};
ghost use Rattle.tia_entry.specs.Buffers.{HasBuffer};
ghost use Rattle.user_session.specs.Turns.{Enters};
ghost use Rattle.user_session.specs.Stores.{stored, Over, Uses};
ghost use Rattle.user_session.specs.Calls.{CanStep, IsCoreOf, IsDirectoryOf, KeepsUser, Leaves};

use crate::session::Session;
use crate::{Step, Turn};
use cmd_program::mode_within;
use cpu_regs::MemoryPort;
use ctss_types::{Ending, FileName, StepFault};
use file_map::{FilePort, PortFault};
use file_model::refusal_number;
use program_model::Call;
use tia_entry::{store_words, words_in};

/// A step of a program that goes on after a call.
pub(crate) const WENT: Step = Step {
    ending: Ending::Went,
    clock: false,
};

/// Where the words of a call lie in a program's core, and how many they are.
#[derive(Clone, Copy)]
pub(crate) struct Buffer {
    pub(crate) at: u16,
    pub(crate) count: u16,
}

impl Session {
    /// FSTAT: 4 times a file's words, and its mode.
    #[tactic(auto, using(user_model::proofs::CoreLaws::recut_same))]
    pub(crate) fn tell_file<P: FilePort>(&mut self, files: &P, name: FileName) -> Turn
        requires fits { self.old.own < 2 ^ 64 - 1 }
        requires port { P.Usable files.now }
        ensures row { (core : List ℕ) (now : ℕ) → IsCoreOf self.old core
            → Enters (Ok (Call.FileStat name)) result now self.old self.new
            (stored core (P.files files.now)) (stored core (P.files files.now)) }
        ensures account { self.new.inner.account ≡ self.old.inner.account }
    {
        match files.stat(name) {
            Ok(stat) => {
                self.reply(1, 0, Some(4 * stat.words + u64::from(stat.mode)));
                Turn::Done(WENT)
            }
            Err(PortFault::Refused(refusal)) => {
                self.reply(1, refusal_number(refusal), None);
                Turn::Done(WENT)
            }
            Err(PortFault::Disk | PortFault::NoMemory) => unreachable!(),
        }
    }

    /// RDFILE: words of a file go to a buffer.
    #[tactic(auto, using(user_model::proofs::CoreLaws::recut_same))]
    pub(crate) fn read_file<M: MemoryPort, P: FilePort>(
        &mut self,
        core: &mut M,
        files: &mut P,
        name: FileName,
        buffer: Buffer,
        place: u64,
    ) -> Result<Turn, StepFault>
        requires can { CanStep self.old (M.words core.old) }
        requires port { P.Usable files.old }
        requires within { HasBuffer (length (M.words core.old)) (Call.ReadFile name buffer.at buffer.count place) }
        ensures row { (now : ℕ) → IfOk result (λ turn. Over (P.tells files.old)
            (stored (M.words core.old) (P.files files.old)) (stored (M.words core.new) (P.files files.new))
            (Enters (Ok (Call.ReadFile name buffer.at buffer.count place)) turn now self.old self.new)) }
        ensures leaves { Leaves M.MemoryPort P.FilePort result self.old self.new core.old core.new files.old files.new }
    {
        match files.read(name, place, buffer.count) {
            Ok(words) => {
                store_words(core, buffer.at, words.as_slice());
                self.reply(3, 0, None);
                Ok(Turn::Done(WENT))
            }
            Err(PortFault::Refused(refusal)) => {
                self.reply(3, refusal_number(refusal), None);
                Ok(Turn::Done(WENT))
            }
            Err(PortFault::Disk) => Err(StepFault::Disk),
            Err(PortFault::NoMemory) => Err(StepFault::NoMemory),
        }
    }

    /// WRFILE: a buffer goes to a file.
    #[tactic(auto, using(user_model::proofs::CoreLaws::recut_same))]
    pub(crate) fn write_file<M: MemoryPort, P: FilePort>(
        &mut self,
        core: &M,
        files: &mut P,
        name: FileName,
        buffer: Buffer,
        place: u64,
    ) -> Result<Turn, StepFault>
        requires can { CanStep self.old (M.words core.now) }
        requires own { IsDirectoryOf P.FilePort self.old files.old }
        requires within { HasBuffer (length (M.words core.now)) (Call.WriteFile name buffer.at buffer.count place) }
        ensures row { (now : ℕ) → IfOk result (λ turn. Over (P.tells files.old)
            (stored (M.words core.now) (P.files files.old)) (stored (M.words core.now) (P.files files.new))
            (Enters (Ok (Call.WriteFile name buffer.at buffer.count place)) turn now self.old self.new)) }
        ensures user { KeepsUser result self.old self.new }
        ensures uses { Uses P.FilePort result files.old files.new }
    {
        let words = words_in(self.talk.allocator(), core, buffer.at, buffer.count)?;
        match files.write(name, place, &words) {
            Ok(()) => {
                self.reply(3, 0, None);
                Ok(Turn::Done(WENT))
            }
            Err(PortFault::Refused(refusal)) => {
                self.reply(3, refusal_number(refusal), None);
                Ok(Turn::Done(WENT))
            }
            Err(PortFault::Disk) => Err(StepFault::Disk),
            Err(PortFault::NoMemory) => Err(StepFault::NoMemory),
        }
    }

    /// DELETE: a file goes.
    #[tactic(auto, using(user_model::proofs::CoreLaws::recut_same))]
    pub(crate) fn delete_file<P: FilePort>(
        &mut self,
        files: &mut P,
        name: FileName,
    ) -> Result<Turn, StepFault>
        requires fits { self.old.own < 2 ^ 64 - 1 }
        requires port { P.Usable files.old }
        ensures row { (core : List ℕ) (now : ℕ) → IsCoreOf self.old core → IfOk result (λ turn.
            Enters (Ok (Call.DeleteFile name)) turn now self.old self.new
            (stored core (P.files files.old)) (stored core (P.files files.new))) }
        ensures user { KeepsUser result self.old self.new }
        ensures uses { Uses P.FilePort result files.old files.new }
    {
        match files.delete(name) {
            Ok(()) => {
                self.reply(1, 0, None);
                Ok(Turn::Done(WENT))
            }
            Err(PortFault::Refused(refusal)) => {
                self.reply(1, refusal_number(refusal), None);
                Ok(Turn::Done(WENT))
            }
            Err(PortFault::Disk) => Err(StepFault::Disk),
            Err(PortFault::NoMemory) => Err(StepFault::NoMemory),
        }
    }

    /// RENAME: a file gets another name.
    #[tactic(auto, using(user_model::proofs::CoreLaws::recut_same))]
    pub(crate) fn rename_file<P: FilePort>(
        &mut self,
        files: &mut P,
        name: FileName,
        to: FileName,
    ) -> Result<Turn, StepFault>
        requires fits { self.old.own < 2 ^ 64 - 1 }
        requires port { P.Usable files.old }
        ensures row { (core : List ℕ) (now : ℕ) → IsCoreOf self.old core → IfOk result (λ turn.
            Enters (Ok (Call.RenameFile name to)) turn now self.old self.new
            (stored core (P.files files.old)) (stored core (P.files files.new))) }
        ensures user { KeepsUser result self.old self.new }
        ensures uses { Uses P.FilePort result files.old files.new }
    {
        match files.rename(name, to) {
            Ok(()) => {
                self.reply(2, 0, None);
                Ok(Turn::Done(WENT))
            }
            Err(PortFault::Refused(refusal)) => {
                self.reply(2, refusal_number(refusal), None);
                Ok(Turn::Done(WENT))
            }
            Err(PortFault::Disk) => Err(StepFault::Disk),
            Err(PortFault::NoMemory) => Err(StepFault::NoMemory),
        }
    }

    /// CHMODE: a file gets another mode.
    #[tactic(auto, using(user_model::proofs::CoreLaws::recut_same))]
    pub(crate) fn change_mode<P: FilePort>(
        &mut self,
        files: &mut P,
        name: FileName,
        mode: u16,
    ) -> Result<Turn, StepFault>
        requires fits { self.old.own < 2 ^ 64 - 1 }
        requires port { P.Usable files.old }
        ensures row { (core : List ℕ) (now : ℕ) → IsCoreOf self.old core → IfOk result (λ turn.
            Enters (Ok (Call.ChangeMode name mode)) turn now self.old self.new
            (stored core (P.files files.old)) (stored core (P.files files.new))) }
        ensures user { KeepsUser result self.old self.new }
        ensures uses { Uses P.FilePort result files.old files.new }
    {
        match files.chmode(name, mode_within(mode)) {
            Ok(()) => {
                self.reply(2, 0, None);
                Ok(Turn::Done(WENT))
            }
            Err(PortFault::Refused(refusal)) => {
                self.reply(2, refusal_number(refusal), None);
                Ok(Turn::Done(WENT))
            }
            Err(PortFault::Disk) => Err(StepFault::Disk),
            Err(PortFault::NoMemory) => Err(StepFault::NoMemory),
        }
    }
}
