//! Commands on a program that stopped, and on saved programs.
ghost use Rattle.std.specs.Prelude.{◌≡◌, ◌<◌, ◌≤◌, ◌-◌, ◌^◌, ℕ, List, true, IfOk};
ghost use Rattle.file_model.specs.Files.{got};
ghost use Rattle.program_model.specs.Saved.{saved_name, saved_of};
ghost use Rattle.user_model.specs.Answers.{DidCommand};
ghost use Rattle.user_model.specs.Commands.{is_dormant};
ghost use Rattle.ctss_types.specs.declared.file.FileBody.{FileBody};
ghost use Rattle.user_model.specs.Inner.{Stored};
ghost use Rattle.user_session.specs.Stores.{stored, Over, OfSome, Uses, Reads};
ghost use Rattle.user_session.specs.Turns.{Obeys};
ghost use Rattle.user_model.specs.declared.Command.{Command};
ghost use Rattle.user_session.specs.Calls.{CanStep, IsCoreOf, IsDirectoryOf, KeepsUser};

use crate::file_command::DONE;
use crate::session::Session;
use crate::{Step, Turn};
use cmd_program::{PrepareFault, prepare_saved, register_lines, saved_words, word_line};
use cpu_regs::MemoryPort;
use ctss_types::{Ending, FileName, LineText, NoMemory, StepFault, name_word};
use dialogue::command_table::is_dormant;
use dialogue::session_text::load_text;
use file_map::FilePort;
use program_model::{Fill, LoadFault, ProgramState};
use word36::Word;

/// The file that a program of this name is saved in.
fn saved_name(name: Word) -> FileName
    ensures { result ≡ saved_name name }
{
    FileName::new(name, name_word(b"SAVED"))
}

impl Session {
    /// Whether a program stopped, and is there.
    pub(crate) fn is_dormant(&self) -> bool
        ensures { result ≡ is_dormant self.now.inner.state }
    {
        is_dormant(self.state)
    }

    /// START: the program that stopped goes on.
    #[tactic(auto, using(user_model::proofs::CoreLaws::recut_same))]
    pub(crate) fn start(&mut self, line: LineText, now: u64) -> Result<Step, NoMemory>
        requires fits { self.old.own < 2 ^ 64 - 1 }
        ensures row { (store : Stored) → IsCoreOf self.old store.core → IfOk result (λ s.
            DidCommand line Command.Start s.ending s.clock now self.old self.new store store) }
        ensures user { KeepsUser result self.old self.new }
    {
        if !self.is_dormant() {
            self.say_why(line, b"NO PROGRAM", now)?;
            return Ok(DONE);
        }
        self.talk.reserve(2)?;
        self.talk.begin(line, now);
        self.count_command();
        self.state = ProgramState::Working;
        Ok(Step {
            ending: Ending::Resized,
            clock: true,
        })
    }

    /// SAVE: the program that stopped goes to a file.
    #[tactic(auto, using(user_model::proofs::CoreLaws::recut_same))]
    pub(crate) fn save<M: MemoryPort, P: FilePort>(
        &mut self,
        core: &M,
        files: &mut P,
        line: LineText,
        name: Word,
        now: u64,
    ) -> Result<Step, StepFault>
        requires can { CanStep self.old (M.words core.now) }
        requires own { IsDirectoryOf P.FilePort self.old files.old }
        ensures row { IfOk result (λ s. Over (P.tells files.old)
            (stored (M.words core.now) (P.files files.old)) (stored (M.words core.now) (P.files files.new))
            (DidCommand line (Command.Save name) s.ending s.clock now self.old self.new)) }
        ensures user { KeepsUser result self.old self.new }
        ensures uses { Uses P.FilePort result files.old files.new }
    {
        if !self.is_dormant() {
            self.say_why(line, b"NO PROGRAM", now)?;
            return Ok(DONE);
        }
        let words = saved_words(self.talk.allocator(), self.blocks, &self.regs, core)?;
        self.put_file(files, line, saved_name(name), &words, now)
    }

    /// The blocks of a saved program of this name, or why there is none.
    fn read_saved<P: FilePort>(
        &self,
        files: &mut P,
        name: Word,
    ) -> Result<Result<u8, LoadFault>, StepFault>
        requires port { P.Usable files.old }
        ensures answer { IfOk result (λ answer. OfSome (P.tells files.old) (P.files files.old)
            (λ fs. answer ≡ saved_of self.now.inner.account.blocks (got (saved_name name) fs))) }
        ensures blocks { IfOk result (λ answer. IfOk answer (λ b. b ≤ self.now.inner.account.blocks)) }
        ensures reads { Reads P.FilePort result files.old files.new }
    {
        match prepare_saved(saved_name(name), self.account.blocks, files) {
            Ok(blocks) => Ok(Ok(blocks)),
            Err(PrepareFault::Load(fault)) => Ok(Err(fault)),
            Err(PrepareFault::Disk) => Err(StepFault::Disk),
            Err(PrepareFault::NoMemory) => Err(StepFault::NoMemory),
        }
    }

    /// RESUME: a saved program takes the place of the one before, or why there is none.
    #[tactic(auto, using(user_model::proofs::CoreLaws::recut_same))]
    pub(crate) fn resume<P: FilePort>(
        &mut self,
        files: &mut P,
        line: LineText,
        name: Word,
        now: u64,
    ) -> Result<Turn, StepFault>
        requires fits { self.old.own < 2 ^ 64 - 1 }
        requires port { P.Usable files.old }
        ensures row { (core : List ℕ) → IsCoreOf self.old core → IfOk result (λ turn. Over (P.tells files.old)
            (stored core (P.files files.old)) (stored core (P.files files.new))
            (Obeys line (Command.Resume name) turn now self.old self.new)) }
        ensures user { KeepsUser result self.old self.new }
        ensures uses { Uses P.FilePort result files.old files.new }
    {
        match self.read_saved(files, name)? {
            Ok(blocks) => {
                let fill = Fill::Saved {
                    name: saved_name(name),
                };
                self.begin(line, blocks, fill, now)?;
                Ok(Turn::Done(Step {
                    ending: Ending::Replaced,
                    clock: true,
                }))
            }
            Err(fault) => {
                self.say(line, Some(load_text(fault)), now)?;
                Ok(Turn::Done(DONE))
            }
        }
    }

    /// PM: the registers of the program that stopped.
    #[tactic(auto, using(user_model::proofs::CoreLaws::recut_same))]
    pub(crate) fn tell_registers(&mut self, line: LineText, now: u64) -> Result<Step, NoMemory>
        requires fits { self.old.own < 2 ^ 64 - 1 }
        ensures row { (store : Stored) → IsCoreOf self.old store.core → IfOk result (λ s.
            DidCommand line Command.Registers s.ending s.clock now self.old self.new store store) }
        ensures user { KeepsUser result self.old self.new }
    {
        if !self.is_dormant() {
            self.say_why(line, b"NO PROGRAM", now)?;
            return Ok(DONE);
        }
        let lines = register_lines(&self.regs);
        self.say_all(line, &lines, now)?;
        Ok(DONE)
    }

    /// PM of a place: the word there, of the program that stopped.
    #[tactic(auto, using(user_model::proofs::CoreLaws::recut_same))]
    pub(crate) fn tell_word<M: MemoryPort>(
        &mut self,
        core: &M,
        line: LineText,
        place: u16,
        now: u64,
    ) -> Result<Step, NoMemory>
        requires can { CanStep self.old (M.words core.now) }
        ensures row { (fs : List FileBody) → IfOk result (λ s. DidCommand line (Command.WordAt place) s.ending s.clock
            now self.old self.new (stored (M.words core.now) fs) (stored (M.words core.now) fs)) }
        ensures user { KeepsUser result self.old self.new }
    {
        if !self.is_dormant() {
            self.say_why(line, b"NO PROGRAM", now)?;
            return Ok(DONE);
        }
        self.say(line, Some(word_line(core, place)), now)?;
        Ok(DONE)
    }
}
