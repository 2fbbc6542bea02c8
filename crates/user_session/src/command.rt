//! Steps of a user without a program that works: the first unread line as a command, or in INPUT.
ghost use Rattle.std.specs.Prelude.{◌≡◌, ◌<◌, ◌≤◌, ◌+◌, ◌-◌, ◌^◌, ◌++◌, ◌∷◌, [], ℕ, List, suc, true, false, Some, None, length, drop, option_to_list, IfOk, OnOk, OnErr};
ghost use Rattle.std.specs.List.{list_all};
ghost use Rattle.bcd48.specs.Characters.{is_character};
ghost use Rattle.cpu_regs.specs.Registers.{no_registers};
ghost use Rattle.user_model.specs.declared.Command.{Command};
ghost use Rattle.file_model.specs.Files.{got};
ghost use Rattle.program_model.specs.Decks.{deck_of, deck_name};
ghost use Rattle.program_model.specs.Fills.{StartsInCore};
ghost use Rattle.program_model.specs.declared.ProgramState.TheVariants.{Dead, Working};
ghost use Rattle.time_sharing.specs.Machine.{In, Out};
ghost use Rattle.time_sharing.specs.Rows.{out_all};
ghost use Rattle.user_model.specs.Answers.{DidInput};
ghost use Rattle.user_model.specs.Session.{works_in};
ghost use Rattle.user_model.specs.Texts.{time_text, ready_text};
ghost use Rattle.user_session.specs.Stores.{stored, Over, OfSome, Uses, Reads};
ghost use Rattle.user_session.specs.Turns.{IsTurn, Obeys};
ghost use Rattle.user_session.specs.Calls.{CanStep, IsCoreOf, IsDirectoryOf, KeepsUser};

use crate::entry::STOPPED;
use crate::file_command::DONE;
use crate::session::Session;
use crate::{Step, Turn};
use cmd_program::{PrepareFault, line_words, prepare, refusal_text};
use cpu_regs::{MemoryPort, Regs};
use ctss_types::{CommonOp, Ending, FileName, LineText, NoMemory, Refusal, StepFault, name_word};
use dialogue::command_table::command_of;
use dialogue::session_text::load_text;
use file_map::{FilePort, PortFault};
use program_model::{Deck, Fill, LoadFault, ProgramState};
use user_model::Command;
use word36::Word;

/// The file that a program of this name is loaded from.
pub(crate) fn deck_name(name: Word) -> FileName
    ensures { result ≡ deck_name name }
{
    FileName::new(name, name_word(b"BSS"))
}

impl Session {
    /// A line is taken: the line, the time, maybe a text, and R 1.
    pub(crate) fn say(
        &mut self,
        line: LineText,
        text: Option<LineText>,
        now: u64,
    ) -> Result<(), NoMemory>
        requires fits { self.old.own < 2 ^ 64 - 1 }
        ensures ok { OnOk result (self.new ≡ record self.old {
          unread = drop 1 self.old.unread;
          fed = self.old.fed - 1;
          transcript = self.old.transcript
              ++ In line ∷ Out (time_text now) ∷ out_all (option_to_list text ++ ready_text 1 ∷ []);
          own = suc self.old.own;
          own_at_command = self.old.own;
        }) }
        ensures err { OnErr result (self.new ≡ self.old) }
    {
        self.talk.reserve(4)?;
        self.talk.answer(line, text, now);
        self.count_command();
        Ok(())
    }

    /// A line is taken, with the time, this text and R 1.
    pub(crate) fn say_why(&mut self, line: LineText, why: &[u8], now: u64) -> Result<(), NoMemory>
        requires short { length why.now ≤ 84 }
        requires characters { list_all is_character why.now ≡ true }
        requires fits { self.old.own < 2 ^ 64 - 1 }
        ensures ok { OnOk result (self.new ≡ record self.old {
          unread = drop 1 self.old.unread;
          fed = self.old.fed - 1;
          transcript = self.old.transcript ++ In line ∷ Out (time_text now) ∷ Out why.now ∷ Out (ready_text 1) ∷ [];
          own = suc self.old.own;
          own_at_command = self.old.own;
        }) }
        ensures err { OnErr result (self.new ≡ self.old) }
    {
        self.say(line, Some(LineText::of(why)), now)
    }

    /// LOGOUT: the program goes, and files of mode 0.
    #[tactic(auto, using(user_model::proofs::CoreLaws::recut_none))]
    fn log_out<P: FilePort>(
        &mut self,
        files: &mut P,
        line: LineText,
        now: u64,
    ) -> Result<Turn, StepFault>
        requires port { P.Usable files.old }
        requires fits { self.old.own < 2 ^ 64 - 1 }
        ensures row { (core : List ℕ) → IfOk result (λ turn. Obeys line Command.Logout turn now self.old self.new
            (stored core (P.files files.old)) (stored core (P.files files.new))) }
        ensures user { KeepsUser result self.old self.new }
        ensures uses { Uses P.FilePort result files.old files.new }
    {
        self.talk.reserve(3)?;
        self.talk.log_out(line, self.account.name, now);
        self.count_command();
        files.drop_temporary();
        self.on = false;
        self.drop_program();
        Ok(Turn::Done(Step {
            ending: Ending::LoggedOut,
            clock: true,
        }))
    }

    /// The deck of a program of this name, or why there is none.
    fn read_deck<P: FilePort>(
        &self,
        files: &mut P,
        name: Word,
    ) -> Result<Result<Deck, LoadFault>, StepFault>
        requires port { P.Usable files.old }
        ensures answer { IfOk result (λ answer. OfSome (P.tells files.old) (P.files files.old)
            (λ fs. answer ≡ deck_of self.now.inner.account.blocks (got (deck_name name) fs))) }
        ensures blocks { IfOk result (λ answer. IfOk answer (λ d. d.blocks ≤ self.now.inner.account.blocks)) }
        ensures start { IfOk result (λ answer. IfOk answer (λ d. d.start < 2 ^ 15)) }
        ensures reads { Reads P.FilePort result files.old files.new }
    {
        match prepare(deck_name(name), self.account.blocks, files) {
            Ok(deck) => Ok(Ok(deck)),
            Err(PrepareFault::Load(fault)) => Ok(Err(fault)),
            Err(PrepareFault::Disk) => Err(StepFault::Disk),
            Err(PrepareFault::NoMemory) => Err(StepFault::NoMemory),
        }
    }

    /// A program takes the place of the one before; it is filled in the next step.
    pub(crate) fn begin(
        &mut self,
        line: LineText,
        blocks: u8,
        fill: Fill,
        now: u64,
    ) -> Result<(), NoMemory>
        requires fits { self.old.own < 2 ^ 64 - 1 }
        requires quota { blocks ≤ self.old.inner.account.blocks }
        requires start { StartsInCore fill }
        ensures ok { OnOk result (self.new ≡ record self.old {
          inner = record self.old.inner { state = Working; regs = no_registers; blocks = blocks; fill = Some fill };
          unread = drop 1 self.old.unread;
          fed = self.old.fed - 1;
          transcript = self.old.transcript ++ In line ∷ Out (time_text now) ∷ [];
          own = suc self.old.own;
          own_at_command = self.old.own;
        }) }
        ensures err { OnErr result (self.new ≡ self.old) }
    {
        self.talk.reserve(2)?;
        self.talk.begin(line, now);
        self.count_command();
        self.state = ProgramState::Working;
        self.regs = Regs::new();
        self.blocks = blocks;
        self.fill = Some(fill);
        Ok(())
    }

    /// LOADGO: the program of a deck, or why there is none.
    #[tactic(auto, using(user_model::proofs::CoreLaws::recut_same))]
    fn load<P: FilePort>(
        &mut self,
        files: &mut P,
        line: LineText,
        name: Word,
        now: u64,
    ) -> Result<Turn, StepFault>
        requires fits { self.old.own < 2 ^ 64 - 1 }
        requires port { P.Usable files.old }
        ensures row { (core : List ℕ) → IsCoreOf self.old core → IfOk result (λ turn. Over (P.tells files.old)
            (stored core (P.files files.old)) (stored core (P.files files.new))
            (Obeys line (Command.LoadGo name) turn now self.old self.new)) }
        ensures user { KeepsUser result self.old self.new }
        ensures uses { Uses P.FilePort result files.old files.new }
    {
        match self.read_deck(files, name)? {
            Ok(deck) => {
                let fill = Fill::Deck {
                    name: deck_name(name),
                    start: deck.start,
                };
                self.begin(line, deck.blocks, fill, now)?;
                Ok(Turn::Done(Step {
                    ending: Ending::Replaced,
                    clock: true,
                }))
            }
            Err(fault) => {
                self.say(line, Some(load_text(fault)), now)?;
                Ok(Turn::Done(Step {
                    ending: Ending::Stopped,
                    clock: true,
                }))
            }
        }
    }

    /// A command is done, or is to make a common operation first.
    #[tactic(auto, using(user_model::proofs::CoreLaws::recut_same, user_model::proofs::CoreLaws::recut_none))]
    fn obey<M: MemoryPort, P: FilePort>(
        &mut self,
        core: &M,
        files: &mut P,
        line: LineText,
        command: Command,
        now: u64,
    ) -> Result<Turn, StepFault>
        requires can { CanStep self.old (M.words core.now) }
        requires own { IsDirectoryOf P.FilePort self.old files.old }
        ensures row { IfOk result (λ turn. Over (P.tells files.old)
            (stored (M.words core.now) (P.files files.old)) (stored (M.words core.now) (P.files files.new))
            (Obeys line command turn now self.old self.new)) }
        ensures user { KeepsUser result self.old self.new }
        ensures uses { Uses P.FilePort result files.old files.new }
    {
        match command {
            Command::Empty => {
                self.say(line, None, now)?;
                Ok(Turn::Done(DONE))
            }
            Command::Logout => self.log_out(files, line, now),
            Command::LoadGo(name) => self.load(files, line, name, now),
            Command::List => {
                let done = self.list_files(files, line, now)?;
                Ok(Turn::Done(done))
            }
            Command::Print(name) => self.print_file(files, line, name, now),
            Command::Rename { name, to } => self.rename(files, line, name, to, now),
            Command::Delete(name) => self.delete(files, line, name, now),
            Command::ChangeMode { name, mode } => self.chmode(files, line, name, mode, now),
            Command::Input(name) => self.begin_input(files, line, name, now),
            Command::CopyTo(name) => self.ask_copy(files, line, name, now),
            Command::CopyFrom(name) => Ok(self.ask(CommonOp::Get(name))?),
            Command::Assemble(name) => {
                let done = self.assemble(files, line, name, now)?;
                Ok(Turn::Done(done))
            }
            Command::Link(name) => {
                let done = self.link(files, line, name, now)?;
                Ok(Turn::Done(done))
            }
            Command::Start => Ok(Turn::Done(self.start(line, now)?)),
            Command::Save(name) => {
                let done = self.save(core, files, line, name, now)?;
                Ok(Turn::Done(done))
            }
            Command::Resume(name) => self.resume(files, line, name, now),
            Command::Registers => Ok(Turn::Done(self.tell_registers(line, now)?)),
            Command::WordAt { place } => Ok(Turn::Done(self.tell_word(core, line, place, now)?)),
            Command::Debug => Ok(Turn::Done(self.open_debugger(line, now)?)),
            Command::RunFile(name) => {
                let done = self.run_file(files, line, name, now)?;
                Ok(Turn::Done(done))
            }
            Command::BadArguments => {
                self.say_why(line, b"BAD ARGUMENTS", now)?;
                Ok(Turn::Done(DONE))
            }
            Command::Unknown => {
                self.say_why(line, b"NOT A COMMAND", now)?;
                Ok(Turn::Done(DONE))
            }
        }
    }

    /// INPUT: an empty file is made, and the lines that come go to it.
    #[tactic(auto, using(user_model::proofs::CoreLaws::recut_same, crate::proofs::Files::input_there, crate::proofs::Files::input_absent))]
    pub(crate) fn begin_input<P: FilePort>(
        &mut self,
        files: &mut P,
        line: LineText,
        name: FileName,
        now: u64,
    ) -> Result<Turn, StepFault>
        requires fits { self.old.own < 2 ^ 64 - 1 }
        requires own { IsDirectoryOf P.FilePort self.old files.old }
        ensures row { (core : List ℕ) → IsCoreOf self.old core → IfOk result (λ turn. Over (P.tells files.old)
            (stored core (P.files files.old)) (stored core (P.files files.new))
            (Obeys line (Command.Input name) turn now self.old self.new)) }
        ensures user { KeepsUser result self.old self.new }
        ensures uses { Uses P.FilePort result files.old files.new }
    {
        self.talk.reserve(4)?;
        match files.stat(name) {
            Ok(_) => {
                let text = refusal_text(Refusal::NameUsed);
                self.talk.answer(line, Some(text), now);
                self.count_command();
                return Ok(Turn::Done(DONE));
            }
            Err(PortFault::Refused(_)) => {}
            Err(PortFault::Disk | PortFault::NoMemory) => unreachable!(),
        }
        match files.put(name, &[]) {
            Ok(()) => {
                self.talk.begin(line, now);
                self.input = Some(name);
                self.count_command();
                Ok(Turn::Done(DONE))
            }
            Err(PortFault::Refused(refusal)) => {
                self.talk.answer(line, Some(refusal_text(refusal)), now);
                self.count_command();
                Ok(Turn::Done(DONE))
            }
            Err(PortFault::Disk) => Err(StepFault::Disk),
            Err(PortFault::NoMemory) => Err(StepFault::NoMemory),
        }
    }

    /// A line of INPUT: its 14 words go to the file. An empty line, or a refusal, ends it.
    #[tactic(auto, using(user_model::proofs::CoreLaws::recut_same))]
    pub(crate) fn type_line<P: FilePort>(
        &mut self,
        files: &mut P,
        line: LineText,
        name: FileName,
    ) -> Result<Step, StepFault>
        requires fits { self.old.own < 2 ^ 64 - 1 }
        requires own { IsDirectoryOf P.FilePort self.old files.old }
        ensures row { (core : List ℕ) → IsCoreOf self.old core → IfOk result (λ s. Over (P.tells files.old)
            (stored core (P.files files.old)) (stored core (P.files files.new))
            (DidInput line name s.ending s.clock self.old self.new)) }
        ensures user { KeepsUser result self.old self.new }
        ensures uses { Uses P.FilePort result files.old files.new }
    {
        self.talk.reserve(3)?;
        let n = self.own + 1 - self.own_at_command;
        if line.is_empty() {
            self.talk.end_input(line, None, n);
            self.input = None;
            self.own += 1;
            return Ok(STOPPED);
        }
        match files.append(name, &line_words(&line)) {
            Ok(()) => {
                self.talk.read(line);
                self.own += 1;
                Ok(STOPPED)
            }
            Err(PortFault::Refused(refusal)) => {
                self.talk.end_input(line, Some(refusal_text(refusal)), n);
                self.input = None;
                self.own += 1;
                Ok(STOPPED)
            }
            Err(PortFault::Disk) => Err(StepFault::Disk),
            Err(PortFault::NoMemory) => Err(StepFault::NoMemory),
        }
    }

    /// The first unread line: of INPUT, or a command.
    #[inline(never)]
    #[tactic(auto, using(user_model::proofs::RowTurns::command_waits))]
    pub(crate) fn take_line<M: MemoryPort, P: FilePort>(
        &mut self,
        core: &M,
        files: &mut P,
        now: u64,
    ) -> Result<Turn, StepFault>
        requires on { self.old.on ≡ true }
        requires works { works_in self.old.inner.state ≡ false }
        requires shut { self.old.inner.debugger ≡ None }
        requires can { CanStep self.old (M.words core.now) }
        requires own { IsDirectoryOf P.FilePort self.old files.old }
        ensures turn { IfOk result (λ turn. Over (P.tells files.old)
            (stored (M.words core.now) (P.files files.old)) (stored (M.words core.now) (P.files files.new))
            (IsTurn turn now self.old self.new)) }
        ensures user { KeepsUser result self.old self.new }
        ensures uses { Uses P.FilePort result files.old files.new }
    {
        let Some(line) = self.first_line() else {
            return Ok(Turn::Waits);
        };
        match self.input {
            Some(name) => {
                let typed = self.type_line(files, line, name)?;
                Ok(Turn::Done(typed))
            }
            None => {
                let turn = self.obey(core, files, line, command_of(&line), now)?;
                Ok(turn)
            }
        }
    }
}
